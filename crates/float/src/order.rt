// The larger and the smaller of two floats, as Rust's `f32::max` and `f32::min`. The library's own say less: of two equal floats they may
// answer either.
ghost use Rattle.std.specs.Prelude.{◌≡◌};
ghost use Rattle.float.specs.Order.{maximum, minimum};

// The larger. A NaN gives the other operand.
pub fn max(a: f32, b: f32) -> f32
    ensures { result ≡ maximum a b }
{
    if a.is_nan() || a < b { b } else { a }
}

// The smaller. A NaN gives the other operand.
pub fn min(a: f32, b: f32) -> f32
    ensures { result ≡ minimum a b }
{
    if a.is_nan() || b < a { b } else { a }
}
