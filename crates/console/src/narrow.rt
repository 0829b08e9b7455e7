// The f32 of a decimal number.
ghost use Rattle.std.specs.Prelude.{◌≡◌};
ghost use Rattle.console.specs.Narrow.{narrow_pattern, narrowed, value_of};

use crate::decimal::Decimal;

// The pattern of the f32 nearest to a positive f64, ties to the even pattern: 29 of its digits go, and the exponent's field is
// 896 less. Of a float beyond 2^-126 or 2^127, for which that does not hold, 0.
#[tactic(auto, using(std::proofs::lemmas::Bool::Decides::nat_tests), unfolding(crate::specs::Narrow::narrow_pattern))]
fn pattern(b: u64) -> u32
    ensures { result ≡ narrow_pattern b }
{
    if b < 0x3810_0000_0000_0000 || 0x47e0_0000_0000_0000 <= b {
        return 0;
    }
    let kept = b / 0x2000_0000 - 0x1_c000_0000;
    let dropped = b % 0x2000_0000;
    if dropped < 0x1000_0000 {
        return kept as u32;
    }
    if 0x1000_0000 < dropped {
        return (kept + 1) as u32;
    }
    (kept + kept % 2) as u32
}

// A positive f64 as the f32 nearest to it, 0 where it is none.
pub fn narrow(x: f64) -> f32
    ensures { result ≡ narrowed x }
{
    if x > 0.0 {
        return f32::from_bits(pattern(f64::to_bits(x)));
    }
    0.0
}

// The f32 of a decimal number: its digits over the power of ten, one division of f64, then the nearest f32.
pub fn value(d: Decimal) -> f32
    ensures { result ≡ value_of d }
{
    let n = std::num::nearest_u64_to_f64(d.digits);
    let p = std::num::nearest_u64_to_f64(10u64.pow(d.places.min(15)));
    let x = narrow(n / p);
    if d.negative { -x } else { x }
}
