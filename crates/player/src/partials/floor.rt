// The whole part of a float as a float.
ghost use Rattle.std.specs.Prelude.{◌≡◌, pos};
ghost use Rattle.std.specs.Float.{binary32};
ghost use Rattle.std.specs.Float.Ieee.{of_int, to_unsigned};
ghost use Rattle.float.specs.inner.Range.{Within};

// Of a float up to a phase and the largest step, by adding 2^23, which rounds the fraction away.
pub fn floor(x: f32) -> f32
    requires { Within 1048577 1 x }
    ensures { result ≡ of_int binary32 (pos (to_unsigned 64 x)) }
{
    let n = (x + 8388608.0) - 8388608.0;
    if x < n { n - 1.0 } else { n }
}
