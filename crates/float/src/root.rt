// The square root of a float, correctly rounded, by integers.
ghost use Rattle.std.specs.Prelude.{◌≡◌, ◌<◌, ◌≤◌, ◌+◌, ◌*◌, ◌/◌, T};
ghost use Rattle.std.specs.Float.{binary32};
ghost use Rattle.std.specs.Float.Ieee.{of_bits};
ghost use Rattle.std.specs.Float.Ieee.Positive.{positive};
ghost use Rattle.float.specs.Sqrt.{scaled, normal_root, positive_root};
ghost use Rattle.float.specs.inner.Normal.{normal};
ghost use Rattle.float.specs.Sqrt.{sqrt as Sqrt·sqrt};

use crate::bits::is_finite;
use crate::near::near;
use crate::rounding::nearest;

// The significand of the pattern b times 2^24 or 2^23, whichever leaves an even exponent: a quarter of the number whose root has 25 digits.
pub(crate) fn quarter(b: u32) -> u64
    ensures { 4 * result ≡ scaled b }
{
    let m = (b % 0x80_0000 + 0x80_0000) as u64;
    let odd = (b / 0x80_0000 % 2) as u64;
    m * (0x100_0000 - odd * 0x80_0000)
}

// The float of half the exponent of the pattern b and of the significand h.
// A significand of 2^24 adds one to the exponent's field by itself.
fn packed(b: u32, h: u64) -> f32
    requires { (b < 2139095040) × (h ≤ 16777216) }
    ensures { result ≡ of_bits binary32 (((b / 8388608 + 1) / 2 + 62) * 8388608 + h) }
{
    let e = (b / 0x80_0000 + 1) / 2 + 62;
    f32::from_bits(e * 0x80_0000 + h as u32)
}

// The root of a positive normal float: that of its significand, at an even exponent.
fn normal_root(x: f32) -> f32
    requires { T (normal x) }
    ensures { result ≡ normal_root x }
{
    let b: u32 = f32::to_bits(x);
    packed(b, nearest(quarter(b), near(x, b)))
}

// The root of a positive float. A subnormal one is made normal first: the factors are 2^24 and 2^-12.
fn positive_root(x: f32) -> f32
    requires { T (positive x) }
    ensures { result ≡ positive_root x }
{
    if x < f32::MIN_POSITIVE {
        return normal_root(x * 16777216.0) * 0.000244140625;
    }
    normal_root(x)
}

// The square root of a float that is not normal, or has a sign.
// A zero and the infinity are their own, and a NaN or anything else below 0 has none: NaN.
fn rare_root(x: f32) -> f32
    ensures { result ≡ Sqrt·sqrt x }
{
    if x > 0.0 {
        return if is_finite(x) { positive_root(x) } else { x };
    }
    if x == 0.0 { x } else { f32::NAN }
}

// The square root.
pub fn sqrt(x: f32) -> f32
    ensures { result ≡ Sqrt·sqrt x }
{
    if x >= f32::MIN_POSITIVE && x <= f32::MAX {
        return normal_root(x);
    }
    rare_root(x)
}
