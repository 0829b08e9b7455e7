// A guess at the root of a float, found by floats. That it is near is not claimed: whoever asks for one tests it.
ghost use Rattle.std.specs.Prelude.{not, ◌<◌, ◌≤◌, T};
ghost use Rattle.std.specs.Float.Ieee.{is_nan};

// About 1 / the root of x; b is the pattern of x.
// It is taken from half the pattern, within 1 / 30, and brought nearer by two of Newton's steps.
fn inverse(x: f32, b: u32) -> f32
    requires { b < 2139095040 }
{
    let a = f32::from_bits(0x5f1f_fff9 - b / 2);
    let c = a * (1.6819139 - (0.703952 * x) * (a * a));
    c * (1.5000006 - (0.5 * x) * (c * c))
}

// The significand, of 24 digits, of a float near the root of x; b is the pattern of x. The last of Newton's steps is in `f64`.
pub(crate) fn near(x: f32, b: u32) -> u64
    requires no_nan { T (not (is_nan x)) }
    requires finite_bits { b < 2139095040 }
    ensures { result ≤ 16777216 }
{
    // no less than 0: no NaN, so that an `f64` and its pattern can be had
    let y = inverse(x, b).max(0.0) as f64;
    let z = x as f64;
    let w = (z * y) * (1.5 - (0.5 * z) * (y * y));
    let p = w.max(0.0).to_bits();
    // rounded to 24 digits without the first, which is 1: a guess that rounds up to a power of two counts as that power
    (p / 0x1000_0000 % 0x100_0000 + 1) / 2 % 0x80_0000 + 0x80_0000
}

// A float near the root of x, without `f64`, so that a machine can work out several at a time. b is the pattern of x.
// The last step wants x - s * s to more digits than an `f32` has: s is split into two halves of 12 digits, whose products are exact.
pub(crate) fn near_f32(x: f32, b: u32) -> f32
    requires { b < 2139095040 }
{
    let d = inverse(x, b);
    let s = x * d;
    let t = s * 4097.0;
    let high = t - (t - s);
    let low = s - high;
    let left = ((x - high * high) - 2.0 * high * low) - low * low;
    s + (0.5 * d) * left
}
