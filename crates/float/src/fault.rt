// Whether a float is the root of another, by whole numbers and few tests, so that a machine can test several at a time.
ghost use Rattle.std.specs.Prelude.{◌≡◌, cond, ◌<◌, ◌≤◌};
ghost use Rattle.std.specs.Float.{binary32};
ghost use Rattle.std.specs.Float.Ieee.{to_bits, lt};
ghost use Rattle.float.specs.Sqrt.{root_bits};
ghost use Rattle.float.specs.inner.Normal.{plus_zero};
ghost use Rattle.float.specs.inner.Roots.{Kept, IsRoot};

use crate::root::quarter;

// The pattern of x where it is above 0, else 0.
fn bits_above_zero(x: f32) -> u32
    ensures { (result ≡ cond (lt plus_zero x) (to_bits binary32 x) 0) × (result < 2147483648) }
{
    if x > 0.0 { f32::to_bits(x) } else { 0 }
}

// 0 only where p is the pattern of the root of the pattern b: what p has beyond the root's exponent is h, the whole number nearest to the
// root of n. That is so where h * h is below n + h and n at most h * h + h. A p below the exponent gives an h that is far too large.
fn square_fault(b: u32, p: u32) -> u32
    requires { (b < 2147483648) × (p < 2147483648) }
    ensures { (result ≤ 2) × (result ≡ 0 → p ≡ root_bits b) }
{
    let d = p + 0x6100_0000 - (b + 0x80_0000) / 0x100_0000 * 0x80_0000;
    let h = (d % 0x8000_0000) as u64;
    let n = quarter(b);
    let s = h * h;
    let low = (0x8000_0000_0000_0000 + s - (n + h)) / 0x8000_0000_0000_0000;
    let high = (0x7fff_ffff_ffff_ffff + n - (s + h)) / 0x8000_0000_0000_0000;
    (low + high) as u32
}

// 0 only where y is the root of x. Of an x below the normal floats it tests only that it is a zero, its own root: that y is x there is
// what `guess` ensures.
pub(crate) fn fault(x: f32, y: f32) -> u32
    ensures { (result ≤ 2) × (result ≡ 0 → Kept x y → IsRoot x y) }
{
    let s = square_fault(bits_above_zero(x), bits_above_zero(y));
    if x >= f32::MIN_POSITIVE {
        return if x <= f32::MAX { s } else { 1 };
    }
    if x == 0.0 { 0 } else { 1 }
}
