// The square roots of a column of floats.
// Guesses first, then a test of all of them. Where the test finds a fault, the roots are taken one by one.
ghost use Rattle.std.specs.Prelude.{◌≡◌, ◌≤◌, length};
ghost use Rattle.std.specs.List.{AllZip};
ghost use Rattle.float.specs.Roots.{rooted};
ghost use Rattle.float.specs.inner.Roots.{Kept, IsRoot};

use crate::fault::fault;
use crate::near::near_f32;
use crate::root::sqrt;

// A float near the root of x where x is normal, else x.
fn guess(x: f32) -> f32
    ensures { Kept x result }
{
    if x >= f32::MIN_POSITIVE && x <= f32::MAX {
        return near_f32(x, x.to_bits());
    }
    x
}

// Into each place of roots what f gives of the x at that place. (By index, since a proof sees no writes through a zipped `iter_mut`.)
fn fill_each<F: Fn(f32) -> f32>(roots: &mut [f32], xs: &[f32], f: F)
    requires callable { F.IsAlwaysCallable f }
    requires as_long { length roots.old ≡ length xs.now }
    ensures { AllZip (F.post f) xs.now roots.new }
{
    for (i, x) in xs.iter().enumerate() {
        roots[i] = f(*x);
    }
}

// The sum of the faults: all are asked, with no way out at the first, so that a machine can test several at a time.
fn faults(roots: &[f32], xs: &[f32]) -> u32
    requires as_long { length roots.now ≡ length xs.now }
    requires few { length xs.now ≤ 16777216 }
    ensures { result ≡ 0 → AllZip (λ x y. Kept x y → IsRoot x y) xs.now roots.now }
{
    let mut sum = 0;
    for (x, y) in xs.iter().zip(roots) {
        sum += fault(*x, *y);
    }
    sum
}

// The roots by guesses that are tested, and one by one where there is a fault.
fn each_by_guess(roots: &mut [f32], xs: &[f32])
    requires as_long { length roots.old ≡ length xs.now }
    requires few { length xs.now ≤ 16777216 }
    ensures { AllZip IsRoot xs.now roots.new }
{
    fill_each(roots, xs, guess);
    if faults(roots, xs) != 0 {
        fill_each(roots, xs, sqrt);
    }
}

// The roots of the first n of xs, into the first n of roots; no more than both have.
pub fn sqrt_each(roots: &mut [f32], xs: &[f32], n: usize)
    ensures { roots.new ≡ rooted n xs.now roots.old }
{
    let k = n.min(roots.len()).min(xs.len());
    let firsts = &mut roots[..k];
    let xs = &xs[..k];
    // the sum of the faults of so many fits
    if k <= 16777216 {
        each_by_guess(firsts, xs);
    } else {
        fill_each(firsts, xs, sqrt);
    }
}
