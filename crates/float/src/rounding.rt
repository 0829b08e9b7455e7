// The whole number nearest to the square root of a whole number.
ghost use Rattle.std.specs.Prelude.{◌≡◌, ◌+◌, ◌*◌, ◌/◌, ◌<◌, ◌≤◌, ◌^◌};
ghost use Rattle.float.specs.Root.{root};

// The number nearest to the root of n: h, brought down and then up. Both loops search from the guess, and where they end is the answer: a
// range would have no end to name.
fn moved(n: u64, near: u64) -> u64
    requires { (n < 2 ^ 48) × (0 < n) × (near ≤ 16777216) }
    ensures { result ≡ (root (4 * n) + 1) / 2 }
{
    let mut h = near;
    while n + h <= h * h {
        h -= 1;
    }
    while h * h + h < n {
        h += 1;
    }
    h
}

// The number nearest to the root of n: the guess, which is hardly ever another.
// It is the root of 4 n, halved and rounded up; no root of a whole number lies halfway between two.
pub(crate) fn nearest(n: u64, near: u64) -> u64
    requires { (n < 2 ^ 48) × (0 < n) × (near ≤ 16777216) }
    ensures { result ≡ (root (4 * n) + 1) / 2 }
{
    let s = near * near;
    if s < n + near && n <= s + near {
        return near;
    }
    moved(n, near)
}
