// The entries between which a frequency lies.
ghost use Rattle.std.specs.Prelude.{◌≡◌, true, false, ◌≤◌, ◌<◌, ◌+◌, ◌*◌, length, get_or, MatchOption};
ghost use Rattle.std.specs.Float.{nan};
ghost use Rattle.std.specs.Float.Ieee.{le};
ghost use Rattle.float.specs.inner.Range.{Within};
ghost use Rattle.player.specs.Share.{share_of};
ghost use Rattle.player.specs.Bracket.{sides_of, value_between, place_between};
ghost use Rattle.player.specs.inner.Ranges.{NoneNotAbove};
ghost use Rattle.player.specs.inner.Ranges.{SidesIn};
ghost use Rattle.voice.specs.Limits.{max_entries, max_hz};

// One entry by its index, or two neighbours with the share between them.
#[derive(Clone, Copy)]
pub enum Bracket {
    One(usize),
    Between(usize, usize, f32),
}

// The two sides of a bracket: one entry stands on both, with t = 0. That both are entries is asked where it is needed (`SidesIn`). As a
// ghost field, which was tried, it could not be met by the definition `sides_of`, which has the sides of any bracket.
#[derive(Clone, Copy)]
pub struct Sides {
    pub lo: usize,
    pub hi: usize,
    pub t: f32,
}

// The last of these pitches that is not above f0.
pub fn last_not_above(pitches: &[f32], f0: f32) -> Option<usize>
    ensures { MatchOption result (NoneNotAbove pitches.now f0 0) (λ i. (i < length pitches.now) × (le (get_or pitches.now i nan) f0 ≡ true)
        × NoneNotAbove pitches.now f0 (i + 1)) }
{
    pitches.iter().rposition(|pitch| *pitch <= f0)
}

// The share of f0 between two pitches.
pub fn share(lo: f32, f0: f32, hi: f32) -> f32
    requires { Within max_hz 1 lo × Within max_hz 1 f0 × Within max_hz 1 hi × (le lo f0 ≡ true) × (le hi f0 ≡ false) }
    ensures { (result ≡ share_of lo f0 hi) × Within 1 1 result }
{
    (f0 - lo) / (hi - lo)
}

// One entry stands on both sides.
impl From<Bracket> for Sides {
    ghost from_gives = { λ b s. s ≡ sides_of b };

    fn from(b: Bracket) -> Sides {
        match b {
            Bracket::One(i) => Sides {
                lo: i,
                hi: i,
                t: 0.0,
            },
            Bracket::Between(lo, hi, t) => Sides { lo, hi, t },
        }
    }
}

// A value between those of the two sides.
pub fn value_between(l: &[f32; 16], s: Sides) -> f32
    requires { SidesIn max_entries s }
    ensures { result ≡ value_between l.now s }
{
    let lo = s.lo;
    let hi = s.hi;
    float::lerp(l[lo], l[hi], s.t)
}

// The same where each entry has `width` values: the one at its place `at`.
pub fn place_between(xs: &[f32], s: Sides, width: usize, at: usize) -> f32
    requires { (s.lo * width + at < length xs.now) × (s.hi * width + at < length xs.now) }
    ensures { result ≡ place_between width xs.now s at }
{
    let a = s.lo * width + at;
    let b = s.hi * width + at;
    float::lerp(xs[a], xs[b], s.t)
}
