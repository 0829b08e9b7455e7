// The stretch between two sides. Rounded, it is from 0 to 8.
ghost use Rattle.std.specs.Prelude.{◌≡◌, true, get_or};
ghost use Rattle.std.specs.Float.{nan};
ghost use Rattle.float.specs.Lerp.{lerp};
ghost use Rattle.float.specs.inner.Range.{Within};
ghost use Rattle.player.specs.Bracket.{value_between};
ghost use Rattle.player.specs.inner.Ranges.{SidesIn};
ghost use Rattle.voice.specs.Voice.{stretch_ok};
ghost use Rattle.voice.specs.Limits.{max_entries};

use crate::pitch::bracket::Sides;

fn stretch_of(lo: f32, hi: f32, t: f32) -> f32
    requires { (stretch_ok lo ≡ true) × (stretch_ok hi ≡ true) × Within 1 1 t }
    ensures { (result ≡ lerp lo hi t) × Within 8 1 result }
{
    float::lerp(lo, hi, t)
}

// Beside `value_between`, because its contract says the range of the result, for which the stretches must be in theirs.
pub fn stretch_between(l: &[f32; 16], s: Sides) -> f32
    requires { SidesIn max_entries s × (stretch_ok (get_or l.now s.lo nan) ≡ true)
        × (stretch_ok (get_or l.now s.hi nan) ≡ true) × Within 1 1 s.t }
    ensures { (result ≡ value_between l.now s) × Within 8 1 result }
{
    let lo = s.lo;
    let hi = s.hi;
    stretch_of(l[lo], l[hi], s.t)
}
