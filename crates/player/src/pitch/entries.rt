// The entries of a voice, and what a frequency decides of them.
ghost use Rattle.std.specs.Prelude.{◌≡◌, true};
ghost use Rattle.std.specs.Float.Ieee.{eq};
ghost use Rattle.float.specs.inner.Range.{Within};
ghost use Rattle.player.specs.Bracket.{bracket_of, sides_of};
ghost use Rattle.player.specs.inner.Tuning.{SidesFit, PitchFits, PitchAt, entries_at, sides_in};
ghost use Rattle.player.specs.inner.Ranges.{SidesIn};

use crate::pitch::bracket::{Bracket, Sides, last_not_above, share, value_between};
use crate::pitch::stretch::stretch_between;
use crate::timbre::Timbre;
use voice::{MAINLOBE_GAINS, NOISE_GAINS, PITCHES, STRETCHES, list_of};

// What each of the first `count` entries has one of: four arrays and a count, copied once a channel out of the voice's lists, which cross to
// C as one array. A slice of each would need a clause that their lengths agree. That they can be looked up is asked where it is needed
// (`SidesFit`, `PitchFits`), with what is asked of the frequency: the definition `entries_at` has the entries of any setting, so it could
// not make them with a ghost field.
#[derive(Clone, Copy)]
pub struct Entries {
    pub count: usize,
    pub f0_hz: [f32; 16],
    pub stretch: [f32; 16],
    pub mainlobe_gain: [f32; 16],
    pub noise_gain: [f32; 16],
}

// What a frequency decides: the sides, and the values between them.
#[derive(Clone, Copy)]
pub struct Pitch {
    pub f0: f32,
    pub s: Sides,
    pub stretch: f32,
    pub mainlobe: f32,
}

impl Entries {
    pub fn of<'a>(timbre: Timbre<'a>) -> Entries
        ensures { result ≡ entries_at timbre.entry.set.now timbre.entry.lists.now }
    {
        Entries {
            count: timbre.set.count,
            f0_hz: list_of(timbre.lists, PITCHES),
            stretch: list_of(timbre.lists, STRETCHES),
            mainlobe_gain: list_of(timbre.lists, MAINLOBE_GAINS),
            noise_gain: list_of(timbre.lists, NOISE_GAINS),
        }
    }

    // Between which of them f0 lies.
    fn bracket_at(&self, f0: f32) -> Bracket
        requires { SidesFit self.now f0 }
        ensures value { result ≡ bracket_of self.now.f0_hz self.now.count f0 }
        ensures inside { SidesIn self.now.count (sides_of result) × Within 1 1 (sides_of result).t }
    {
        let f0_hz = &self.f0_hz;
        if f0 <= f0_hz[0] {
            return Bracket::One(0);
        }
        let last = self.count - 1;
        if f0_hz[last] <= f0 {
            return Bracket::One(last);
        }
        match last_not_above(&f0_hz[..last], f0) {
            None => Bracket::One(0),
            Some(lo) => Bracket::Between(lo, lo + 1, share(f0_hz[lo], f0, f0_hz[lo + 1])),
        }
    }

    // The sides of f0 among the entries.
    pub fn sides_at(&self, f0: f32) -> Sides
        requires { SidesFit self.now f0 }
        ensures value { result ≡ sides_in self.now f0 }
        ensures inside { SidesIn self.now.count result × Within 1 1 result.t }
    {
        Sides::from(self.bracket_at(f0))
    }

    pub fn pitch_at(&self, f0: f32) -> Pitch
        requires { PitchFits self.now f0 }
        ensures { PitchAt self.now f0 result }
    {
        let s = self.sides_at(f0);
        Pitch {
            f0,
            s,
            stretch: stretch_between(&self.stretch, s),
            mainlobe: value_between(&self.mainlobe_gain, s),
        }
    }

    // The same while the frequency stays.
    pub fn pitch_kept(&self, was: Option<Pitch>, f0: f32) -> Pitch
        requires entries_in { PitchFits self.now f0 }
        requires kept { (p : Pitch) → was ≡ Some p → eq f0 p.f0 ≡ true → PitchAt self.now f0 p }
        ensures { PitchAt self.now f0 result }
    {
        match was {
            Some(p) if f0 == p.f0 => p,
            _ => self.pitch_at(f0),
        }
    }
}
