// The short lists of a voice, put one after the other into one array.
ghost use Rattle.std.specs.Prelude.{◌≡◌, ◌≤◌, length};
ghost use Rattle.float.specs.F32.{quotient};
ghost use Rattle.voice.specs.Limits.{max_bands};
ghost use Rattle.voice.specs.Lists.{padded};
ghost use Rattle.making.specs.inner.Columns.{lists_from};

use crate::fill::Columns;
use voice::{CENTRES, LISTS_PLACES, MAINLOBE_GAINS, NOISE_GAINS, PITCHES, STRETCHES, put_list};

// The centres as they were given, and 0 after them.
pub fn centres_list(centres: &[f32]) -> [f32; 16]
    requires { length centres.now ≤ max_bands }
    ensures { result ≡ padded max_bands (quotient 0 1) centres.now }
{
    let mut list = [0.0; 16];
    list[..centres.len()].copy_from_slice(centres);
    list
}

// All but what `init` works out.
pub fn lists_of(cols: Columns, centres: [f32; 16]) -> [f32; LISTS_PLACES]
    ensures { result ≡ lists_from cols centres }
{
    let pitches = put_list([0.0; LISTS_PLACES], PITCHES, cols.f0_hz);
    let stretches = put_list(pitches, STRETCHES, cols.stretch);
    let mainlobes = put_list(stretches, MAINLOBE_GAINS, cols.mainlobe_gain);
    let noises = put_list(mainlobes, NOISE_GAINS, cols.noise_gain);
    put_list(noises, CENTRES, centres)
}
