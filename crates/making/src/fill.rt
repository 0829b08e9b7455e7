// The arrays of a voice, from its sorted entries.
ghost use Rattle.std.specs.Prelude.{◌≡◌, ℕ, ◌*◌, ◌≤◌, ◌<◌, Float};
ghost use Rattle.std.proofs.Common.{lit<, lit≤};
ghost use Rattle.table.specs.Table.{PitchEntry};
ghost use Rattle.voice.specs.Limits.{max_entries, max_partials, max_bands, max_blended};
ghost use Rattle.voice.specs.Lists.{up_to};
ghost use Rattle.making.specs.Making.{partial_coeff, noise_coeff, slot_coeff, coeff_place};
ghost use Rattle.making.specs.inner.Entry.{entry_in};
ghost use Rattle.making.specs.inner.Views.{entries_in};
ghost use Rattle.making.specs.inner.Columns.{columns_of};

use crate::entries::Entries;
use crate::entry::Entry;
use crate::sounding::Sounding;
use voice::MAX_BLENDED;

// What each slot has a row of: the partials' coefficients or the bands'.
pub trait Row {
    ghost coeff: { PitchEntry → ℕ → ℕ → Float };

    ghost WIDTH: { ℕ };

    const WIDTH: usize;

    // The coefficient of a channel at a column.
    fn at(entry: &Entry<'_>, c: u32, i: u32) -> f32
        ensures { result ≡ coeff (entry_in entry.now) c i };

    // It has places, and no more than there are partials.
    ghost some: { 0 < WIDTH };

    ghost few: { WIDTH ≤ max_partials };
}

pub struct Partials;

impl Row for Partials {
    ghost coeff = { partial_coeff };

    ghost WIDTH = { 32 };

    const WIDTH: usize = 32;

    fn at(entry: &Entry<'_>, c: u32, i: u32) -> f32 {
        entry.partial_coeff(c, i)
    }

    ghost some = { lit< tt };

    ghost few = { lit≤ tt };
}

pub struct Bands;

impl Row for Bands {
    ghost coeff = { noise_coeff };

    ghost WIDTH = { 16 };

    const WIDTH: usize = 16;

    fn at(entry: &Entry<'_>, c: u32, i: u32) -> f32 {
        entry.noise_coeff(c, i)
    }

    ghost some = { lit< tt };

    ghost few = { lit≤ tt };
}

// What stands at a place of an entry's four slots.
fn slot_at<R: Row>(entry: &Entry<'_>, sounding: Sounding, x: usize) -> f32
    ensures { result ≡ slot_coeff R.coeff R.WIDTH sounding.kind sounding.channels (entry_in entry.now) x }
{
    match sounding.slot_channel((x / R::WIDTH % MAX_BLENDED) as u32) {
        Some(c) => R::at(entry, c, (x % R::WIDTH) as u32),
        None => 0.0,
    }
}

// What each entry has one of: arrays side by side, since a voice, which crosses to C, has them so.
#[derive(Clone, Copy)]
pub struct Columns {
    pub f0_hz: [f32; 16],
    pub stretch: [f32; 16],
    pub mainlobe_gain: [f32; 16],
    pub noise_gain: [f32; 16],
}

impl Entries<'_> {
    // The slots of all entries, one after the other.
    pub fn slots<R: Row, const N: usize>(&self, sounding: Sounding) -> [f32; N]
        requires { N ≡ max_blended * R.WIDTH * max_entries }
        ensures { result ≡ up_to (coeff_place R.coeff R.WIDTH sounding.kind sounding.channels (entries_in self.now)) N }
    {
        let mut out = [0.0; N];
        let width = MAX_BLENDED * R::WIDTH;
        for x in 0..width * self.views.len() {
            out[x] = slot_at::<R>(&self.entry(self.views[x / width]), sounding, x);
        }
        out
    }

    pub fn columns(&self) -> Columns
        ensures { result ≡ columns_of (entries_in self.now) }
    {
        let mut pitches = [0.0; 16];
        let mut stretches = [0.0; 16];
        let mut mainlobes = [0.0; 16];
        let mut noises = [0.0; 16];
        for (i, v) in self.views.iter().enumerate() {
            let entry = self.entry(*v);
            pitches[i] = float::from_bits(v.f0_hz);
            stretches[i] = float::from_bits(v.stretch);
            mainlobes[i] = entry.gain_of(b"mainlobe_gain");
            noises[i] = entry.gain_of(b"noise_gain");
        }
        Columns {
            f0_hz: pitches,
            stretch: stretches,
            mainlobe_gain: mainlobes,
            noise_gain: noises,
        }
    }
}
