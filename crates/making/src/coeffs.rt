// The coefficients and gains of an entry, as floats.
ghost use Rattle.std.specs.Prelude.{◌≡◌};
ghost use Rattle.making.specs.Making.{partial_coeff, noise_coeff, gain_of};
ghost use Rattle.making.specs.inner.Entry.{entry_in};

use crate::entry::Entry;
use table::entry::{coefficient, metadata_value};

impl Entry<'_> {
    // One that the entry lacks counts 0.
    pub fn partial_coeff(&self, c: u32, i: u32) -> f32
        ensures { result ≡ partial_coeff (entry_in self.now) c i }
    {
        if i < self.view.m_partials {
            float::from_bits(coefficient(self.image, self.view, c, i))
        } else {
            0.0
        }
    }

    // A band's coefficient stands after those of the partials.
    pub fn noise_coeff(&self, c: u32, b: u32) -> f32
        ensures { result ≡ noise_coeff (entry_in self.now) c b }
    {
        if b < self.view.j_noise {
            let column = self.view.m_partials.saturating_add(b);
            float::from_bits(coefficient(self.image, self.view, c, column))
        } else {
            0.0
        }
    }

    // A gain of the metadata; one that is not there is 1.
    pub fn gain_of(&self, key: &[u8]) -> f32
        ensures { result ≡ gain_of key.now (entry_in self.now) }
    {
        metadata_value(self.image, self.view, key).map_or(1.0, |bits| float::from_bits(bits))
    }
}
