// Question 9: the values of each entry.
ghost use Rattle.std.specs.Prelude.{◌≡◌};
ghost use Rattle.std.specs.Float.Ieee.Scale.{finite};
ghost use Rattle.wire.specs.Parse.{Refusal};
ghost use Rattle.table.specs.Table.{metadata_value};
ghost use Rattle.making.specs.Making.{f32, all, present_finite, values_ok, ask_values};
ghost use Rattle.making.specs.inner.Entry.{entry_in};
ghost use Rattle.making.specs.inner.Views.{entries_in, values_then};

use crate::entries::Entries;
use crate::entry::Entry;
use table::entry::{metadata_value, nth_coefficient};
use voice::{pitch_ok, stretch_ok};

impl Entry<'_> {
    // A gain that is there is finite.
    fn gain_ok(&self, key: &[u8]) -> bool
        ensures { result ≡ present_finite (metadata_value key.now (entry_in self.now).metadata) }
    {
        metadata_value(self.image, self.view, key).is_none_or(|bits| float::is_finite(
            float::from_bits(bits),
        ))
    }

    // Every coefficient is finite: row after row.
    fn coefficients_ok(&self) -> bool
        ensures { result ≡ all (λ b. finite (f32 b)) (entry_in self.now).coefficients }
    {
        (0..self.view.coefficients as usize)
            .map(|x| nth_coefficient(self.image, self.view, x))
            .all(|bits| float::is_finite(float::from_bits(bits)))
    }

    #[tactic(auto, unfolding(crate::specs::Making::values_ok))]
    fn values_ok(&self) -> bool
        ensures { result ≡ values_ok (entry_in self.now) }
    {
        pitch_ok(float::from_bits(self.view.f0_hz))
            && stretch_ok(float::from_bits(self.view.stretch))
            && self.coefficients_ok()
            && self.gain_ok(b"mainlobe_gain")
            && self.gain_ok(b"noise_gain")
    }
}

impl Entries<'_> {
    // The first entry with a bad value.
    pub fn first_bad(&self) -> Option<usize>
        ensures { (rest : Refusal) → values_then result rest ≡ ask_values 0 (entries_in self.now) rest }
    {
        self.views.iter().position(|v| !self.entry(*v).values_ok())
    }
}
