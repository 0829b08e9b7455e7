// Questions 8 to 12.
ghost use Rattle.std.specs.Prelude.{◌≡◌};
ghost use Rattle.table.specs.Table.{has_channel};
ghost use Rattle.making.specs.Making.{any, channel_found, centres_ok, table_question};
ghost use Rattle.making.specs.inner.Views.{entries_in, asked};

use crate::entries::Entries;
use crate::error::MakeError;
use table::desk::Kind;
use voice::rate_ok;

// Question 12.
fn centres_ok(bands: u32, centres: &[f32]) -> bool
    ensures { result ≡ centres_ok bands centres.now }
{
    centres.len() == bands as usize && centres.iter().all(|c| float::is_finite(*c))
}

impl Entries<'_> {
    // Whether some entry has the channel. (The test of `has_channel`, written out: that one promises it for every image, and the proof of a
    // chain does not find which image is meant.)
    fn any_channel(&self, channel: u32) -> bool
        ensures { result ≡ any (λ e. has_channel e channel) (entries_in self.now) }
    {
        self.views.iter().any(|v| channel < v.k_channels)
    }

    // Question 10.
    fn channel_found(&self, kind: Kind) -> bool
        ensures { result ≡ channel_found kind (entries_in self.now) }
    {
        match kind {
            Kind::Single(channel) => self.views.is_empty() || self.any_channel(channel),
            Kind::Blend => true,
        }
    }

    // Questions 8 to 12.
    pub fn question(&self, kind: Kind, sample_rate: f32, centres: &[f32]) -> Result<(), MakeError>
        ensures { asked result ≡ table_question kind (entries_in self.now) sample_rate centres.now }
    {
        if !self.sizes_ok() {
            return Err(MakeError::TooLarge);
        }
        if let Some(i) = self.first_bad() {
            return Err(MakeError::BadEntry(i));
        }
        if !self.channel_found(kind) {
            return Err(MakeError::NoChannel);
        }
        if !rate_ok(sample_rate) {
            return Err(MakeError::BadRate);
        }
        if !centres_ok(self.band_count(kind), centres) {
            return Err(MakeError::BadCentres);
        }
        Ok(())
    }
}
