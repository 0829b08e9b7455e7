// Live bands: those whose coefficient is not 0 in some entry, in a channel that the voice sounds.
ghost use Rattle.std.specs.Prelude.{◌≡◌, ◌≤◌, ◌<◌};
ghost use Rattle.making.specs.inner.Live.{live_of, with_live};
ghost use Rattle.making.specs.Making.{live_in, live_among, is_live, live_bands, channel_count};
ghost use Rattle.making.specs.inner.Entry.{entry_in};
ghost use Rattle.making.specs.inner.Views.{entries_in};
ghost use Rattle.voice.specs.Limits.{max_bands};

use crate::entries::Entries;
use crate::entry::Entry;
use crate::sounding::Sounding;
use table::desk::Kind;

// A list of bands as a voice's setting has it, which crosses to C: an array, and how many of its places are in use.
#[derive(Clone, Copy)]
pub struct Live {
    pub bands: [u8; 16],
    pub count: usize,
}

impl Live {
    fn push(&mut self, b: u8)
        requires { self.old.count < max_bands }
        ensures { self.new ≡ with_live self.old b }
    {
        self.bands[self.count] = b;
        self.count += 1;
    }
}

impl Entry<'_> {
    // Whether band b is not 0 in one of the first n channels.
    fn live_in(&self, b: u32, n: u32) -> bool
        ensures { result ≡ live_in (entry_in self.now) b n }
    {
        (0..n).any(|q| self.noise_coeff(q, b) != 0.0)
    }
}

impl Entries<'_> {
    fn live_among(&self, n: u32, b: u32) -> bool
        ensures { result ≡ live_among (entries_in self.now) n b }
    {
        self.views.iter().any(|v| self.entry(*v).live_in(b, n))
    }

    fn is_live(&self, sounding: Sounding, b: u32) -> bool
        requires { sounding.channels ≡ channel_count sounding.kind (entries_in self.now) }
        ensures { result ≡ is_live sounding.kind (entries_in self.now) b }
    {
        match sounding.kind {
            Kind::Single(_) => true,
            Kind::Blend => self.live_among(sounding.channels, b),
        }
    }

    // The live ones of the first j bands, ascending.
    pub fn live_bands(&self, sounding: Sounding, j: u32) -> Live
        requires bands_in { j ≤ max_bands }
        requires channels_are { sounding.channels ≡ channel_count sounding.kind (entries_in self.now) }
        ensures { result ≡ live_of (live_bands sounding.kind (entries_in self.now) j) }
    {
        let mut live = Live {
            bands: [0; 16],
            count: 0,
        };
        for b in 0..j {
            if self.is_live(sounding, b) {
                live.push(b as u8);
            }
        }
        live
    }
}
