// How many bands, channels and phases a voice has.
ghost use Rattle.std.specs.Prelude.{◌≡◌, ◌≤◌, ℕ};
ghost use Rattle.table.specs.declared.entry.EntryView.{EntryView};
ghost use Rattle.table.specs.Table.{PitchEntry};
ghost use Rattle.table.specs.View.{entry_at};
ghost use Rattle.table.specs.Desk.{band_count};
ghost use Rattle.making.specs.Making.{most, most_channels, channel_count, partial_reach, reach_in, phases_for, phase_count};
ghost use Rattle.making.specs.inner.Entry.{entry_in};
ghost use Rattle.making.specs.inner.Sounding.{sounding_of};
ghost use Rattle.making.specs.inner.Views.{entries_in};

use crate::entries::Entries;
use crate::entry::Entry;
use crate::sounding::Sounding;
use table::desk::{Kind, bands_of};
use table::entry::{EntryView, has_channel};
use voice::MAX_BLENDED;

impl Entry<'_> {
    // How far the partials of a channel reach: the place after the last that is not 0. (By `rev`, `find` and `map_or` the answer, which is
    // one more than what is found, would stand apart from the test that finds it.)
    fn reach_of(&self, c: u32) -> u32
        ensures { result ≡ partial_reach (entry_in self.now) c self.now.view.m_partials }
    {
        for i in (0..self.view.m_partials).rev() {
            if self.partial_coeff(c, i) != 0.0 {
                return i + 1;
            }
        }
        0
    }

    // The highest reach in the first n channels.
    fn reach_in(&self, n: u32) -> u32
        ensures { result ≡ reach_in (entry_in self.now) n }
    {
        (0..n).map(|c| self.reach_of(c)).max().unwrap_or(0)
    }

    fn phases_for(&self, sounding: Sounding) -> u32
        ensures { result ≡ phases_for sounding.kind sounding.channels (entry_in self.now) }
    {
        match sounding.kind {
            Kind::Single(channel) => {
                if has_channel(self.view, channel) {
                    self.view.m_partials
                } else {
                    0
                }
            }
            Kind::Blend => self.reach_in(sounding.channels),
        }
    }
}

impl Entries<'_> {
    // The largest count of any entry, 0 where there is none.
    fn most<F: Fn(EntryView) -> u32>(&self, count: F) -> u32
        requires { F.IsAlwaysCallable count }
        ensures { (p : PitchEntry → ℕ) → ((v : EntryView) (n : ℕ) → F.post count v n → n ≡ p (entry_at self.now.image.now v))
            → result ≡ most p (entries_in self.now) }
    {
        self.views.iter().map(|v| count(*v)).max().unwrap_or(0)
    }

    // The largest band count that an entry gives the voice.
    pub fn band_count(&self, kind: Kind) -> u32
        ensures { result ≡ band_count kind (entries_in self.now) }
    {
        self.most(|v| bands_of(kind, v))
    }

    fn most_channels(&self) -> u32
        ensures { result ≡ most_channels (entries_in self.now) }
    {
        self.most(|v| v.k_channels)
    }

    fn channel_count(&self, kind: Kind) -> u32
        ensures { result ≡ channel_count kind (entries_in self.now) }
    {
        match kind {
            Kind::Single(_) => 1,
            Kind::Blend => self.most_channels().min(MAX_BLENDED as u32),
        }
    }

    // What a voice of a kind sounds.
    pub fn sounding(&self, kind: Kind) -> Sounding
        ensures { result ≡ sounding_of kind (entries_in self.now) }
    {
        Sounding {
            kind,
            channels: self.channel_count(kind),
        }
    }

    // The phases of a voice.
    pub fn phase_count(&self, sounding: Sounding) -> u32
        ensures { result ≡ phase_count sounding.kind sounding.channels (entries_in self.now) }
    {
        self.most(|v| self.entry(v).phases_for(sounding))
    }
}
