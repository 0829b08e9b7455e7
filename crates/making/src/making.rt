// Making a voice: questions 1 to 12, then the fresh voice. (The kind, the rate and the centres are arguments of the call itself,
// which cross from C side by side: `question` and `fresh` are handed them as they came.)
ghost use Rattle.std.specs.Prelude.{◌≡◌, ◌≤◌, length};
ghost use Rattle.table.specs.Desk.{band_count};
ghost use Rattle.making.specs.Making.{kind_number, kind_channel, fresh_voice, blank_voice, making, make_of};
ghost use Rattle.making.specs.Answer.{made_of};
ghost use Rattle.making.specs.inner.Views.{entries_in};
ghost use Rattle.voice.specs.Limits.{max_bands};

use crate::entries::Entries;
use crate::error::MakeError;
use crate::fill::{Bands, Partials};
use crate::lists::{centres_list, lists_of};
use filters::Rng;
use table::desk::Kind;
use table::views::views_of;
use voice::{LISTS_PLACES, MAX_ENTRIES, Setting, State, Voice, first_state, init};

// What stands beside a refusal where there is room for a voice too, as at the C interface: all zero, with no entries. (Written out, as its
// definition is: a derived `Default` says the same of each field by itself.)
pub fn blank_voice() -> Voice
    ensures { result ≡ blank_voice }
{
    Voice {
        set: Setting {
            blend: 0,
            channel: 0,
            count: 0,
            k: 0,
            m: 0,
            j: 0,
            live_count: 0,
            sample_rate: 0.0,
            live: [0; 16],
        },
        lists: [0.0; LISTS_PLACES],
        partials: [0.0; 2048],
        noise: [0.0; 1024],
        state: State {
            phases: [0.0; 32],
            memories: [0.0; 32],
            rng: Rng { state: 0 },
        },
    }
}

// A kind as a voice and a call have it, which cross to C: 0 and the channel of a single voice; 1 and 0 of a blend.
pub fn numbers_of(kind: Kind) -> (u32, u32)
    ensures number { result.0 ≡ kind_number kind }
    ensures channel { result.1 ≡ kind_channel kind }
{
    match kind {
        Kind::Single(channel) => (0, channel),
        Kind::Blend => (1, 0),
    }
}

impl Entries<'_> {
    // The voice of a table whose questions were all answered yes: there are as many centres as bands.
    fn fresh(&self, kind: Kind, sample_rate: f32, centres: &[f32]) -> Voice
        requires centres_few { length centres.now ≤ max_bands }
        requires centres_all { length centres.now ≡ band_count kind (entries_in self.now) }
        ensures { result ≡ fresh_voice kind (entries_in self.now) sample_rate centres.now }
    {
        let j = centres.len();
        let sounding = self.sounding(kind);
        let m = self.phase_count(sounding);
        let live = self.live_bands(sounding, j as u32);
        let bands = live.bands;
        let sorted = self.gather(kind);
        let image = self.image;
        let views = sorted.as_slice();
        let kept = Entries { image, views };
        let lists = lists_of(kept.columns(), centres_list(centres));
        let (blend, channel) = numbers_of(kind);
        Voice {
            set: Setting {
                blend,
                channel,
                count: views.len(),
                k: sounding.channels as usize,
                m: m as usize,
                j,
                live_count: live.count,
                sample_rate,
                live: bands,
            },
            lists: init(lists, j, sample_rate),
            partials: kept.slots::<Partials, 2048>(sounding),
            noise: kept.slots::<Bands, 1024>(sounding),
            state: first_state(),
        }
    }
}

// A voice of an image: of one channel of its table, or of the blend of its channels.
pub fn make(kind: Kind, image: &[u8], sample_rate: f32, centres: &[f32]) -> Result<Voice, MakeError>
    ensures { made_of result ≡ make_of (making kind image.now sample_rate centres.now) }
{
    let read = views_of(image)?;
    let count = read.counts.entries;
    if MAX_ENTRIES < count {
        return Err(MakeError::TooLarge);
    }
    let views = &read.views[..count];
    let entries = Entries { image, views };
    entries.question(kind, sample_rate, centres)?;
    Ok(entries.fresh(kind, sample_rate, centres))
}
