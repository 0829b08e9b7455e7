// What the desk is told of an image: a voice's band count and the noise-band span, to work out the band centres from.
ghost use Rattle.std.specs.Prelude.{◌≡◌, ℕ, List};
ghost use Rattle.table.specs.Decode.{decode};
ghost use Rattle.table.specs.View.{entry_at};
ghost use Rattle.table.specs.inner.Entry.{entry_list};
ghost use Rattle.table.specs.Answer.{found_bits};
ghost use Rattle.table.specs.Desk.{bands_of, band_count, value_or, first_value, desk_of, desk_outcome, desk_answer};

use crate::accepted::table_header;
use crate::entry::{EntryView, entry_at, has_channel, metadata_value};
use crate::error::CoeffTableCodecError;
use crate::start::Start;
use wire::cursor::Cursor;

// A voice's kind: one channel of the table, or the blend of its channels.
#[derive(Clone, Copy)]
pub enum Kind {
    Single(u32),
    Blend,
}

// A voice's band count, and the span's ends as the bits of floats.
#[repr(C)]
#[derive(Clone, Copy)]
pub struct Desk {
    pub bands: u32,
    pub min_hz: u32,
    pub max_hz: u32,
}

// The bands that an entry gives a voice.
pub fn bands_of(kind: Kind, v: EntryView) -> u32
    ensures { (s : List ℕ) → result ≡ bands_of kind (entry_at s v) }
{
    match kind {
        Kind::Single(channel) => {
            if has_channel(v, channel) {
                v.j_noise
            } else {
                0
            }
        }
        Kind::Blend => v.j_noise,
    }
}

// The largest band count among the entries from a start on.
fn bands_among(s: &[u8], start: Start, kind: Kind) -> u32
    ensures { result ≡ band_count kind (entry_list start.count s.now start.at) }
{
    let mut d = Cursor { at: start.at };
    let mut best: u32 = 0;
    for i in 0..start.count {
        let Ok(v) = entry_at(s, d, i) else {
            return best;
        };
        best = best.max(bands_of(kind, v));
        d = Cursor { at: v.end };
    }
    best
}

// A key's value in the first of the entries from a start on, or another number.
fn first_value(s: &[u8], start: Start, key: &[u8], other: u32) -> u32
    ensures { result ≡ first_value key.now other (entry_list start.count s.now start.at) }
{
    if start.count == 0 {
        return other;
    }
    match entry_at(s, Cursor { at: start.at }, 0) {
        Ok(v) => metadata_value(s, v, key).unwrap_or(other),
        Err(_) => other,
    }
}

// The desk's values of the entries from a start on.
fn desk_at(s: &[u8], start: Start, kind: Kind) -> Desk
    ensures { result ≡ desk_of kind (entry_list start.count s.now start.at) }
{
    let bands = bands_among(s, start, kind);
    let min_hz = first_value(s, start, b"noise_band_min_hz", 0x42A00000);
    let max_hz = first_value(s, start, b"noise_band_max_hz", 0x463B8000);
    Desk {
        bands,
        min_hz,
        max_hz,
    }
}

// What the desk gets of an image for a voice of a kind.
pub fn for_voice(image: &[u8], kind: Kind) -> Result<Desk, CoeffTableCodecError>
    ensures { desk_answer result ≡ desk_outcome kind (decode image.now) }
{
    let h = table_header(image)?;
    Ok(desk_at(image, h.entries, kind))
}
