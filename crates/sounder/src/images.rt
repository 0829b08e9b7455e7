// Reading and rewriting images.
ghost use Rattle.std.specs.Prelude.{◌≡◌, length};
ghost use Rattle.wire.specs.Cursor.{part};
ghost use Rattle.table.specs.Decode.{decode, name_of};
ghost use Rattle.table.specs.Answer.{counts};
ghost use Rattle.table.specs.Rewrite.{rewrite_refusal, rewriting, rewritten};
ghost use Rattle.table.specs.Desk.{desk_outcome};
ghost use Rattle.sounder.specs.Answer.{refusal_answer, counts_answer, name_place, kind_of, desk_numbers};

use crate::answer::{Answer, done, refusal};
use crate::kind::kind_of;
use table::desk::for_voice;
use table::read::{from_bytes, name, name_at};
use table::rewrite::{RewriteError, to_bytes};

// A part of the caller's image.
#[repr(C)]
#[derive(Clone, Copy)]
pub struct Place {
    pub start: usize,
    pub len: usize,
}

// What the desk gets: a voice's band count, and the span's ends as the bits of floats. All 0 of a refused image.
#[repr(C)]
#[derive(Clone, Copy)]
pub struct DeskAnswer {
    pub answer: Answer,
    pub bands: u32,
    pub min_hz: u32,
    pub max_hz: u32,
}

// Why nothing was written, as numbers.
impl From<RewriteError> for Answer {
    ghost from_gives = { λ e a. a ≡ refusal_answer (rewrite_refusal e) };

    fn from(e: RewriteError) -> Answer {
        match e {
            RewriteError::Refused(e) => Answer::from(e),
            RewriteError::TargetTooShort => refusal(17, 0),
        }
    }
}

// Reads an image: its entry count and the end of the last entry.
#[unsafe(no_mangle)]
pub extern "C" fn sounder_from_bytes(image: &[u8]) -> Answer
    ensures { result ≡ counts_answer (counts (decode image.now)) }
{
    match from_bytes(image) {
        Ok(read) => done(read.entries, read.end),
        Err(e) => Answer::from(e),
    }
}

// Rewrites an image into the target: its entry count and the bytes written.
#[unsafe(no_mangle)]
pub extern "C" fn sounder_to_bytes(image: &[u8], target: &mut [u8]) -> Answer
    ensures answered { result ≡ counts_answer (rewriting (decode image.now) (length target.old)) }
    ensures written { target.new ≡ rewritten (decode image.now) target.old }
{
    match to_bytes(image, target) {
        Ok(written) => done(written.entries, written.bytes),
        Err(e) => Answer::from(e),
    }
}

// What the desk gets of an image for a voice of a kind.
#[unsafe(no_mangle)]
pub extern "C" fn sounder_desk(kind: u32, channel: u32, image: &[u8]) -> DeskAnswer
    ensures { result ≡ desk_numbers (desk_outcome (kind_of kind channel) (decode image.now)) }
{
    match for_voice(image, kind_of(kind, channel)) {
        Ok(desk) => DeskAnswer {
            answer: done(0, 0),
            bands: desk.bands,
            min_hz: desk.min_hz,
            max_hz: desk.max_hz,
        },
        Err(e) => DeskAnswer {
            answer: Answer::from(e),
            bands: 0,
            min_hz: 0,
            max_hz: 0,
        },
    }
}

// Where the table's name stands in the image; an empty part of a refused image.
#[unsafe(no_mangle)]
pub extern "C" fn sounder_name(image: &[u8]) -> Place
    ensures holds { part image.now result.start result.len ≡ name_of (decode image.now) }
    ensures placed { result ≡ name_place (decode image.now) }
{
    let start = name_at(image);
    let part = name(image);
    Place {
        start,
        len: part.len(),
    }
}
