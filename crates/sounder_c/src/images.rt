// Reading and rewriting images.
ghost use Rattle.std.specs.Prelude.{◌≡◌, length};
ghost use Rattle.wire.specs.Cursor.{part};
ghost use Rattle.table.specs.Decode.{decode, name_of};
ghost use Rattle.table.specs.Answer.{counts};
ghost use Rattle.table.specs.Rewrite.{rewriting, rewritten};
ghost use Rattle.table.specs.Desk.{desk_outcome};
ghost use Rattle.sounder.specs.Answer.{counts_answer, name_place, kind_of, desk_numbers};

use sounder::{Answer, DeskAnswer, Place, images};

// Reads an image: its entry count and the end of the last entry.
#[unsafe(no_mangle)]
pub extern "C" fn sounder_from_bytes(image: &[u8]) -> Answer
    ensures { result ≡ counts_answer (counts (decode image.now)) }
{
    images::sounder_from_bytes(image)
}

// Rewrites an image into the target: its entry count and the bytes written.
#[unsafe(no_mangle)]
pub extern "C" fn sounder_to_bytes(image: &[u8], target: &mut [u8]) -> Answer
    ensures answered { result ≡ counts_answer (rewriting (decode image.now) (length target.old)) }
    ensures written { target.new ≡ rewritten (decode image.now) target.old }
{
    images::sounder_to_bytes(image, target)
}

// What the desk gets of an image for a voice of a kind.
#[unsafe(no_mangle)]
pub extern "C" fn sounder_desk(kind: u32, channel: u32, image: &[u8]) -> DeskAnswer
    ensures { result ≡ desk_numbers (desk_outcome (kind_of kind channel) (decode image.now)) }
{
    images::sounder_desk(kind, channel, image)
}

// Where the table's name stands in the image; an empty part of a refused image.
#[unsafe(no_mangle)]
pub extern "C" fn sounder_name(image: &[u8]) -> Place
    ensures holds { part image.now result.start result.len ≡ name_of (decode image.now) }
    ensures placed { result ≡ name_place (decode image.now) }
{
    images::sounder_name(image)
}
