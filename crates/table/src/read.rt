// Reading an image: questions 1 to 7.
ghost use Rattle.std.specs.Prelude.{◌≡◌};
ghost use Rattle.table.specs.Decode.{decode, name_of};
ghost use Rattle.table.specs.Name.{StartsAt, name_start};
ghost use Rattle.table.specs.Answer.{reading_parsed, counts};

use crate::accepted::table_header;
use crate::bytes::part_of;
use crate::entries::entries_at;
use crate::error::CoeffTableCodecError;
use crate::header::head_at;

// How many entries a table has, and where the last one ends in its image.
#[derive(Clone, Copy)]
pub struct Counts {
    pub entries: usize,
    pub end: usize,
}

// Reads a whole image.
pub fn from_bytes(image: &[u8]) -> Result<Counts, CoeffTableCodecError>
    ensures { reading_parsed result ≡ counts (decode image.now) }
{
    let h = head_at(image)?;
    entries_at(image, h.entries, &mut [])
}

// Where the table's name starts in the image; 0 where the image is refused.
pub fn name_at(image: &[u8]) -> usize
    ensures { result ≡ name_start (decode image.now) }
{
    match table_header(image) {
        Ok(h) => h.name.start,
        Err(_) => 0,
    }
}

// The table's name, as the part of the image that holds it; the empty part at its start where the image is refused.
pub fn name(image: &[u8]) -> &[u8]
    ensures bytes { result.now ≡ name_of (decode image.now) }
    ensures placed { StartsAt image.entry (name_start (decode image.now)) result }
{
    match table_header(image) {
        Ok(h) => part_of(image, h.name.start, h.name.len),
        Err(_) => &image[..0],
    }
}
