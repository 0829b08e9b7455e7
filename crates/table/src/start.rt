// Where the entries of an image start, for walking them one after the other.
ghost use Rattle.std.specs.Prelude.{◌≡◌};
ghost use Rattle.table.specs.Decode.{decode};
ghost use Rattle.table.specs.Start.{start_of};

use crate::accepted::table_header;

// The entry count and the first entry's position; 0 and 0 where the image is refused.
#[derive(Clone, Copy)]
pub struct Start {
    pub count: usize,
    pub at: usize,
}

pub fn entries_start(image: &[u8]) -> Start
    ensures { result ≡ start_of (decode image.now) }
{
    match table_header(image) {
        Ok(h) => h.entries,
        Err(_) => Start { count: 0, at: 0 },
    }
}
