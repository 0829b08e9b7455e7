// The entry with an index.
ghost use Rattle.std.specs.Prelude.{◌≡◌};
ghost use Rattle.table.specs.Decode.{decode};
ghost use Rattle.table.specs.inner.Entry.{entry_list};
ghost use Rattle.table.specs.Lookup.{view_from, view_of_index, found_view};

use crate::accepted::table_header;
use crate::entry::{EntryView, entry_at};
use crate::start::Start;
use wire::cursor::Cursor;

// The entry with an index among those from a start on.
fn entry_among(s: &[u8], start: Start, index: usize) -> Option<EntryView>
    ensures { found_view result ≡ view_from start.at (entry_list start.count s.now start.at) index }
{
    let mut d = Cursor { at: start.at };
    for i in 0..start.count {
        let Ok(v) = entry_at(s, d, i) else {
            return None;
        };
        if i == index {
            return Some(v);
        }
        d = Cursor { at: v.end };
    }
    None
}

// The entry with an index in an image's table; nothing where the image is refused or has no such entry.
// A call reads the whole image, then its entries again up to the one asked for: it costs about as much as `from_bytes`, at most twice that.
pub fn entry(image: &[u8], index: usize) -> Option<EntryView>
    ensures { found_view result ≡ view_of_index (decode image.now) index }
{
    match table_header(image) {
        Ok(h) => entry_among(image, h.entries, index),
        Err(_) => None,
    }
}
