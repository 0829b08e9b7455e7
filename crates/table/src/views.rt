// Reading an image and keeping its first 16 entries' views: read once, then looked into.
ghost use Rattle.std.specs.Prelude.{◌≡◌};
ghost use Rattle.table.specs.Views.{no_view, ViewsRead};

use crate::entries::entries_at;
use crate::entry::EntryView;
use crate::error::CoeffTableCodecError;
use crate::header::head_at;
use crate::limits::MAX_VIEWS;
use crate::read::Counts;

// What `from_bytes` answers to an accepted image, and a view of each of its first 16 entries; past the last, of nothing. (An array, since
// nothing is allocated; `counts` says how many entries there are, which may be more.)
#[derive(Clone, Copy)]
pub struct Views {
    pub counts: Counts,
    pub views: [EntryView; MAX_VIEWS],
}

// A view of nothing.
pub fn no_view() -> EntryView
    ensures { result ≡ no_view }
{
    EntryView::default()
}

// Reads a whole image, with questions 1 to 7 as `from_bytes` asks them.
pub fn views_of(image: &[u8]) -> Result<Views, CoeffTableCodecError>
    ensures { ViewsRead image.now result }
{
    let h = head_at(image)?;
    let mut views = [no_view(); MAX_VIEWS];
    let counts = entries_at(image, h.entries, &mut views)?;
    Ok(Views { counts, views })
}
