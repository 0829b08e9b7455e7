// The entries of a table that was read: a view of each, and the image that they stand in.
ghost use Rattle.std.specs.Prelude.{◌≡◌, ◌≤◌, length};
ghost use Rattle.table.specs.View.{entry_at};
ghost use Rattle.making.specs.inner.Entry.{entry_in};
ghost use Rattle.voice.specs.Limits.{max_entries};

use crate::entry::Entry;
use table::entry::EntryView;

// At most 16.
#[derive(Clone, Copy)]
pub struct Entries<'a> {
    pub image: &'a [u8],
    pub views: &'a [EntryView],
    ghost few: { length views.now ≤ max_entries },
}

impl<'a> Entries<'a> {
    // The entry of one of the views.
    pub fn entry(&self, view: EntryView) -> Entry<'a>
        ensures { entry_in result ≡ entry_at self.now.image.now view }
    {
        Entry {
            image: self.image,
            view,
        }
    }
}
