// An entry of a table where it stands in an image: a view of it, and the image.
use table::entry::EntryView;

#[derive(Clone, Copy)]
pub struct Entry<'a> {
    pub image: &'a [u8],
    pub view: EntryView,
}
