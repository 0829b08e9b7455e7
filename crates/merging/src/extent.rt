// Where the entries of an accepted image stand.
ghost use Rattle.std.specs.Prelude.{◌≡◌, ◌+◌, length};
ghost use Rattle.wire.specs.Parse.{ok};
ghost use Rattle.table.specs.Answer.{counts};
ghost use Rattle.table.specs.Decode.{decode, name_of};
ghost use Rattle.merging.specs.inner.Extent.{AcceptedAt};

use crate::skip::number_at;
use table::read::Counts;

// Where the first entry starts, how many there are, and where the last one ends.
#[derive(Clone, Copy)]
pub struct Extent {
    pub at: usize,
    pub count: usize,
    pub end: usize,
}

// The entries start past the mark (4 bytes), the version (2), the name with its length (4) and the count (4). The image was read: its
// length of the name is looked at again, and nothing else.
pub fn extent_of(image: &[u8], read: Counts) -> Extent
    requires { counts (decode image.now) ≡ ok read.entries read.end }
    ensures { AcceptedAt image.now result }
{
    let n = number_at(image, 6);
    Extent {
        at: 14 + (n as usize),
        count: read.entries,
        end: read.end,
    }
}
