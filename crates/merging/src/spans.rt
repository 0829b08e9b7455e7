// Question 7 of two accepted tables joined: since each agrees by itself, it is that of their first entries.
ghost use Rattle.std.specs.Prelude.{◌≡◌, ◌++◌};
ghost use Rattle.table.specs.Decode.{entries_of};
ghost use Rattle.table.specs.Span.{consistent, agrees};
ghost use Rattle.merging.specs.inner.Accepted.{read_as};

use crate::accepted::Tables;
use table::entry::entry_at;
use table::spans_agree;
use wire::cursor::Cursor;

// Whether the entries of two accepted images agree together.
pub fn joined_agree(tables: Tables) -> bool
    ensures { result
        ≡ agrees (consistent (entries_of (read_as tables.entry.first) ++ entries_of (read_as tables.entry.second))) }
{
    let Tables { first, second } = tables;
    let x = first.extent;
    let y = second.extent;
    if x.count == 0 || y.count == 0 {
        return true;
    }
    let v = entry_at(first.image, Cursor { at: x.at }, 0).unwrap();
    let w = entry_at(second.image, Cursor { at: y.at }, 0).unwrap();
    spans_agree(first.image, v, second.image, w)
}
