// The entries of an image, read one after the other. (Three loops of the crate go on by `d`, where the last entry ended: an iterator would
// hold it, but this one needs each index and the end of the last entry too, and would keep both beside it. `bands_among` and `entry_among`
// end at an entry that is not there, which an iterator would answer as an error of each item.)
ghost use Rattle.std.specs.Prelude.{◌≡◌};
ghost use Rattle.table.specs.declared.span.Baseline.{Baseline};
ghost use Rattle.table.specs.Image.{entries};
ghost use Rattle.table.specs.Answer.{reading_parsed};
ghost use Rattle.table.specs.inner.Baseline.{answer_from};
ghost use Rattle.table.specs.inner.Entry.{entry_list};
ghost use Rattle.table.specs.inner.Views.{put_views};

use crate::entry::{EntryView, entry_at};
use crate::error::CoeffTableCodecError;
use crate::read::Counts;
use crate::span::{Baseline, conclude, judge, span_of};
use crate::start::Start;
use wire::cursor::Cursor;

// The entries from a start on, and question 7 of all; the views of the first N are kept. The loop ends at the first entry that is not
// there, however many are said to be. (N is known to the compiler: over a slice of views a reading that keeps none took 42 us for 2,339
// entries, and so 34.)
pub fn entries_at<const N: usize>(
    s: &[u8],
    start: Start,
    views: &mut [EntryView; N],
) -> Result<Counts, CoeffTableCodecError>
    ensures reading { reading_parsed result ≡ answer_from Baseline.Start 0 (entries start.count s.now start.at) }
    ensures kept { views.new ≡ put_views views.old 0 start.at (entry_list start.count s.now start.at) }
{
    let mut d = Cursor { at: start.at };
    let mut j = Baseline::Start;
    for i in 0..start.count {
        let v = entry_at(s, d, i)?;
        j = judge(j, i, span_of(s, v, true));
        d = Cursor { at: v.end };
        if i < N {
            views[i] = v;
        }
    }
    conclude(j, start.count, d.at)
}
