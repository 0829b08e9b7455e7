// Two tables made one.
ghost use Rattle.std.specs.Prelude.{◌≡◌, ◌≤◌, length};
ghost use Rattle.table.specs.Decode.{decode};
ghost use Rattle.merging.specs.Merge.{merging, MergeLeaves};
ghost use Rattle.sounder.specs.Merges.{merge_answer};

use sounder::{MergeAnswer, merges};

// Writes the two images' tables as one into the target.
#[unsafe(no_mangle)]
pub extern "C" fn sounder_merge(first: &[u8], second: &[u8], target: &mut [u8]) -> MergeAnswer
    ensures answered { result
        ≡ merge_answer (merging (decode first.now) (decode second.now) (length target.old)) }
    ensures left { MergeLeaves (decode first.now) (decode second.now)
        target.old target.new }
    ensures fits { result.answer.number ≡ 0 → result.answer.second ≤ length target.new }
{
    merges::sounder_merge(first, second, target)
}
