// Two tables made one: the first one's name, and the entries of both in pitch order.
ghost use Rattle.std.specs.Prelude.{◌≡◌, ◌+◌, ◌*◌, ◌≤◌, length};
ghost use Rattle.table.specs.Decode.{decode};
ghost use Rattle.merging.specs.Merge.{merging, MergeLeaves};
ghost use Rattle.merging.specs.Answer.{merging_outcome};
ghost use Rattle.merging.specs.inner.Accepted.{read_as};
ghost use Rattle.merging.specs.inner.Image.{stable_over, ResultFits};

use crate::accepted::{Accepted, Tables};
use crate::head::put_head;
use crate::keys::{Key, ordered_keys};
use crate::spans::joined_agree;
use crate::write::put_all;
use table::error::CoeffTableCodecError;
use table::rewrite::Written;

// Why nothing was written.
#[derive(Clone, Copy, Debug, PartialEq, Eq)]
pub enum MergeError {
    First(CoeffTableCodecError),
    Second(CoeffTableCodecError),
    InconsistentSpans, // 21: the noise-band spans of the two tables do not agree
    TooLong, // 22: the result would have more than 65,536 bytes
    TargetTooShort, // 23
}

// Writes the result, which fits and has at most N entries: so many keys are cleared first, and M, half as many, to put them in order by.
// (The library allocates nothing.)
fn put_within<const N: usize, const M: usize>(tables: Tables, target: &mut [u8])
    requires { (ResultFits (read_as tables.first) (read_as tables.second) (length target.old))
        × (tables.first.extent.count + tables.second.extent.count ≤ N) × (N ≤ 2340) × (N ≤ 2 * M) × (M ≤ 1170) }
    ensures { target.new
        ≡ stable_over (read_as tables.entry.first) (read_as tables.entry.second) target.old }
{
    let mut room = [Key::default(); N];
    let mut work = [Key::default(); M];
    let keys = &mut room[..];
    let n = tables.first.extent.count;
    let k = tables.entries();
    ordered_keys(tables.first, &mut keys[..n], &mut work);
    ordered_keys(tables.second, &mut keys[n..k], &mut work);
    put_head(tables.first, k as u32, target);
    // (Shared as a whole first: two parts of a slice that may be written on are not lent at once.)
    let keys = &keys[..];
    put_all(tables, &keys[..n], &keys[n..k], target);
}

// Writes the result, which fits. Few entries, as two voices' tables have, are put in order in an array that is cleared in no time. An entry
// takes 28 bytes at least and a head 14, so no more than 2,340 entries fit.
fn put_merged(tables: Tables, target: &mut [u8])
    requires { ResultFits (read_as tables.first) (read_as tables.second) (length target.old) }
    ensures { target.new
        ≡ stable_over (read_as tables.entry.first) (read_as tables.entry.second) target.old }
{
    let entries = tables.entries();
    if entries <= 64 {
        put_within::<64, 32>(tables, target);
    } else {
        put_within::<2340, 1170>(tables, target);
    }
}

// Questions 21 to 23 of two accepted images, and the writing. How long the result is is known before anything is written.
fn merge_accepted(tables: Tables, target: &mut [u8]) -> Result<Written, MergeError>
    ensures answered { merging_outcome result
        ≡ merging (read_as tables.entry.first) (read_as tables.entry.second) (length target.old) }
    ensures left { MergeLeaves (read_as tables.entry.first) (read_as tables.entry.second)
        target.old target.new }
{
    if !joined_agree(tables) {
        return Err(MergeError::InconsistentSpans);
    }
    let bytes = tables.bytes();
    if 65536 < bytes {
        return Err(MergeError::TooLong);
    }
    if target.len() < bytes {
        return Err(MergeError::TargetTooShort);
    }
    put_merged(tables, target);
    Ok(Written {
        entries: tables.entries(),
        bytes,
    })
}

// Writes the two images' tables as one into the target: version 1, the first one's name, and every entry of both exactly one time,
// ascending by pitch as `total_cmp` orders floats. The bytes of the target beyond it stay; a refusal writes nothing.
pub fn merge(first: &[u8], second: &[u8], target: &mut [u8]) -> Result<Written, MergeError>
    ensures answered { merging_outcome result
        ≡ merging (decode first.now) (decode second.now) (length target.old) }
    ensures left { MergeLeaves (decode first.now) (decode second.now)
        target.old target.new }
{
    let first = Accepted::read(first).map_err(MergeError::First)?;
    let second = Accepted::read(second).map_err(MergeError::Second)?;
    merge_accepted(Tables { first, second }, target)
}
