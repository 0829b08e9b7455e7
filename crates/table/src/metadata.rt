// The metadata of an entry: pairs of a string and a float's bits, in the image's order. (An image and a view of it, or a cursor over it, go
// side by side here and in the crate's public functions: a struct of the two would be put together for one question and taken apart in
// it. Making, which asks an entry many, has one: `Entry`.)
ghost use Rattle.std.specs.Prelude.{◌≡◌, true};
ghost use Rattle.wire.specs.Parse.{many};
ghost use Rattle.table.specs.Table.{metadata_value};
ghost use Rattle.table.specs.Image.{pair, pairs};
ghost use Rattle.table.specs.View.{entry_at};
ghost use Rattle.table.specs.Answer.{found_bits};
ghost use Rattle.table.specs.inner.Answers.{reads, pair_parsed, skipped_parsed, skips};

use crate::bytes::part_of;
use crate::entry::EntryView;
use crate::error::CoeffTableCodecError;
use wire::cursor::{Cursor, Place, Read};

// A pair: where its key stands, and the value's bits.
#[derive(Clone, Copy)]
pub struct PairView {
    pub key: Place,
    pub value: u32,
}

#[tactic(auto, unfolding(crate::specs::Image::pair))]
pub fn pair_at(s: &[u8], c: Cursor) -> Result<Read<PairView>, CoeffTableCodecError>
    ensures { pair_parsed s.now result ≡ pair s.now c.at }
{
    let key = c.string(s)?;
    let value = key.next.u32(s)?;
    Ok(Read {
        value: PairView {
            key: key.value,
            value: value.value,
        },
        next: value.next,
    })
}

// The pair at a cursor, where one was read before: its key is known to be UTF-8, and is not looked into.
fn pair_again(s: &[u8], c: Cursor) -> Result<Read<PairView>, CoeffTableCodecError>
    requires { reads (pair s.now c.at) ≡ true }
    ensures { pair_parsed s.now result ≡ pair s.now c.at }
{
    let length = c.u32(s)?;
    let key = Place {
        start: length.next.at,
        len: length.value as usize,
    };
    let past = Cursor {
        at: key.start + key.len,
    };
    let value = past.u32(s)?;
    Ok(Read {
        value: PairView {
            key,
            value: value.value,
        },
        next: value.next,
    })
}

// Either of the two, which promise the one thing that a pair is; `known` says that one was read there before. It stays a bool: a closure
// in its place would need two clauses on itself at each of its three callers.
fn pair_by(s: &[u8], c: Cursor, known: bool) -> Result<Read<PairView>, CoeffTableCodecError>
    requires { known ≡ true → reads (pair s.now c.at) ≡ true }
    ensures { pair_parsed s.now result ≡ pair s.now c.at }
{
    if known {
        pair_again(s, c)
    } else {
        pair_at(s, c)
    }
}

// Past n pairs. The loop ends at the first pair that is not there, however large n is. (`i` has a name for the proof, which counts by it.)
pub fn skip_pairs(s: &[u8], c: Cursor, n: u32) -> Result<Cursor, CoeffTableCodecError>
    ensures { skipped_parsed result ≡ skips (pairs n s.now c.at) }
{
    let mut d = c;
    for i in 0..n {
        let pair = pair_at(s, d)?;
        d = pair.next;
    }
    Ok(d)
}

// The value of a key among an entry's pairs, as bits: of equal keys the first counts. `known` says that they were read before.
pub fn find(s: &[u8], v: EntryView, key: &[u8], known: bool) -> Option<u32>
    requires { known ≡ true → reads (pairs v.pairs s.now v.pairs_at) ≡ true }
    ensures { found_bits result ≡ metadata_value key.now (entry_at s.now v).metadata }
{
    let mut d = Cursor { at: v.pairs_at };
    for i in 0..v.pairs {
        let Ok(pair) = pair_by(s, d, known) else {
            return None;
        };
        let at = pair.value.key;
        if part_of(s, at.start, at.len) == key {
            return Some(pair.value.value);
        }
        d = pair.next;
    }
    None
}
