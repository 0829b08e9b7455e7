// An entry of a table where it stands in the image.
ghost use Rattle.std.specs.Prelude.{◌≡◌, ℕ, ◌*◌, List, get_or, eqb};
ghost use Rattle.table.specs.Table.{has_channel, coefficient_at, metadata_value};
ghost use Rattle.table.specs.Image.{counted, entry};
ghost use Rattle.table.specs.View.{entry_at, PlacedRead};
ghost use Rattle.table.specs.Answer.{found_bits, entry_parsed};
ghost use Rattle.table.specs.inner.Answers.{counted_parsed, CountPlaced};
ghost use Rattle.table.specs.inner.Entry.{numbers, metadata, numbers_parsed, NumbersPlaced, pairs_parsed, PairsPlaced};

use crate::bytes::word_or;
use crate::error::CoeffTableCodecError;
use crate::metadata::{find, skip_pairs};
use wire::cursor::{Cursor, Read, WireError};

// An entry: its numbers (floats as bits), where its parts stand in the image, and where it ends.
#[repr(C)]
#[derive(Clone, Copy, Default)]
pub struct EntryView {
    pub f0_hz: u32,
    pub stretch: u32,
    pub m_partials: u32,
    pub k_channels: u32,
    pub j_noise: u32,
    pub coefficients: u32,
    pub pairs: u32,
    pub partials_at: usize,
    pub coefficients_at: usize,
    pub pairs_at: usize,
    pub end: usize,
}

// A count, and where what it counts starts.
#[derive(Clone, Copy)]
pub struct Counted {
    pub count: u32,
    pub at: usize,
}

// A count and as many 32-bit numbers: whether they are there takes one test, however large the count is.
fn counted_at(s: &[u8], c: Cursor) -> Result<Read<Counted>, WireError>
    ensures means { counted_parsed s.now result ≡ counted s.now c.at }
    ensures placed { CountPlaced c.at result }
{
    let count = c.u32(s)?;
    let words = count.next.take(s, 4 * (count.value as usize))?;
    Ok(Read {
        value: Counted {
            count: count.value,
            at: words.value,
        },
        next: words.next,
    })
}

// Two numbers, and the words after them.
#[derive(Clone, Copy)]
pub struct NumbersView {
    pub first: u32,
    pub second: u32,
    pub words: Counted,
}

// Two numbers, then a count and as many numbers: an entry starts with this twice.
#[tactic(auto, unfolding(crate::specs::inner::Entry::numbers))]
fn numbers_at(s: &[u8], c: Cursor) -> Result<Read<NumbersView>, WireError>
    ensures means { numbers_parsed s.now result ≡ numbers s.now c.at }
    ensures placed { NumbersPlaced c.at result }
{
    let first = c.u32(s)?;
    let second = first.next.u32(s)?;
    let words = counted_at(s, second.next)?;
    Ok(Read {
        value: NumbersView {
            first: first.value,
            second: second.value,
            words: words.value,
        },
        next: words.next,
    })
}

// A count and as many pairs.
fn pairs_at(s: &[u8], c: Cursor) -> Result<Read<Counted>, CoeffTableCodecError>
    ensures means { pairs_parsed s.now result ≡ metadata s.now c.at }
    ensures placed { PairsPlaced s.now c.at result }
{
    let count = c.u32(s)?;
    let next = skip_pairs(s, count.next, count.value)?;
    Ok(Read {
        value: Counted {
            count: count.value,
            at: count.next.at,
        },
        next,
    })
}

// Whether k rows of w columns are n coefficients, in whole numbers.
fn is_well_formed(k: u32, w: u64, n: u32) -> bool
    ensures { result ≡ eqb (k * w) n }
{
    u64::from(k).checked_mul(w) == Some(u64::from(n))
}

// The entry with an index, at a cursor.
pub fn entry_at(s: &[u8], c: Cursor, index: usize) -> Result<EntryView, CoeffTableCodecError>
    ensures means { entry_parsed s.now result ≡ entry index s.now c.at }
    ensures placed { PlacedRead s.now c.at result }
{
    let pitch = numbers_at(s, c)?;
    let rows = numbers_at(s, pitch.next)?;
    let pairs = pairs_at(s, rows.next)?;
    let partials = pitch.value.words;
    let k = rows.value.first;
    let j = rows.value.second;
    let coefficients = rows.value.words;
    if !is_well_formed(
        k,
        u64::from(partials.count) + u64::from(j),
        coefficients.count,
    ) {
        return Err(CoeffTableCodecError::MalformedEntry(index));
    }
    Ok(EntryView {
        f0_hz: pitch.value.first,
        stretch: pitch.value.second,
        m_partials: partials.count,
        k_channels: k,
        j_noise: j,
        coefficients: coefficients.count,
        pairs: pairs.value.count,
        partials_at: partials.at,
        coefficients_at: coefficients.at,
        pairs_at: pairs.value.at,
        end: pairs.next.at,
    })
}

// Whether the entry has the channel, whatever image the view is of.
pub fn has_channel(v: EntryView, channel: u32) -> bool
    ensures { (s : List ℕ) → result ≡ has_channel (entry_at s v) channel }
{
    channel < v.k_channels
}

// The bits of the coefficient with an index, row after row; 0 past the last.
pub fn nth_coefficient(s: &[u8], v: EntryView, i: usize) -> u32
    ensures { result ≡ get_or (entry_at s.now v).coefficients i 0 }
{
    let at = v.coefficients_at;
    if (v.coefficients as usize) <= i || s.len() <= at {
        return 0;
    }
    word_or(s, at + 4 * i)
}

// The bits of the coefficient of a channel at a column of its row; 0 where the entry has no such channel or column.
// An index that does not fit its type is past the last coefficient, and so is the largest that does.
pub fn coefficient(s: &[u8], v: EntryView, channel: u32, column: u32) -> u32
    ensures { result ≡ coefficient_at (entry_at s.now v) channel column }
{
    let width = (v.m_partials as usize) + (v.j_noise as usize);
    if !has_channel(v, channel) || width <= column as usize {
        return 0;
    }
    let row = (channel as usize).saturating_mul(width);
    nth_coefficient(s, v, row.saturating_add(column as usize))
}

// The value of a key in the entry's metadata, as bits.
pub fn metadata_value(s: &[u8], v: EntryView, key: &[u8]) -> Option<u32>
    ensures { found_bits result ≡ metadata_value key.now (entry_at s.now v).metadata }
{
    find(s, v, key, false)
}
