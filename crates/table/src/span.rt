// Question 7: the noise-band span of each entry, and whether all agree with the first's.
ghost use Rattle.std.specs.Prelude.{◌≡◌, true, ◌&&◌, [], ◌∷◌};
ghost use Rattle.table.specs.Span.{span_from, span_of, float_eq, consistent, agrees};
ghost use Rattle.table.specs.inner.Baseline.{judged, verdict_from, concluded};
ghost use Rattle.table.specs.View.{entry_at};
ghost use Rattle.table.specs.Image.{pairs};
ghost use Rattle.table.specs.Answer.{found_bits, reading_parsed};
ghost use Rattle.table.specs.inner.Answers.{reads};

use crate::entry::EntryView;
use crate::error::CoeffTableCodecError;
use crate::metadata::find;
use crate::read::Counts;
use std::num::f32_from_bits_with_nan;

// The two keys of the span in one entry, with the values' bits. A lone key is a third kind beside a pair and none, so this is no Option.
#[derive(Clone, Copy)]
pub enum Span {
    Neither,
    Both(u32, u32),
    Lone,
}

// What the entries so far agree on, or the first that broke it (first_entry and index). It is kept and not answered at once, so this is no
// Result: a later entry that does not read is said first (questions 2 to 6, then 7).
#[derive(Clone, Copy)]
pub enum Baseline {
    Start,
    Neither,
    Both(u32, u32),
    Broken(usize, usize),
}

fn span_from(low: Option<u32>, high: Option<u32>) -> Span
    ensures { result ≡ span_from (found_bits low) (found_bits high) }
{
    match (low, high) {
        (Some(a), Some(b)) => Span::Both(a, b),
        (None, None) => Span::Neither,
        _ => Span::Lone,
    }
}

// The span that an entry's metadata gives. `known` says that its pairs were read before.
pub fn span_of(s: &[u8], v: EntryView, known: bool) -> Span
    requires { known ≡ true → reads (pairs v.pairs s.now v.pairs_at) ≡ true }
    ensures { result ≡ span_of (entry_at s.now v) }
{
    let low = find(s, v, b"noise_band_min_hz", known);
    let high = find(s, v, b"noise_band_max_hz", known);
    span_from(low, high)
}

// Whether two bit patterns are equal as floats.
#[tactic(auto, unfolding(crate::specs::Span::float_eq))]
fn float_eq(a: u32, b: u32) -> bool
    ensures { result ≡ float_eq a b }
{
    f32_from_bits_with_nan(a) == f32_from_bits_with_nan(b)
}

fn both_eq(x: u32, y: u32, a: u32, b: u32) -> bool
    ensures { result ≡ float_eq x a && float_eq y b }
{
    float_eq(x, a) && float_eq(y, b)
}

// The entry with index i, whose span is sp, beside what went before it.
#[tactic(auto, unfolding(crate::specs::inner::Baseline::judged))]
pub fn judge(j: Baseline, i: usize, sp: Span) -> Baseline
    ensures { result ≡ judged j i sp }
{
    match (j, sp) {
        (Baseline::Broken(f, b), _) => Baseline::Broken(f, b),
        (_, Span::Lone) => Baseline::Broken(i, i),
        (Baseline::Start, Span::Neither) => Baseline::Neither,
        (Baseline::Start, Span::Both(a, b)) => Baseline::Both(a, b),
        (Baseline::Neither, Span::Neither) => Baseline::Neither,
        (Baseline::Both(x, y), Span::Both(a, b)) if both_eq(x, y, a, b) => Baseline::Both(x, y),
        _ => Baseline::Broken(0, i),
    }
}

// The answer to a reading of n entries that end at a position, from what the pass over them holds.
#[tactic(auto, using(crate::proofs::SpanLaws::unbroken), unfolding(crate::specs::inner::Baseline::verdict_from))]
pub fn conclude(j: Baseline, n: usize, end: usize) -> Result<Counts, CoeffTableCodecError>
    ensures { reading_parsed result ≡ concluded (verdict_from j n []) n end }
{
    match j {
        Baseline::Broken(f, i) => Err(CoeffTableCodecError::InconsistentNoiseBandSpan(f, i)),
        _ => Ok(Counts { entries: n, end }),
    }
}

// Whether two entries by themselves, each where it stands in its own image, answer question 7 with yes.
pub fn spans_agree(s: &[u8], v: EntryView, t: &[u8], w: EntryView) -> bool
    ensures { result ≡ agrees (consistent (entry_at s.now v ∷ entry_at t.now w ∷ [])) }
{
    let j = judge(Baseline::Start, 0, span_of(s, v, false));
    conclude(judge(j, 1, span_of(t, w, false)), 2, 0).is_ok()
}
