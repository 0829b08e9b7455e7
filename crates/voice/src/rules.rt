// The voice rules, which question 13 asks.
ghost use Rattle.std.specs.Prelude.{◌≡◌, ℕ, ◌+◌, ◌-◌, ◌<◌, ◌≤◌, Bool, true, get_or, length};
ghost use Rattle.voice.specs.Limits.{max_entries, max_partials, max_bands};
ghost use Rattle.voice.specs.Lists.{every};
ghost use Rattle.voice.specs.Voice.{counts_ok, entries_ok, live_ok, centres_finite, phases_ok, phase_ok, pitch_ok, stretch_ok};
ghost use Rattle.voice.specs.Voice.{rules_of, keeps_rules};

use crate::limits::{MAX_BANDS, MAX_BLENDED, MAX_ENTRIES, MAX_HZ, MAX_PARTIALS};
use crate::lists::{CENTRES, LISTS_PLACES, PITCHES, STRETCHES, band_of, short_list};
use crate::voice::{Setting, Voice};
use filters::rate_ok;

fn phase_ok(p: f32) -> bool
    ensures { result ≡ phase_ok p }
{
    0.0 <= p && p < 1.0
}

pub fn pitch_ok(f: f32) -> bool
    ensures { result ≡ pitch_ok f }
{
    0.0 < f && f <= MAX_HZ
}

pub fn stretch_ok(s: f32) -> bool
    ensures { result ≡ stretch_ok s }
{
    0.0 <= s && s <= 4.0
}

// Whether each item passes the test. All are asked, whatever the first ones answer: by the library's `all` and `is_sorted`, which stop at
// the first no, the rules of a full voice took a quarter longer.
pub(crate) fn all_of<T: Copy + Drop, F: Fn(T) -> bool>(xs: &[T], test: F) -> bool
    requires { F.IsAlwaysCallable test }
    ensures { (p : T → Bool) (d : T)
        → ((i : ℕ) (r : Bool) → i < length xs.now → F.post test (get_or xs.now i d) r → r ≡ p (get_or xs.now i d))
        → result ≡ every (λ i. p (get_or xs.now i d)) (length xs.now) }
{
    let mut ok = true;
    for x in xs {
        ok &= test(*x);
    }
    ok
}

// Whether each item and the next are in order. All are asked, as by `all_of`.
fn ascend<T: Copy + Drop, F: Fn(T, T) -> bool>(xs: &[T], in_order: F) -> bool
    requires { F.IsAlwaysCallable in_order }
    ensures { (p : T → T → Bool) (d : T)
        → ((i : ℕ) (r : Bool) → i + 1 < length xs.now → F.post in_order (get_or xs.now i d) (get_or xs.now (i + 1) d) r
        → r ≡ p (get_or xs.now i d) (get_or xs.now (i + 1) d))
        → result ≡ every (λ i. p (get_or xs.now i d) (get_or xs.now (i + 1) d)) (length xs.now - 1) }
{
    let mut ok = true;
    for i in 1..xs.len() {
        ok &= in_order(xs[i - 1], xs[i]);
    }
    ok
}

#[tactic(auto, unfolding(crate::specs::Voice::counts_ok))]
fn counts_ok(set: Setting) -> bool
    ensures value { result ≡ counts_ok set }
    ensures few { result ≡ true
        → (set.count ≤ max_entries) × (set.m ≤ max_partials) × (set.j ≤ max_bands) × (set.live_count ≤ max_bands) }
{
    set.count <= MAX_ENTRIES
        && set.m <= MAX_PARTIALS
        && set.j <= MAX_BANDS
        && set.k <= MAX_BLENDED
        && set.live_count <= MAX_BANDS
}

// The pitches and stretches of the first n entries. (By a count, here and of the phases: a voice, which crosses to C, has arrays and
// counts, and the rules are told by them. What is in use is a slice from the first line on.)
fn entries_ok(lists: &[f32; LISTS_PLACES], n: usize) -> bool
    requires { n ≤ max_entries }
    ensures { result ≡ entries_ok lists.now n }
{
    let pitches = &short_list(lists, PITCHES)[..n];
    let stretches = &short_list(lists, STRETCHES)[..n];
    all_of(pitches, pitch_ok)
        && ascend(pitches, |a: f32, b: f32| a <= b)
        && all_of(stretches, stretch_ok)
}

fn live_ok(set: Setting) -> bool
    requires { set.live_count ≤ max_bands }
    ensures { result ≡ live_ok set }
{
    let live = &set.live[..set.live_count];
    all_of(live, |b: u8| band_of(b) < set.j) && ascend(live, |a: u8, b: u8| a < b)
}

fn centres_finite(lists: &[f32; LISTS_PLACES], j: usize) -> bool
    requires { j ≤ max_bands }
    ensures { result ≡ centres_finite lists.now j }
{
    let centres = &short_list(lists, CENTRES)[..j];
    all_of(centres, |c: f32| float::is_finite(c))
}

fn phases_ok(phases: &[f32; 32], m: usize) -> bool
    requires { m ≤ max_partials }
    ensures { result ≡ phases_ok phases.now m }
{
    all_of(&phases[..m], phase_ok)
}

// Question 13, of what of a voice it looks at: its numbers, its short lists and its phases.
#[tactic(auto, unfolding(crate::specs::Voice::rules_of))]
pub fn rules_of(set: Setting, lists: &[f32; LISTS_PLACES], phases: &[f32; 32]) -> bool
    ensures { result ≡ rules_of set lists.now phases.now }
{
    if !counts_ok(set) {
        return false;
    }
    entries_ok(lists, set.count)
        && rate_ok(set.sample_rate)
        && live_ok(set)
        && centres_finite(lists, set.j)
        && phases_ok(phases, set.m)
}

impl Voice {
    // Question 13.
    pub(crate) fn keeps_rules(&self) -> bool
        ensures { result ≡ keeps_rules self.now }
    {
        rules_of(self.set, &self.lists, &self.state.phases)
    }
}
