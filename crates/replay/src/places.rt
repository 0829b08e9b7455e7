// A voice's places by number, as the lists of changes name them, and two voices beside each other.
use crate::list::Words;
use crate::tally::Tally;
use std::array;
use voice::{BiquadCoeffs, LISTS_PLACES, Rng, Setting, State, Voice};

// The fields of the short lists, of 16 places each: the field's number, its name, where its first place stands, and how far the next is.
// (Plain numbers, and the zero voice below written out: what an answer is read by is not to come from what is checked.)
const COLUMNS: [(u32, &[u8], usize, usize); 11] = [
    (9, b"f0_hz", 0, 1),
    (10, b"stretch", 16, 1),
    (11, b"mainlobe_gain", 32, 1),
    (12, b"noise_gain", 48, 1),
    (15, b"b0", 64, 5),
    (16, b"b1", 65, 5),
    (17, b"b2", 66, 5),
    (18, b"a1", 67, 5),
    (19, b"a2", 68, 5),
    (20, b"compensation", 144, 1),
    (25, b"centres", 160, 1),
];

// The voice that is all zero.
pub fn blank() -> Voice {
    Voice {
        set: Setting {
            blend: 0,
            channel: 0,
            count: 0,
            k: 0,
            m: 0,
            j: 0,
            live_count: 0,
            sample_rate: 0.0,
            live: [0; 16],
        },
        lists: [0.0; LISTS_PLACES],
        partials: [0.0; 2048],
        noise: [0.0; 1024],
        state: State {
            phases: [0.0; 32],
            memories: [0.0; 32],
            rng: Rng { state: 0 },
        },
    }
}

// The place of a column that starts at one place, at the i-th step from it.
fn place(start: usize, step: usize, i: usize) -> usize {
    i.saturating_mul(step).saturating_add(start)
}

fn column(list: &[f32], start: usize, step: usize) -> [f32; 16] {
    array::from_fn(|i| list.get(place(start, step, i)).copied().unwrap_or(0.0))
}

// The coefficients of band i.
pub fn band(lists: &[f32; LISTS_PLACES], i: usize) -> BiquadCoeffs {
    let at = |n: usize| lists.get(place(64 + n, 5, i)).copied().unwrap_or(0.0);
    BiquadCoeffs {
        b0: at(0),
        b1: at(1),
        b2: at(2),
        a1: at(3),
        a2: at(4),
    }
}

// Puts a float to a place of a list, where there is one.
fn put(list: &mut [f32], at: usize, x: f32) {
    if let Some(place) = list.get_mut(at) {
        *place = x;
    }
}

// The short lists' fields.
fn set_column(lists: &mut [f32; LISTS_PLACES], field: u32, i: usize, x: f32) {
    for (number, _, start, step) in COLUMNS {
        if number == field && i < 16 {
            put(lists, place(start, step, i), x);
        }
    }
}

fn set_live(live: &mut [u8; 16], i: usize, n: u32) {
    if let (Some(place), Ok(band)) = (live.get_mut(i), u8::try_from(n)) {
        *place = band;
    }
}

// A change: the place is field × 65536 + index. A field that is none is taken for the noise number.
fn set(v: &mut Voice, at: u32, n: u32) {
    let i = (at % 65536) as usize;
    let x = float::from_bits(n);
    match at / 65536 {
        0 => v.set.blend = n,
        1 => v.set.channel = n,
        2 => v.set.count = n as usize,
        3 => v.set.k = n as usize,
        4 => v.set.m = n as usize,
        5 => v.set.j = n as usize,
        6 => v.set.live_count = n as usize,
        7 => set_live(&mut v.set.live, i, n),
        8 => v.set.sample_rate = x,
        13 => put(&mut v.partials, i, x),
        14 => put(&mut v.noise, i, x),
        21 => put(&mut v.state.phases, i, x),
        22 => put(&mut v.state.memories, place(0, 2, i), x),
        23 => put(&mut v.state.memories, place(1, 2, i), x),
        field @ (9..=12 | 15..=20 | 25) => set_column(&mut v.lists, field, i, x),
        _ => v.state.rng.state = n,
    }
}

// The voice with the changes that come next.
pub fn changed(v: &Voice, w: &mut Words) -> Voice {
    let mut changed = *v;
    for _ in 0..w.items() {
        let at = w.word();
        set(&mut changed, at, w.word());
    }
    changed
}

// A blend's coefficients past its phases are 0 or -0 and never read; the original drops them.
pub fn without_unread(v: &Voice) -> Voice {
    let mut read = *v;
    if v.set.blend != 0 {
        for (i, x) in read.partials.iter_mut().enumerate() {
            if v.set.m <= i % 32 && *x == 0.0 {
                *x = 0.0;
            }
        }
    }
    read
}

fn same_numbers(t: &mut Tally, ours: &Setting, theirs: &Setting) {
    t.same(b"blend", 0, ours.blend, theirs.blend);
    t.same(b"channel", 0, ours.channel, theirs.channel);
    t.same(b"count", 0, ours.count, theirs.count);
    t.same(b"k", 0, ours.k, theirs.k);
    t.same(b"m", 0, ours.m, theirs.m);
    t.same(b"j", 0, ours.j, theirs.j);
    t.same(b"live_count", 0, ours.live_count, theirs.live_count);
    t.same_all(b"live", &ours.live, &theirs.live);
    t.same(b"sample_rate", 0, ours.sample_rate, theirs.sample_rate);
}

fn same_column(
    t: &mut Tally,
    name: &[u8],
    start: usize,
    step: usize,
    ours: &[f32],
    theirs: &[f32],
) {
    t.same_all(
        name,
        &column(ours, start, step),
        &column(theirs, start, step),
    );
}

fn same_state(t: &mut Tally, ours: &State, theirs: &State) {
    t.same_all(b"phases", &ours.phases, &theirs.phases);
    same_column(t, b"z1", 0, 2, &ours.memories, &theirs.memories);
    same_column(t, b"z2", 1, 2, &ours.memories, &theirs.memories);
    t.same(b"noise number", 0, ours.rng.state, theirs.rng.state);
}

// Compares every place of two voices.
pub fn same_voice(t: &mut Tally, ours: &Voice, theirs: &Voice) {
    same_numbers(t, &ours.set, &theirs.set);
    for (_, name, start, step) in COLUMNS {
        same_column(t, name, start, step, &ours.lists, &theirs.lists);
    }
    t.same_all(b"partials", &ours.partials, &theirs.partials);
    t.same_all(b"noise", &ours.noise, &theirs.noise);
    same_state(t, &ours.state, &theirs.state);
}
