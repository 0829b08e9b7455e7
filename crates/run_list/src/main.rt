// Runs at the limits: each line is what was asked, and the number of the answer (0: accepted). The expected lines in `stdout` are document
// 01's, and of document 02 those of cards 1 to 3.
#![tactic(auto)]

mod images;
mod merges;

ghost use Rattle.std.specs.Prelude.{◌≤◌};

use quiet::{Plan, Window};
use sounder::plans::sounder_quiet_gain;
use sounder::voices::{sounder_make, sounder_play, sounder_retune};
use voice::{CENTRES, Shape, Voice};

// Printing is by `io` here, which rests on the C function `write` alone; `println!` would rest on those of the error's number and words
// too.
pub fn say(what: &[u8], number: u32) {
    io::write_all(1, what);
    io::write_all(1, b": ");
    io::print_decimal(1, u64::from(number));
    io::write_all(1, b"\n");
}

// A making of a single voice of a channel.
fn made(what: &[u8], image: &[u8], channel: u32, rate: f32, centres: &[f32]) -> Voice {
    let m = sounder_make(0, channel, image, rate, centres);
    say(what, m.answer.number);
    m.voice
}

fn makings() {
    let sixteen = &images::SIXTEEN;
    made(b"16 entries", sixteen, 0, 48000.0, &[]);
    made(b"17 entries", &images::SEVENTEEN, 0, 48000.0, &[]);
    made(b"33 partials", &images::WIDE, 0, 48000.0, &[]);
    made(b"a pitch of 0", &images::FLAT, 0, 48000.0, &[]);
    made(b"channel 1 of one channel", sixteen, 1, 48000.0, &[]);
    made(
        b"channel 1 of an empty table",
        &images::EMPTY,
        1,
        48000.0,
        &[],
    );
    made(b"rate 7999", sixteen, 0, 7999.0, &[]);
    made(b"rate 8000", sixteen, 0, 8000.0, &[]);
    made(b"rate 192000", sixteen, 0, 192000.0, &[]);
    made(b"a rate that is no number", sixteen, 0, f32::NAN, &[]);
    made(b"a centre too many", sixteen, 0, 48000.0, &[440.0]);
}

// A block of samples and channels, with no input connected.
fn block(samples: usize, channels: usize) -> Shape {
    Shape {
        samples,
        channels,
        freq: 0,
        g0: 0,
        g1: 0,
        g2: 0,
        g3: 0,
    }
}

// A play with a frequency and gain 0 into a slice of `len` samples that hold 9, and what stands in the first: 0, a number, or no number.
fn played(what: &[u8], voice: Voice, shape: Shape, freq: &[f32], gain: &[f32], len: usize)
    requires { len ≤ 1161 }
{
    let mut out = [9.0; 1161];
    let p = sounder_play(voice, shape, freq, gain, &[], &[], &[], &mut out[..len]);
    say(what, p.number);
    if 0 < len {
        let y = out[0];
        if y.is_nan() {
            io::write_all(1, b"  the first sample is no number\n");
        } else if y == 0.0 {
            io::write_all(1, b"  the first sample is 0\n");
        }
    }
}

fn blocks() {
    let f = [220.0; 16];
    let g = [1.0; 16];
    let v = made(b"a voice", &images::SIXTEEN, 0, 48000.0, &[]);
    played(b"128 samples", v, block(128, 1), &[], &[], 128);
    played(b"129 samples", v, block(129, 1), &[], &[], 129);
    played(b"8 channels", v, block(128, 8), &[], &[], 1024);
    played(b"9 channels", v, block(128, 9), &[], &[], 1152);
    played(b"0 channels", v, block(0, 0), &[], &[], 0);
    played(b"0 samples", v, block(0, 1), &[], &[], 0);
    played(b"a slice too long", v, block(8, 1), &[], &[], 9);
    played(
        b"an input too long",
        v,
        Shape {
            freq: 1,
            ..block(8, 1)
        },
        &f[..9],
        &[],
        8,
    );
    played(
        b"a gain too short",
        v,
        Shape {
            g0: 2,
            ..block(8, 1)
        },
        &[],
        &g[..15],
        8,
    );
    played(
        b"a gain of 9 channels",
        v,
        Shape {
            g0: 9,
            ..block(1, 1)
        },
        &[],
        &g[..9],
        1,
    );
    let mut broken = v;
    broken.set.m = 33;
    played(b"a voice of 33 phases", broken, block(8, 1), &[], &[], 8);
}

// A retune of a voice.
fn retuned(what: &[u8], voice: Voice, rate: f32) {
    say(what, sounder_retune(voice, rate).number);
}

// A voice whose first centre is not finite, as a voice of j bands.
fn infinite_centre(mut v: Voice, j: usize) -> Voice {
    v.set.j = j;
    v.lists[CENTRES * 16] = f32::INFINITY;
    v
}

fn retunes() {
    let v = made(b"a voice", &images::SIXTEEN, 0, 48000.0, &[]);
    retuned(b"a retune to 8000", v, 8000.0);
    retuned(b"to the float before 8000", v, 7999.99951171875);
    retuned(b"to 192000", v, 192000.0);
    retuned(b"to the float after 192000", v, 192000.015625);
    retuned(b"to no number", v, f32::NAN);
    retuned(b"to infinity", v, f32::INFINITY);
    retuned(b"to -44100", v, -44100.0);
    retuned(
        b"of a centre past the bands that is infinite",
        infinite_centre(v, 0),
        44100.0,
    );
    retuned(
        b"of a band's centre that is infinite",
        infinite_centre(v, 1),
        44100.0,
    );
    retuned(
        b"of the same, to no number",
        infinite_centre(v, 1),
        f32::NAN,
    );
}

// One sample at a frequency, and at a gain where one is connected.
fn sounded(what: &[u8], voice: Voice, f: f32, gain: &[f32]) {
    played(
        what,
        voice,
        Shape {
            freq: 1,
            g0: gain.len(),
            ..block(1, 1)
        },
        &[f],
        gain,
        1,
    );
}

fn floats() {
    let v = made(b"a voice", &images::SIXTEEN, 0, 48000.0, &[]);
    sounded(b"20000 Hz", v, 20000.0, &[]);
    sounded(b"the float after 20000", v, 20000.001953125, &[]);
    sounded(b"a frequency that is no number", v, f32::NAN, &[]);
    sounded(b"an infinite frequency", v, f32::INFINITY, &[]);
    sounded(b"a negative frequency", v, -220.0, &[]);
    sounded(b"a gain that is no number", v, 220.0, &[f32::NAN]);
    sounded(b"an infinite gain on silence", v, -220.0, &[f32::INFINITY]);
}

// A minute of a plan whose windows, and places beyond them, are all alike.
fn planned(what: &[u8], count: u32, start: u32, end: u32, step: u32, minute: u32) {
    let plan = Plan {
        count,
        windows: [Window { start, end, step }; 64],
    };
    say(what, sounder_quiet_gain(plan, minute).answer.number);
}

fn plans() {
    planned(b"64 windows", 64, 0, 10079, 100, 0);
    planned(b"65 windows", 65, 0, 10079, 100, 0);
    planned(b"a start of 10079", 1, 10079, 0, 50, 0);
    planned(b"a start of 10080", 1, 10080, 0, 50, 0);
    planned(b"an end of 10079", 1, 0, 10079, 50, 0);
    planned(b"an end of 10080", 1, 0, 10080, 50, 0);
    planned(b"a step of 100", 1, 0, 60, 100, 0);
    planned(b"a step of 101", 1, 0, 60, 101, 0);
    planned(b"minute 10079", 1, 0, 60, 50, 10079);
    planned(b"minute 10080", 1, 0, 60, 50, 10080);
    planned(
        b"65 windows, steps of 101, minute 10080",
        65,
        0,
        60,
        101,
        10080,
    );
    planned(
        b"an end of 10080, a step of 101, minute 10080",
        1,
        0,
        10080,
        101,
        10080,
    );
    planned(b"a step of 101, minute 10080", 1, 0, 60, 101, 10080);
    planned(
        b"edges of 10080 and steps of 101 past the windows",
        0,
        10080,
        10080,
        101,
        0,
    );
}

fn main() {
    makings();
    blocks();
    floats();
    retunes();
    plans();
    merges::all();
}
