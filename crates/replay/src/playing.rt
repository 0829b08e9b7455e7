// Records of making and playing: a making, and the calls on its voice (compare/driver/playing/list.rs has the form).
// `t`, where differences are told, and `w`, the words that are left, go side by side, and `voice` where a call moves it on: with
// one struct of them a line as `t.same(b"a sample", i, *x, w.float())` would only name that struct twice, which is no plainer.
use crate::list::{FLOATS, Words};
use crate::places::{band, blank, changed, same_voice, without_unread};
use crate::tally::Tally;
use filters::biquad_noise_power_gain;
use sounder::voices::{sounder_make, sounder_play, sounder_reseed, sounder_reset, sounder_retune};
use voice::{LISTS_PLACES, Played, Shape, Voice};

// A call's answer, on a voice as it was given; the list goes on with the voice after it, or, where it is refused, with the one before the
// changes. Answers whether it was refused.
fn concluded(
    t: &mut Tally,
    w: &mut Words,
    what: &[u8],
    voice: &mut Voice,
    given: &Voice,
    ours: &Played,
) -> bool {
    let number = w.word();
    t.answered(ours.number);
    t.same(what, 0, ours.number, number);
    if number != 0 {
        same_voice(t, &ours.voice, given);
        return true;
    }
    let theirs = changed(given, w);
    same_voice(t, &ours.voice, &theirs);
    *voice = ours.voice;
    false
}

// A play: samples, frequency, four gains, channels, the output's length; then the answer, and the samples, which are those that stood there
// before where it is refused.
fn played(t: &mut Tally, w: &mut Words, voice: &mut Voice, given: &Voice) {
    let [mut f, mut a, mut b, mut c, mut d] = [[0.0; FLOATS]; 5];
    let samples = w.count();
    let (freq_channels, freq) = w.input(&mut f);
    let (g0_channels, g0) = w.input(&mut a);
    let (g1_channels, g1) = w.input(&mut b);
    let (g2_channels, g2) = w.input(&mut c);
    let (g3_channels, g3) = w.input(&mut d);
    let shape = Shape {
        samples,
        channels: w.count(),
        freq: freq_channels,
        g0: g0_channels,
        g1: g1_channels,
        g2: g2_channels,
        g3: g3_channels,
    };
    let len = w.count();
    let mut buffer = [9.0; FLOATS];
    let Some(out) = buffer.get_mut(..len) else {
        t.same(b"an output too long for the replay", 0, 0, len);
        w.end();
        return;
    };
    let ours = sounder_play(*given, shape, freq, g0, g1, g2, g3, out);
    if concluded(t, w, b"the play's number", voice, given, &ours) {
        for (i, x) in out.iter().enumerate() {
            t.same(b"a sample of a refused play", i, *x, 9.0);
        }
    } else {
        for (i, x) in out.iter().enumerate() {
            t.same(b"a sample", i, *x, w.float());
        }
        t.samples = t.samples.saturating_add(len as u64);
    }
}

// A call: the changes before it, which call it is, and its arguments.
fn call(t: &mut Tally, w: &mut Words, voice: &mut Voice) {
    let given = changed(voice, w);
    match w.word() {
        0 => played(t, w, voice, &given),
        1 => {
            let ours = sounder_reset(given);
            concluded(t, w, b"the reset's number", voice, &given, &ours);
        }
        2 => {
            let ours = sounder_reseed(given, w.word());
            concluded(t, w, b"the reseed's number", voice, &given, &ours);
        }
        _ => {
            let ours = sounder_retune(given, w.float());
            concluded(t, w, b"the retune's number", voice, &given, &ours);
        }
    }
}

fn calls(t: &mut Tally, w: &mut Words, mut voice: Voice) {
    for i in 0..w.items() {
        t.call = i as u64;
        t.calls = t.calls.saturating_add(1);
        call(t, w, &mut voice);
    }
    t.call = 0;
}

// The centre that a band is made for.
fn centre(raw: f32, rate: f32) -> f32 {
    float::max(float::min(raw, rate * 0.5 * 0.9), 20.0)
}

// Each band's ring count and noise power.
fn rung(t: &mut Tally, w: &mut Words, lists: &[f32; LISTS_PLACES], rate: f32, centres: &[f32]) {
    for (i, raw) in centres.iter().enumerate() {
        let ours = biquad_noise_power_gain(centre(*raw, rate), 1.0, rate, band(lists, i));
        t.same(b"a ring count", i, ours.n, w.word());
        t.same(b"a noise power", i, ours.power, w.float());
    }
}

pub fn record(t: &mut Tally, mut w: Words) {
    let kind = w.word();
    let channel = w.word();
    let image = w.bytes();
    let rate = w.float();
    let mut buffer = [0.0; FLOATS];
    let said = w.ahead();
    let centres = w.floats(&mut buffer);
    let m = sounder_make(kind, channel, image, rate, centres);
    t.answered(m.answer.number);
    let theirs = w.answer();
    t.same_answer(b"the making's", m.answer, theirs);
    let fresh = changed(&blank(), &mut w);
    same_voice(t, &without_unread(&m.voice), &fresh);
    if theirs.number == 0 {
        rung(t, &mut w, &m.voice.lists, rate, centres);
        // two words a centre, also where there were too many to take
        w.skip(said.saturating_sub(centres.len()).saturating_mul(2));
        calls(t, &mut w, m.voice);
    }
}
