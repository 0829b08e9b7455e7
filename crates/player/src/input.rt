// What a channel reads of the inputs: each is resolved once to the part of its slice that the channel reads, or to the empty part where
// it is unconnected. What is read past the end of a part is the input's default, so nothing below asks how long a part is.
ghost use Rattle.std.specs.Prelude.{◌≡◌, true, false, ◌<◌, ◌%◌, length, get_or, eqb};
ghost use Rattle.std.specs.Float.{nan};
ghost use Rattle.voice.specs.Input.{call_of, input_ok, inputs_ok, part_of, cleaned};
ghost use Rattle.player.specs.inner.Passes.{frequency_in, gains_in, PartsOf};
ghost use Rattle.player.specs.inner.Terms.{term_gain};

use voice::{Inputs, Shape};

// Input channel ch modulo k. The division is asked for only where it is needed: it costs as much as a short block's sample.
fn row_of(k: usize, ch: usize) -> usize
    requires { 0 < k }
    ensures { result ≡ ch % k }
{
    if ch < k { ch } else { ch % k }
}

// The part that output channel ch reads of an input of k channels.
fn part_of(k: usize, s: &[f32], samples: usize, ch: usize) -> &[f32]
    requires { input_ok k samples (length s.now) ≡ true }
    ensures { result.now ≡ part_of k s.now samples ch }
{
    if k == 0 {
        return &s[..0];
    }
    let at = row_of(k, ch) * samples;
    let to = at + samples;
    &s[at..to]
}

// The parts that output channel ch reads of the inputs of a block.
pub fn parts_of<'a>(shape: Shape, inputs: Inputs<'a>, ch: usize) -> Inputs<'a>
    requires { inputs_ok (call_of shape inputs) ≡ true }
    ensures { PartsOf (call_of shape inputs.entry) ch result }
{
    Inputs {
        freq: part_of(shape.freq, inputs.freq, shape.samples, ch),
        g0: part_of(shape.g0, inputs.g0, shape.samples, ch),
        g1: part_of(shape.g1, inputs.g1, shape.samples, ch),
        g2: part_of(shape.g2, inputs.g2, shape.samples, ch),
        g3: part_of(shape.g3, inputs.g3, shape.samples, ch),
    }
}

fn read_or(part: &[f32], i: usize, other: f32) -> f32
    ensures { result ≡ get_or part.now i other }
{
    part.get(i).copied().unwrap_or(other)
}

// One that is not finite, negative or -0 becomes 0.
fn clean(f: f32) -> f32
    ensures { result ≡ cleaned f }
{
    if !float::is_finite(f) {
        return 0.0;
    }
    if 0.0 < f { f } else { 0.0 }
}

// The frequency that is played at sample i.
pub fn frequency_at<'a>(inputs: Inputs<'a>, i: usize) -> f32
    ensures { result ≡ cleaned (frequency_in inputs.entry i) }
{
    clean(read_or(inputs.freq, i, 220.0))
}

pub fn gains_at<'a>(inputs: Inputs<'a>, i: usize) -> [f32; 4]
    ensures { result ≡ gains_in inputs.entry i }
{
    let a = read_or(inputs.g0, i, 1.0);
    let b = read_or(inputs.g1, i, 0.0);
    let c = read_or(inputs.g2, i, 0.0);
    let d = read_or(inputs.g3, i, 0.0);
    [a, b, c, d]
}

// Those that the voice sounds by: of a single voice only gain 0 is read.
pub fn gains_for<'a>(blend: u32, inputs: Inputs<'a>, i: usize) -> [f32; 4]
    ensures { (get_or result 0 nan ≡ get_or (gains_in inputs.entry i) 0 nan) × (eqb blend 0 ≡ false → result ≡ gains_in inputs.entry i) }
{
    if blend == 0 {
        let a = read_or(inputs.g0, i, 1.0);
        return [a, 0.0, 0.0, 0.0];
    }
    gains_at(inputs, i)
}

// What a term is multiplied by beside its coefficient: of a single voice gain 0, of a blend 1, since the gains are in its coefficients.
pub fn term_gain(blend: u32, gains: &[f32; 4]) -> f32
    ensures { result ≡ term_gain blend gains.now }
{
    let gain = gains[0];
    if blend == 0 { gain } else { 1.0 }
}
