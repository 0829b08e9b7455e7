// Questions 13 to 16 of a play.
ghost use Rattle.std.specs.Prelude.{◌≡◌, ◌≤◌};
ghost use Rattle.voice.specs.Input.{call_of, input_ok, inputs_ok, frequency_ok, frequencies_ok};
ghost use Rattle.voice.specs.Answer.{call_number};
ghost use Rattle.voice.specs.Voice.{rules_of};
ghost use Rattle.voice.specs.Question.{ask, block_ok, call_question};
ghost use Rattle.voice.specs.Limits.{max_samples};

use crate::answer::CallError;
use crate::inputs::Inputs;
use crate::limits::{MAX_CHANNELS, MAX_HZ, MAX_SAMPLES};
use crate::lists::LISTS_PLACES;
use crate::rules::{all_of, rules_of};
use crate::shape::Shape;
use crate::voice::Setting;

// Question 16 of one frequency.
fn frequency_ok(f: f32) -> bool
    ensures { result ≡ frequency_ok f }
{
    !(float::is_finite(f) && MAX_HZ < f)
}

// Question 16 of an input of k channels.
fn frequencies_ok(k: usize, s: &[f32]) -> bool
    ensures { result ≡ frequencies_ok k s.now }
{
    k == 0 || all_of(s, frequency_ok)
}

// Question 14.
fn block_ok(samples: usize, channels: usize, len: usize) -> bool
    ensures { result ≡ block_ok samples channels len }
{
    samples <= MAX_SAMPLES && 1 <= channels && channels <= MAX_CHANNELS && len == channels * samples
}

// Question 15 of an input of k channels.
fn input_ok(k: usize, samples: usize, len: usize) -> bool
    requires { samples ≤ max_samples }
    ensures { result ≡ input_ok k samples len }
{
    k == 0 || k <= MAX_CHANNELS && k * samples == len
}

// Question 15.
fn inputs_ok<'a>(b: Shape, inputs: Inputs<'a>) -> bool
    requires { b.samples ≤ max_samples }
    ensures { result ≡ inputs_ok (call_of b inputs.entry) }
{
    input_ok(b.freq, b.samples, inputs.freq.len())
        && input_ok(b.g0, b.samples, inputs.g0.len())
        && input_ok(b.g1, b.samples, inputs.g1.len())
        && input_ok(b.g2, b.samples, inputs.g2.len())
        && input_ok(b.g3, b.samples, inputs.g3.len())
}

// Questions 13 to 16, in their order: of a voice's numbers, short lists and phases, a call, and the length of its output.
#[tactic(auto, unfolding(crate::specs::Question::ask, crate::specs::Question::call_question))]
pub fn play_question<'a>(
    set: Setting,
    lists: &[f32; LISTS_PLACES],
    phases: &[f32; 32],
    shape: Shape,
    inputs: Inputs<'a>,
    len: usize,
) -> Result<(), CallError>
    ensures { call_number result ≡ ask (rules_of set lists.now phases.now) 13 (call_question (call_of shape inputs.entry) len) }
{
    if !rules_of(set, lists, phases) {
        return Err(CallError::VoiceRules);
    }
    if !block_ok(shape.samples, shape.channels, len) {
        return Err(CallError::Output);
    }
    if !inputs_ok(shape, inputs) {
        return Err(CallError::Input);
    }
    if !frequencies_ok(shape.freq, inputs.freq) {
        return Err(CallError::Frequency);
    }
    Ok(())
}
