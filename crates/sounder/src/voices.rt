// Making voices, and playing them by value. What is changed is the caller's copy, so a call comes to what it comes to where a voice lies.
ghost use Rattle.std.specs.Prelude.{◌≡◌};
ghost use Rattle.voice.specs.Input.{call};
ghost use Rattle.filters.specs.Compensation.{noise_power_gain};
ghost use Rattle.making.specs.Making.{making, make_of};
ghost use Rattle.making.specs.Answer.{make_refusal};
ghost use Rattle.voice.specs.Restart.{reset_of, reseed_of};
ghost use Rattle.voice.specs.Retuning.{retune_of};
ghost use Rattle.sounder.specs.Answer.{refusal_answer, kind_of};
ghost use Rattle.sounder.specs.Voices.{made_answer};
ghost use Rattle.player.specs.Playing.{Plays};

use crate::answer::{Answer, done, number_of, refusal};
use crate::kind::kind_of;
use filters::{NoisePower, biquad_noise_power_gain};
use making::{MakeError, blank_voice, make};
use player::play;
use voice::{BiquadCoeffs, Inputs, Played, Shape, Voice};

// The blank voice, all zero, where the making is refused.
#[repr(C)]
#[derive(Clone, Copy)]
pub struct MadeAnswer {
    pub answer: Answer,
    pub voice: Voice,
}

// Why there is no voice, as numbers.
impl From<MakeError> for Answer {
    ghost from_gives = { λ e a. a ≡ refusal_answer (make_refusal e) };

    fn from(e: MakeError) -> Answer {
        match e {
            MakeError::Refused(e) => Answer::from(e),
            MakeError::TooLarge => refusal(8, 0),
            MakeError::BadEntry(index) => refusal(9, index),
            MakeError::NoChannel => refusal(10, 0),
            MakeError::BadRate => refusal(11, 0),
            MakeError::BadCentres => refusal(12, 0),
        }
    }
}

// Makes a voice of an image: kind 0 is a single voice of the channel, any other kind a blend.
#[unsafe(no_mangle)]
pub extern "C" fn sounder_make(
    kind: u32,
    channel: u32,
    image: &[u8],
    sample_rate: f32,
    centres: &[f32],
) -> MadeAnswer
    ensures { result ≡ made_answer (make_of (making (kind_of kind channel) image.now sample_rate centres.now)) }
{
    match make(kind_of(kind, channel), image, sample_rate, centres) {
        Ok(voice) => MadeAnswer {
            answer: done(0, 0),
            voice,
        },
        Err(e) => MadeAnswer {
            answer: Answer::from(e),
            voice: blank_voice(),
        },
    }
}

// Plays a block of a voice by value.
#[unsafe(no_mangle)]
pub extern "C" fn sounder_play(
    mut voice: Voice,
    shape: Shape,
    freq: &[f32],
    g0: &[f32],
    g1: &[f32],
    g2: &[f32],
    g3: &[f32],
    out: &mut [f32],
) -> Played
    ensures { Plays voice (call shape freq.now g0.now g1.now g2.now g3.now)
        out.old result out.new }
{
    let inputs = Inputs {
        freq,
        g0,
        g1,
        g2,
        g3,
    };
    let number = number_of(play(&mut voice, shape, inputs, out));
    Played { number, voice }
}

// Reset, reseed and retune look alike: the C interface has a name for each, and what they do is a method of `Voice` each.

// Phases and memories 0, and the default seed.
#[unsafe(no_mangle)]
pub extern "C" fn sounder_reset(mut voice: Voice) -> Played
    ensures { result ≡ reset_of voice }
{
    let number = number_of(voice.reset());
    Played { number, voice }
}

// The seed is taken, the memories are 0, the phases kept.
#[unsafe(no_mangle)]
pub extern "C" fn sounder_reseed(mut voice: Voice, seed: u32) -> Played
    ensures { result ≡ reseed_of voice seed }
{
    let number = number_of(voice.reseed(seed));
    Played { number, voice }
}

// Another sample rate: the rate, the bands and the compensations that `init` gives for the voice's own centres.
#[unsafe(no_mangle)]
pub extern "C" fn sounder_retune(mut voice: Voice, sample_rate: f32) -> Played
    ensures { result ≡ retune_of voice sample_rate }
{
    let number = number_of(voice.retune(sample_rate));
    Played { number, voice }
}

// The power of white noise after a band, and how many times the band was rung for it.
#[unsafe(no_mangle)]
pub extern "C" fn sounder_noise_power_gain(
    freq: f32,
    q: f32,
    sample_rate: f32,
    coeffs: BiquadCoeffs,
) -> NoisePower
    ensures { result ≡ noise_power_gain freq q sample_rate coeffs }
{
    biquad_noise_power_gain(freq, q, sample_rate, coeffs)
}
