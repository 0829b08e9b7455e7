// Making voices, and playing them by value.
ghost use Rattle.std.specs.Prelude.{◌≡◌};
ghost use Rattle.voice.specs.Input.{call};
ghost use Rattle.filters.specs.Compensation.{noise_power_gain};
ghost use Rattle.making.specs.Making.{making, make_of};
ghost use Rattle.voice.specs.Restart.{reset_of, reseed_of};
ghost use Rattle.voice.specs.Retuning.{retune_of};
ghost use Rattle.sounder.specs.Answer.{kind_of};
ghost use Rattle.sounder.specs.Voices.{made_answer};
ghost use Rattle.player.specs.Playing.{Plays};

use filters::NoisePower;
use sounder::{MadeAnswer, voices};
use voice::{BiquadCoeffs, Played, Shape, Voice};

// Makes a voice of an image: kind 0 is a single voice of the channel, any other kind a blend.
#[unsafe(no_mangle)]
pub extern "C" fn sounder_make(
    kind: u32,
    channel: u32,
    image: &[u8],
    sample_rate: f32,
    centres: &[f32],
) -> MadeAnswer
    ensures { result ≡ made_answer (make_of (making (kind_of kind channel) image.now sample_rate centres.now)) }
{
    voices::sounder_make(kind, channel, image, sample_rate, centres)
}

// Plays a block of a voice by value.
#[unsafe(no_mangle)]
pub extern "C" fn sounder_play(
    voice: Voice,
    shape: Shape,
    freq: &[f32],
    g0: &[f32],
    g1: &[f32],
    g2: &[f32],
    g3: &[f32],
    out: &mut [f32],
) -> Played
    ensures { Plays voice (call shape freq.now g0.now g1.now g2.now g3.now)
        out.old result out.new }
{
    voices::sounder_play(voice, shape, freq, g0, g1, g2, g3, out)
}

// Phases and memories 0, and the default seed.
#[unsafe(no_mangle)]
pub extern "C" fn sounder_reset(voice: Voice) -> Played
    ensures { result ≡ reset_of voice }
{
    voices::sounder_reset(voice)
}

// The seed is taken, the memories are 0, the phases kept.
#[unsafe(no_mangle)]
pub extern "C" fn sounder_reseed(voice: Voice, seed: u32) -> Played
    ensures { result ≡ reseed_of voice seed }
{
    voices::sounder_reseed(voice, seed)
}

// Another sample rate: the rate, the bands and the compensations that `init` gives for the voice's own centres.
#[unsafe(no_mangle)]
pub extern "C" fn sounder_retune(voice: Voice, sample_rate: f32) -> Played
    ensures { result ≡ retune_of voice sample_rate }
{
    voices::sounder_retune(voice, sample_rate)
}

// The power of white noise after a band, and how many times the band was rung for it.
#[unsafe(no_mangle)]
pub extern "C" fn sounder_noise_power_gain(
    freq: f32,
    q: f32,
    sample_rate: f32,
    coeffs: BiquadCoeffs,
) -> NoisePower
    ensures { result ≡ noise_power_gain freq q sample_rate coeffs }
{
    voices::sounder_noise_power_gain(freq, q, sample_rate, coeffs)
}
