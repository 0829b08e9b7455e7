// Play, reset, reseed and retune of a voice where it lies.
ghost use Rattle.voice.specs.Input.{call};
ghost use Rattle.player.specs.Playing.{Plays};
ghost use Rattle.std.specs.Prelude.{◌≡◌};
ghost use Rattle.voice.specs.Restart.{reset_of, reseed_of};
ghost use Rattle.voice.specs.Retuning.{retune_of};

use sounder::{play_in, restart_in, retune_in};
use voice::{Shape, Voice};

// Plays a block of the voice itself, which moves on. A refusal, whose number is answered, leaves it as it is.
#[unsafe(no_mangle)]
pub extern "C" fn sounder_play_in(
    voice: &mut Voice,
    shape: Shape,
    freq: &[f32],
    g0: &[f32],
    g1: &[f32],
    g2: &[f32],
    g3: &[f32],
    out: &mut [f32],
) -> u32
    ensures { Plays voice.old
        (call shape freq.now g0.now g1.now g2.now g3.now)
        out.old (record { number = result; voice = voice.new }) out.new }
{
    play_in::sounder_play_in(voice, shape, freq, g0, g1, g2, g3, out)
}

// Phases and memories 0, and the default seed. A refusal, whose number is answered, leaves the voice as it is.
#[unsafe(no_mangle)]
pub extern "C" fn sounder_reset_in(voice: &mut Voice) -> u32
    ensures { record { number = result; voice = voice.new } ≡ reset_of voice.old }
{
    restart_in::sounder_reset_in(voice)
}

// The seed is taken, the memories are 0, the phases kept. A refusal, whose number is answered, leaves the voice as it is.
#[unsafe(no_mangle)]
pub extern "C" fn sounder_reseed_in(voice: &mut Voice, seed: u32) -> u32
    ensures { record { number = result; voice = voice.new } ≡ reseed_of voice.old seed }
{
    restart_in::sounder_reseed_in(voice, seed)
}

// Another sample rate: the rate, the bands and the compensations that `init` gives for the voice's own centres. A refusal, whose number is
// answered, leaves the voice as it is.
#[unsafe(no_mangle)]
pub extern "C" fn sounder_retune_in(voice: &mut Voice, sample_rate: f32) -> u32
    ensures { record { number = result; voice = voice.new } ≡ retune_of voice.old sample_rate }
{
    retune_in::sounder_retune_in(voice, sample_rate)
}
