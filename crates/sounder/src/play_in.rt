// Playing a voice where it lies: nothing of it is copied but its numbers and the noise number, which tells in short blocks.
ghost use Rattle.voice.specs.Input.{call};
ghost use Rattle.player.specs.Playing.{Plays};

use crate::answer::number_of;
use player::play;
use voice::{Inputs, Shape, Voice};

// Plays a block of the voice itself, which moves on. A refusal, whose number is answered, leaves it as it is.
#[unsafe(no_mangle)]
pub extern "C" fn sounder_play_in(
    voice: &mut Voice,
    shape: Shape,
    freq: &[f32],
    g0: &[f32],
    g1: &[f32],
    g2: &[f32],
    g3: &[f32],
    out: &mut [f32],
) -> u32
    ensures { Plays voice.old
        (call shape freq.now g0.now g1.now g2.now g3.now)
        out.old (record { number = result; voice = voice.new }) out.new }
{
    let inputs = Inputs {
        freq,
        g0,
        g1,
        g2,
        g3,
    };
    number_of(play(voice, shape, inputs, out))
}
