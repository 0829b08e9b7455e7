// Playing, with questions 13 to 16.
ghost use Rattle.voice.specs.Answer.{call_number};
ghost use Rattle.voice.specs.Input.{call_of};
ghost use Rattle.player.specs.Playing.{Plays};

use crate::block::block_of;
use crate::timbre::Timbre;
use voice::{CallError, Inputs, Shape, Voice, play_question};

// Plays a block of the voice itself, which moves on. A refusal leaves voice and output as they are. Of the voice its numbers are copied for
// the questions, and the noise number; for each channel behind the first its state, and for each pass the short lists that it looks up in.
pub fn play<'a>(
    voice: &mut Voice,
    shape: Shape,
    inputs: Inputs<'a>,
    out: &mut [f32],
) -> Result<(), CallError>
    ensures { Plays voice.old (call_of shape inputs.entry) out.old (record { number = call_number result; voice = voice.new }) out.new }
{
    play_question(
        voice.set,
        &voice.lists,
        &voice.state.phases,
        shape,
        inputs,
        out.len(),
    )?;
    let timbre = Timbre {
        set: &voice.set,
        lists: &voice.lists,
        partials: &voice.partials,
        noise: &voice.noise,
    };
    block_of(timbre, &mut voice.state, shape, inputs, out);
    Ok(())
}
