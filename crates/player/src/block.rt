// A block: channel after channel, each from the state that the block starts from. Channel 0 comes last, in the lent state itself: its end
// is kept.
ghost use Rattle.std.specs.Prelude.{◌≡◌, ◌*◌, length};
ghost use Rattle.voice.specs.Input.{call_of, frequency_at, gains_at};
ghost use Rattle.player.specs.Bands.{ticking_set};
ghost use Rattle.player.specs.inner.Passes.{VoiceFits, CallFits, BlockFits, ChannelPlayed, BlockPlayed, toned};

use crate::channel::channel_of;
use crate::input::parts_of;
use crate::timbre::Timbre;
use voice::{Inputs, Shape, State};

// The inputs are resolved to the parts that the channel reads, once for all its samples.
fn channel_at<'a>(
    timbre: Timbre<'a>,
    state: &mut State,
    shape: Shape,
    inputs: Inputs<'a>,
    ch: usize,
    out: &mut [f32],
)
    requires { VoiceFits (ticking_set timbre.set.now) timbre.lists.now state.old.phases × CallFits (call_of shape inputs)
        × (length out.old ≡ shape.samples) }
    ensures { ChannelPlayed (toned timbre.entry state.old) (frequency_at (call_of shape inputs.entry) ch)
        (gains_at (call_of shape inputs.entry) ch) shape.samples state.new out.new }
{
    channel_of(timbre, state, parts_of(shape, inputs, ch), out);
}

pub fn block_of<'a>(
    timbre: Timbre<'a>,
    state: &mut State,
    shape: Shape,
    inputs: Inputs<'a>,
    out: &mut [f32],
)
    requires { VoiceFits (ticking_set timbre.set.now) timbre.lists.now state.old.phases × CallFits (call_of shape inputs)
        × BlockFits shape × (length out.old ≡ shape.channels * shape.samples) }
    ensures { BlockPlayed (toned timbre.entry state.old) (call_of shape inputs.entry) state.new out.new }
{
    let samples = shape.samples;
    for ch in 1..shape.channels {
        let at = ch * samples;
        let to = at + samples;
        let mut own = *state;
        channel_at(timbre, &mut own, shape, inputs, ch, &mut out[at..to]);
    }
    channel_at(timbre, state, shape, inputs, 0, &mut out[..samples]);
}
