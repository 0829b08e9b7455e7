// One channel of a block, in two passes: the partials of all samples, and then what the live bands add.
// It starts from the state that it is lent, and leaves there the state at its end.
ghost use Rattle.std.specs.Prelude.{length};
ghost use Rattle.player.specs.Bands.{ticking_set};
ghost use Rattle.player.specs.inner.Passes.{VoiceFits, PartialsFit, FrequenciesFit, frequency_in, gains_in};
ghost use Rattle.player.specs.inner.Passes.{toned, PlaysPartials, ChannelPlayed};

use crate::bands::live_of;
use crate::noise::pass::noise_pass;
use crate::partials::in_columns::partials_in_columns;
use crate::partials::one_by_one::partials_one_by_one;
use crate::timbre::Timbre;
use voice::{Inputs, State};

// The partials: none, few, or so many that columns are worth while.
fn all_partials<'a>(timbre: Timbre<'a>, phases: &mut [f32; 32], inputs: Inputs<'a>, out: &mut [f32])
    requires { PartialsFit timbre phases.old inputs }
    ensures { PlaysPartials timbre.entry inputs.entry phases.old out.old phases.new out.new }
{
    if timbre.set.m == 0 {
        out.fill(0.0);
    } else if timbre.set.m < 4 {
        partials_one_by_one(timbre, phases, inputs, out);
    } else {
        partials_in_columns(timbre, phases, inputs, out);
    }
}

// The inputs are the parts that the channel reads.
pub fn channel_of<'a>(timbre: Timbre<'a>, state: &mut State, inputs: Inputs<'a>, out: &mut [f32])
    requires { VoiceFits (ticking_set timbre.set.now) timbre.lists.now state.old.phases × FrequenciesFit inputs.freq.now }
    ensures { ChannelPlayed (toned timbre.entry state.old) (frequency_in inputs.entry) (gains_in inputs.entry)
        (length out.old) state.new out.new }
{
    if timbre.set.count == 0 {
        out.fill(0.0);
        return;
    }
    all_partials(timbre, &mut state.phases, inputs, out);
    let live = live_of(timbre.set);
    if live.is_empty() {
        return;
    }
    let rng = noise_pass(timbre, live, &mut state.memories, state.rng, inputs, out);
    state.rng = rng;
}
