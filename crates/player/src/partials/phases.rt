// The phases of a voice, each moved by its step. Phases and steps share m: slices would need a clause that their lengths agree.
ghost use Rattle.std.specs.Prelude.{◌≡◌, true, ◌≤◌, get_or};
ghost use Rattle.std.specs.Float.{nan};
ghost use Rattle.std.specs.Float.Ieee.{le};
ghost use Rattle.float.specs.F32.{quotient};
ghost use Rattle.voice.specs.Lists.{every, map_to};
ghost use Rattle.player.specs.Phase.{advance_of};
ghost use Rattle.player.specs.inner.Ranges.{AllSteps};
ghost use Rattle.voice.specs.Voice.{phases_ok};
ghost use Rattle.voice.specs.Limits.{max_partials};

use crate::partials::phase::{advance, advance_small};
use crate::tuning::Tuning;

// SMALL says that no step is above 31/32: then every sum is below 2, and needs one comparison and no floor.
fn move_each<const SMALL: bool>(phases: &mut [f32; 32], incs: &[f32; 32], m: usize)
    requires { (m ≤ max_partials) × (phases_ok phases.old m ≡ true) × AllSteps incs.now m
        × (SMALL ≡ true → every (λ i. le (get_or incs.now i nan) (quotient 31 32)) m ≡ true) }
    ensures { phases.new ≡ map_to (λ i p. advance_of p (get_or incs.now i nan)) 0 m phases.old }
{
    for i in 0..m {
        phases[i] = if SMALL {
            advance_small(phases[i], incs[i])
        } else {
            advance(phases[i], incs[i])
        };
    }
}

// Each by the step that the tuning says.
pub fn move_phases(phases: &mut [f32; 32], tuning: &Tuning, m: usize)
    requires { (m ≤ max_partials) × (phases_ok phases.old m ≡ true) × AllSteps tuning.now.incs m
        × (tuning.now.small ≡ true → every (λ i. le (get_or tuning.now.incs i nan) (quotient 31 32)) m ≡ true) }
    ensures { phases.new ≡ map_to (λ i p. advance_of p (get_or tuning.now.incs i nan)) 0 m phases.old }
{
    if tuning.small {
        move_each::<true>(phases, &tuning.incs, m);
    } else {
        move_each::<false>(phases, &tuning.incs, m);
    }
}
