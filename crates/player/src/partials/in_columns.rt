// The partials of a channel's samples. What a frequency decides is worked out once while it stays; the partials of a sample are worked
// out in columns, one step of all of them after the other. `terms` and `coeffs` are only worked in.
ghost use Rattle.player.specs.inner.Passes.{PartialsFit, PlaysPartials};

use crate::constants::Constants;
use crate::input::{frequency_at, gains_at};
use crate::partials::phases::move_phases;
use crate::partials::sines::Sines;
use crate::partials::sum::partial_sum;
use crate::pitch::entries::Entries;
use crate::timbre::Timbre;
use crate::tuning::Tuning;
use voice::Inputs;
use wave_table::waves;

pub fn partials_in_columns<'a>(
    timbre: Timbre<'a>,
    phases: &mut [f32; 32],
    inputs: Inputs<'a>,
    out: &mut [f32],
)
    requires { PartialsFit timbre phases.old inputs }
    ensures { PlaysPartials timbre.entry inputs.entry phases.old out.old phases.new out.new }
{
    let entries = Entries::of(timbre);
    let x = Constants::of(timbre.set);
    let wave = waves();
    let mut terms: [f32; 32] = [0.0; 32];
    let mut coeffs: [f32; 32] = [0.0; 32];
    let mut tuning = Tuning::default();
    let mut sines = Sines::default();
    for (i, sample) in out.iter_mut().enumerate() {
        let gains = gains_at(inputs, i);
        tuning.tune(frequency_at(inputs, i), x, &entries, timbre.partials);
        move_phases(phases, &tuning, x.m);
        sines.look_up(phases, &wave, x.m);
        *sample = partial_sum(&mut terms, &mut coeffs, &tuning, &gains, &sines.values, x);
    }
}
