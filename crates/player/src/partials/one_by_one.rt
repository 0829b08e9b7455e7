// The partials of a channel's samples where they are few: one after the other, with nothing laid out beforehand.
ghost use Rattle.player.specs.inner.Passes.{PartialsFit, PlaysPartials};

use crate::constants::Constants;
use crate::input::{frequency_at, gains_for};
use crate::partials::sample::sample_of;
use crate::pitch::entries::{Entries, Pitch};
use crate::timbre::Timbre;
use voice::Inputs;
use wave_table::table;

pub fn partials_one_by_one<'a>(
    timbre: Timbre<'a>,
    phases: &mut [f32; 32],
    inputs: Inputs<'a>,
    out: &mut [f32],
)
    requires { PartialsFit timbre phases.old inputs }
    ensures { PlaysPartials timbre.entry inputs.entry phases.old out.old phases.new out.new }
{
    let entries = Entries::of(timbre);
    let x = Constants::of(timbre.set);
    let wave = table();
    let mut kept: Option<Pitch> = None;
    for (i, sample) in out.iter_mut().enumerate() {
        let gains = gains_for(x.blend, inputs, i);
        let p = entries.pitch_kept(kept, frequency_at(inputs, i));
        *sample = sample_of(phases, timbre.partials, &wave, &gains, x, p);
        kept = Some(p);
    }
}
