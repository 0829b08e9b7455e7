// What the live bands add to a channel's samples, in columns: place l of a column belongs to live band l.
// `terms` and `powers` are only worked in.
ghost use Rattle.std.specs.Prelude.{◌≡◌, ◌≤◌, length};
ghost use Rattle.player.specs.Bands.{ticking_set};
ghost use Rattle.player.specs.inner.Passes.{EntriesFit, LiveFit, LiveOf, FrequenciesFit, NoisePlayed, frequency_in, gains_in, noise_of};

use crate::constants::Constants;
use crate::input::{frequency_at, gains_at};
use crate::noise::bands::BandColumns;
use crate::noise::sum::{noise_step, noise_sum};
use crate::pitch::entries::Entries;
use crate::timbre::Timbre;
use crate::tuning::NoiseTuning;
use filters::Rng;
use voice::Inputs;

pub fn noise_pass<'a>(
    timbre: Timbre<'a>,
    live: &[u8],
    memories: &mut [f32; 32],
    first: Rng,
    inputs: Inputs<'a>,
    out: &mut [f32],
) -> Rng
    requires { EntriesFit timbre.set.now timbre.lists.now × LiveFit (ticking_set timbre.set.now) × LiveOf timbre.set.now live.now
        × (1 ≤ timbre.set.now.count) × FrequenciesFit inputs.freq.now }
    ensures { NoisePlayed (noise_of timbre.entry memories.old first) (frequency_in inputs.entry) (gains_in inputs.entry)
        out.old (length out.old) result memories.new out.new }
{
    let entries = Entries::of(timbre);
    let x = Constants::of(timbre.set);
    let n = live.len();
    let mut bands = BandColumns::default();
    let mut terms: [f32; 32] = [0.0; 32];
    let mut powers: [f32; 32] = [0.0; 32];
    let mut tuning = NoiseTuning::default();
    let mut rng = first;
    bands.gather(timbre.lists, memories, live);
    for (i, sample) in out.iter_mut().enumerate() {
        let gains = gains_at(inputs, i);
        tuning.tune(frequency_at(inputs, i), x, &entries, timbre.noise, live);
        let next = noise_step(n, rng);
        rng = next.rng;
        bands.tick(next.value, n);
        *sample = noise_sum(
            *sample,
            &mut terms,
            &mut powers,
            &tuning,
            &gains,
            x,
            &bands,
            n,
        );
    }
    bands.scatter(memories, live);
    rng
}
