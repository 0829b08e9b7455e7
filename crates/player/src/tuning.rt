// What a frequency decides: the steps and fades of the partials, and the coefficients between its two sides.
// It is kept while the frequency stays. The columns share m: slices would need a clause that their lengths agree. The rows are tables of 32
// places a row, of which k rows of m places are in use, and no slice is just these.
ghost use Rattle.std.specs.Prelude.{◌≡◌, true, ◌≤◌, ◌<◌, ◌+◌, length, get_or, Float};
ghost use Rattle.std.specs.Float.{nan};
ghost use Rattle.std.specs.Float.Ieee.{eq};
ghost use Rattle.float.specs.inner.Range.{Within};
ghost use Rattle.player.specs.Phase.{partial_freq, step_of};
ghost use Rattle.player.specs.Fade.{nyquist_fade};
ghost use Rattle.player.specs.inner.Ranges.{SidesIn};
ghost use Rattle.player.specs.inner.Columns.{LiveFits, Filled, FilledRows};
ghost use Rattle.player.specs.Sound.{partial_row, noise_row};
ghost use Rattle.player.specs.inner.Tuning.{SidesFit, PitchFits, Tuned, NoiseTuned};
ghost use Rattle.voice.specs.Limits.{max_entries, max_partials, max_blended};

use crate::columns::{all_up_to, fill_rows};
use crate::constants::Constants;
use crate::partials::fade::nyquist_fade;
use crate::partials::phase::partial_freq;
use crate::pitch::bracket::{Sides, place_between, value_between};
use crate::pitch::entries::Entries;
use voice::band_of;

// What a frequency decides of the partials, in columns. It is kept while the frequency stays.
#[derive(Clone, Copy, Default)]
pub struct Tuning {
    f0: Option<f32>, // the frequency, once there is one
    freqs: [f32; 32], // only worked in
    pub mainlobe: f32,
    pub small: bool, // no step is above 31/32: decided with the columns, and says which of two loops moves the phases
    pub incs: [f32; 32],
    pub fades: [f32; 32],
    pub rows: [f32; 128],
}

// What a frequency decides of the live bands, in the same way.
#[derive(Clone, Copy, Default)]
pub struct NoiseTuning {
    f0: Option<f32>,
    pub noise_gain: f32,
    pub rows: [f32; 128],
}

// The partials' frequencies, and what each phase gains in a sample.
fn steps_of(freqs: &mut [f32; 32], incs: &mut [f32; 32], m: usize, f0: f32, stretch: f32, inv: f32)
    requires { m ≤ max_partials }
    ensures frequencies { Filled freqs.new (λ i. partial_freq (i + 1) f0 stretch) m }
    ensures steps { Filled incs.new (λ i. step_of (i + 1) f0 stretch inv) m }
{
    for i in 0..m {
        let freq = partial_freq((i + 1) as u32, f0, stretch);
        freqs[i] = freq;
        incs[i] = freq * inv;
    }
}

fn fades_of(fades: &mut [f32; 32], freqs: &[f32; 32], m: usize, nyquist: f32)
    requires { m ≤ max_partials }
    ensures { Filled fades.new (λ i. nyquist_fade (get_or freqs.now i nan) nyquist) m }
{
    for i in 0..m {
        fades[i] = nyquist_fade(freqs[i], nyquist);
    }
}

// Each channel's coefficients between the two sides.
fn rows_of(rows: &mut [f32; 128], partials: &[f32; 2048], s: Sides, k: usize, m: usize)
    requires { SidesIn max_entries s × (k ≤ max_blended) × (m ≤ max_partials) }
    ensures { FilledRows rows.new (λ q i. partial_row partials.now s q i) k m }
{
    fill_rows(
        &mut rows[..],
        k,
        m,
        |q, i|
            requires { SidesIn max_entries s × (q < max_blended) × (i < max_partials) }
            ensures { result ≡ partial_row partials.entry.now s q i }
        { place_between(&partials[..], s, 128, q * 32 + i) },
    );
}

// Each channel's coefficients of the live bands.
fn noise_rows(rows: &mut [f32; 128], noise: &[f32; 1024], live: &[u8], s: Sides, k: usize)
    requires { SidesIn max_entries s × (k ≤ max_blended) × LiveFits live.now }
    ensures { FilledRows rows.new (λ q l. noise_row noise.now s q (get_or live.now l 0)) k (length live.now) }
{
    fill_rows(
        &mut rows[..],
        k,
        live.len(),
        |q, l|
            requires { SidesIn max_entries s × LiveFits live.now × (q < max_blended) × (l < length live.now) }
            ensures { result ≡ noise_row noise.entry.now s q (get_or live.entry.now l 0) }
        { place_between(&noise[..], s, 64, q * 16 + band_of(live[l])) },
    );
}

impl Tuning {
    // The columns for the frequency f0.
    pub fn tune(&mut self, f0: f32, x: Constants, entries: &Entries, partials: &[f32; 2048])
        requires entries_in { PitchFits entries.now f0 }
        requires counts_in { (x.m ≤ max_partials) × (x.k ≤ max_blended) × Within 1 4096 x.inv }
        requires kept { (was : Float) → self.old.f0 ≡ Some was → eq f0 was ≡ true → Tuned x entries.now partials.now f0 self.old }
        ensures { Tuned x entries.now partials.now f0 self.new }
    {
        if self.f0.is_some_and(|was| f0 == was) {
            return;
        }
        let p = entries.pitch_at(f0);
        steps_of(&mut self.freqs, &mut self.incs, x.m, f0, p.stretch, x.inv);
        fades_of(&mut self.fades, &self.freqs, x.m, x.nyquist);
        rows_of(&mut self.rows, partials, p.s, x.rows(), x.m);
        self.mainlobe = p.mainlobe;
        self.small = all_up_to(&self.incs[..x.m], 0.96875);
        self.f0 = Some(f0);
    }
}

impl NoiseTuning {
    // The live bands' columns for the frequency f0.
    pub fn tune(
        &mut self,
        f0: f32,
        x: Constants,
        entries: &Entries,
        noise: &[f32; 1024],
        live: &[u8],
    )
        requires entries_in { SidesFit entries.now f0 }
        requires counts_in { (x.k ≤ max_blended) × LiveFits live.now }
        requires kept { (was : Float) → self.old.f0 ≡ Some was → eq f0 was ≡ true
            → NoiseTuned x entries.now noise.now live.now f0 self.old }
        ensures { NoiseTuned x entries.now noise.now live.now f0 self.new }
    {
        if self.f0.is_some_and(|was| f0 == was) {
            return;
        }
        let s = entries.sides_at(f0);
        noise_rows(&mut self.rows, noise, live, s, x.rows());
        self.noise_gain = value_between(&entries.noise_gain, s);
        self.f0 = Some(f0);
    }
}
