// The noise of a sample: the number that every live band hears, and what a band adds. The columns share n: slices would need a clause that
// their lengths agree. The two that are lent to be written on stand beside what is read, and no struct holds both.
ghost use Rattle.std.specs.Prelude.{cond, ◌≡◌, ◌≤◌, ◌<◌, ◌+◌, ◌*◌, length, get_or, eqb};
ghost use Rattle.std.specs.Float.{nan};
ghost use Rattle.float.specs.F32.{◌⊕◌, ◌⊗◌};
ghost use Rattle.voice.specs.Lists.{steps};
ghost use Rattle.player.specs.inner.Ranges.{SidesIn};
ghost use Rattle.player.specs.inner.Columns.{LiveFits, band_term, Filled, FilledRows};
ghost use Rattle.player.specs.inner.Terms.{noise_added};
ghost use Rattle.filters.specs.Rng.{next_bipolar};
ghost use Rattle.player.specs.Sound.{blend_power, noise_row, noise_in};
ghost use Rattle.voice.specs.Limits.{max_entries, max_bands, max_blended};

use crate::columns::{blend, fill_terms, sum_of};
use crate::constants::Constants;
use crate::input::term_gain;
use crate::noise::bands::BandColumns;
use crate::tuning::NoiseTuning;
use filters::{Bipolar, Rng};

const UNIT_VARIANCE: f32 = 1.7320508;

// The generator steps only where a band is live.
pub fn noise_step(live_count: usize, rng: Rng) -> Bipolar
    ensures { (result.value ≡ noise_in rng) × (result.rng ≡ cond (eqb live_count 0) rng (next_bipolar rng).rng) }
{
    let next = rng.next_bipolar();
    let value = next.value * UNIT_VARIANCE;
    if live_count == 0 {
        return Bipolar { rng, value };
    }
    let after = next.rng;
    Bipolar { rng: after, value }
}

// What each live band adds.
fn band_terms<'a>(
    terms: &mut [f32; 32],
    coeffs: &'a [f32],
    noise_gain: f32,
    gain: f32,
    bands: &'a BandColumns,
    n: usize,
)
    requires { (n ≤ 32) × (n ≤ length coeffs.now) }
    ensures { Filled terms.new (λ l. band_term (get_or coeffs.now l nan) noise_gain gain
        (get_or bands.now.makeup l nan) (get_or bands.now.ys l nan)) n }
{
    fill_terms(
        terms,
        coeffs,
        n,
        |l|
            requires { (l < 32) × (l < length coeffs.now) }
            ensures { result ≡ get_or coeffs.entry.now l nan ⊗ noise_gain ⊗ gain
                ⊗ get_or bands.entry.now.makeup l nan ⊗ get_or bands.entry.now.ys l nan }
        { coeffs[l] * noise_gain * gain * bands.makeup[l] * bands.ys[l] },
    );
}

// The sample y with what the live bands add to it. Of a single voice the first row is the coefficients; of a blend the roots of the powers
// are, and what each band adds is written over the powers. Terms and powers are lent to be written on.
pub fn noise_sum<'a>(
    y: f32,
    terms: &mut [f32; 32],
    powers: &mut [f32; 32],
    tuning: &'a NoiseTuning,
    gains: &'a [f32; 4],
    x: Constants,
    bands: &'a BandColumns,
    n: usize,
) -> f32
    requires { (n ≤ max_bands) × (x.k ≤ max_blended) }
    ensures { result ≡ steps (λ l y. noise_added x tuning.now gains.now bands.now l y) y n }
{
    let gain = term_gain(x.blend, gains);
    if x.blend == 0 {
        let row = &tuning.rows[..];
        band_terms(terms, row, tuning.noise_gain, gain, bands, n);
        return sum_of(y, &terms[..n]);
    }
    blend(
        powers,
        &tuning.rows,
        gains,
        x.k,
        n,
        |share|
            ensures { result ≡ share ⊗ share }
        { share * share },
    );
    float::sqrt_each(terms, &powers[..], n);
    let coeffs = &terms[..];
    band_terms(powers, coeffs, tuning.noise_gain, gain, bands, n);
    sum_of(y, &powers[..n])
}
