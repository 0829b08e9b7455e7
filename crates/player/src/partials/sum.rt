// The sum of the partials, of a single voice or of a blend. The columns share m: slices would need a clause that their lengths agree. The
// two that are lent to be written on stand beside what is read, and no struct holds both.
ghost use Rattle.std.specs.Prelude.{◌≡◌, ◌≤◌, ◌<◌, length, get_or};
ghost use Rattle.std.specs.Float.{nan};
ghost use Rattle.float.specs.F32.{◌⊗◌, quotient};
ghost use Rattle.voice.specs.Limits.{max_partials, max_blended};
ghost use Rattle.voice.specs.Lists.{steps};
ghost use Rattle.player.specs.inner.Columns.{audible, Filled};
ghost use Rattle.player.specs.inner.Terms.{partial_added};

use crate::columns::{blend, fill_terms, sum_of};
use crate::constants::Constants;
use crate::input::term_gain;
use crate::tuning::Tuning;

// What each partial adds.
fn partial_terms<'a>(
    terms: &mut [f32; 32],
    coeffs: &'a [f32],
    tuning: &'a Tuning,
    gain: f32,
    sines: &'a [f32; 32],
    m: usize,
)
    requires { (m ≤ max_partials) × (m ≤ length coeffs.now) }
    ensures { Filled terms.new (λ i. audible (get_or coeffs.now i nan)
        (get_or coeffs.now i nan ⊗ tuning.now.mainlobe ⊗ get_or tuning.now.fades i nan ⊗ gain ⊗ get_or sines.now i nan)) m }
{
    fill_terms(
        terms,
        coeffs,
        m,
        |i|
            requires { (i < max_partials) × (i < length coeffs.now) }
            ensures { result ≡ get_or coeffs.entry.now i nan ⊗ tuning.entry.now.mainlobe ⊗ get_or tuning.entry.now.fades i nan ⊗ gain
                ⊗ get_or sines.entry.now i nan }
        { coeffs[i] * tuning.mainlobe * tuning.fades[i] * gain * sines[i] },
    );
}

// The sum. Of a single voice the first row is the coefficients. `terms` and `coeffs` are lent to work in.
pub fn partial_sum<'a>(
    terms: &mut [f32; 32],
    coeffs: &mut [f32; 32],
    tuning: &'a Tuning,
    gains: &'a [f32; 4],
    sines: &'a [f32; 32],
    x: Constants,
) -> f32
    requires { (x.k ≤ max_blended) × (x.m ≤ max_partials) }
    ensures { result ≡ steps (λ i y. partial_added x tuning.now gains.now sines.now i y) (quotient 0 1) x.m }
{
    let gain = term_gain(x.blend, gains);
    if x.blend == 0 {
        let row = &tuning.rows[..];
        partial_terms(terms, row, tuning, gain, sines, x.m);
        return sum_of(0.0, &terms[..x.m]);
    }
    blend(
        coeffs,
        &tuning.rows,
        gains,
        x.k,
        x.m,
        |share|
            ensures { result ≡ share }
        { share },
    );
    let blended = &coeffs[..];
    partial_terms(terms, blended, tuning, gain, sines, x.m);
    sum_of(0.0, &terms[..x.m])
}
