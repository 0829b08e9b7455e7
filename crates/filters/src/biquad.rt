// Second-order band-pass filters: coefficients, memories, one sample. (A centre, a q and a sample rate stand side by side, as in the
// original's own functions: a struct of the three would be made for one call.)
ghost use Rattle.std.specs.Prelude.{◌≡◌};
ghost use Rattle.filters.specs.inner.Ranges.{Phase};
ghost use Rattle.wave_table.specs.Wave.{Table};
ghost use Rattle.filters.specs.Biquad.{turn, turn_quarter, params_of, normalized, band_pass, center_of, noise_band, cleared, tick_of};
ghost use Rattle.filters.specs.inner.Ranges.{Rate};

use crate::wave::sine;
use wave_table::table;

// Resonance of a noise band: low, so that the band is wide.
pub(crate) const NOISE_BAND_Q: f32 = 1.0;

#[repr(C)]
#[derive(Clone, Copy)]
pub struct BiquadCoeffs {
    pub b0: f32,
    pub b1: f32,
    pub b2: f32,
    pub a1: f32,
    pub a2: f32,
}

#[repr(C)]
#[derive(Clone, Copy)]
pub struct BiquadState {
    pub z1: f32,
    pub z2: f32,
}

#[derive(Clone, Copy)]
pub struct Tick {
    pub state: BiquadState,
    pub y: f32,
}

impl BiquadState {
    // The cleared filter, by the name that definitions have for it.
    pub fn new() -> Self
        ensures { result ≡ cleared }
    {
        BiquadState { z1: 0.0, z2: 0.0 }
    }

    // The filter after it beside the output: definitions speak of both as one value, which a `&mut self` would part.
    pub fn tick(mut self, x: f32, c: BiquadCoeffs) -> Tick
        ensures { result ≡ tick_of self x c }
    {
        let y = c.b0 * x + self.z1;
        self.z1 = c.b1 * x - c.a1 * y + self.z2;
        self.z2 = c.b2 * x - c.a2 * y;
        Tick { state: self, y }
    }
}

#[derive(Clone, Copy)]
struct BiquadParams {
    cos_w0: f32,
    alpha: f32,
}

fn biquad_params(t: &[u32; 257], freq: f32, q: f32, sample_rate: f32) -> BiquadParams
    requires is_table { Table t.now }
    requires sine_phase { Phase (turn freq sample_rate) }
    requires cosine_phase { Phase (turn_quarter freq sample_rate) }
    ensures { result ≡ params_of freq q sample_rate }
{
    let turn = freq / sample_rate;
    let sin_w0 = sine(t, turn);
    let cos_w0 = sine(t, turn + 0.25);
    let alpha = sin_w0 / (2.0 * q);
    BiquadParams { cos_w0, alpha }
}

// The coefficients over a0.
fn normalize(c: BiquadCoeffs, a0: f32) -> BiquadCoeffs
    ensures { result ≡ normalized c.b0 c.b1 c.b2 a0 c.a1 c.a2 }
{
    let inv_a0 = 1.0 / a0;
    BiquadCoeffs {
        b0: c.b0 * inv_a0,
        b1: c.b1 * inv_a0,
        b2: c.b2 * inv_a0,
        a1: c.a1 * inv_a0,
        a2: c.a2 * inv_a0,
    }
}

// The band-pass of 0 dB peak.
pub fn biquad_bpf_coeffs(t: &[u32; 257], freq: f32, q: f32, sample_rate: f32) -> BiquadCoeffs
    requires is_table { Table t.now }
    requires sine_phase { Phase (turn freq sample_rate) }
    requires cosine_phase { Phase (turn_quarter freq sample_rate) }
    ensures { result ≡ band_pass freq q sample_rate }
{
    let p = biquad_params(t, freq, q, sample_rate);
    let band = BiquadCoeffs {
        b0: p.alpha,
        b1: 0.0,
        b2: -p.alpha,
        a1: -2.0 * p.cos_w0,
        a2: 1.0 - p.alpha,
    };
    normalize(band, 1.0 + p.alpha)
}

pub fn band_center(raw: f32, sample_rate: f32) -> f32
    ensures { result ≡ center_of raw sample_rate }
{
    let nyquist = sample_rate * 0.5;
    float::max(float::min(raw, nyquist * 0.9), 20.0)
}

// The band whose centre is raw, held to its limits.
pub fn noise_band(raw: f32, sample_rate: f32) -> BiquadCoeffs
    requires { Rate sample_rate }
    ensures { result ≡ noise_band raw sample_rate }
{
    let wave = table();
    biquad_bpf_coeffs(
        &wave,
        band_center(raw, sample_rate),
        NOISE_BAND_Q,
        sample_rate,
    )
}
