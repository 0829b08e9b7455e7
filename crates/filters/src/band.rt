// A band of a voice, from its centre and the sample rate.
ghost use Rattle.std.specs.Prelude.{◌≡◌};
ghost use Rattle.filters.specs.inner.Ranges.{Rate};
ghost use Rattle.filters.specs.Biquad.{noise_band};
ghost use Rattle.filters.specs.Band.{zero_coeffs, band_compensation, band_from};
ghost use Rattle.filters.specs.declared.band.Band.{Band};

use crate::biquad::{BiquadCoeffs, NOISE_BAND_Q, band_center, noise_band};
use crate::compensation::{biquad_noise_power_gain, noise_power_compensation};
use crate::rate::rate_ok;

#[repr(C)]
#[derive(Clone, Copy)]
pub struct Band {
    pub coeffs: BiquadCoeffs,
    pub compensation: f32,
}

fn compensation_of(coeffs: BiquadCoeffs, raw: f32, sample_rate: f32) -> f32
    requires { coeffs ≡ noise_band raw sample_rate }
    ensures { result ≡ band_compensation raw sample_rate }
{
    let center = band_center(raw, sample_rate);
    let gain = biquad_noise_power_gain(center, NOISE_BAND_Q, sample_rate, coeffs);
    noise_power_compensation(gain.power)
}

fn band_of(raw: f32, sample_rate: f32) -> Band
    requires { Rate sample_rate }
    ensures { result ≡ record { coeffs = noise_band raw sample_rate; compensation = band_compensation raw sample_rate } }
{
    let coeffs = noise_band(raw, sample_rate);
    let compensation = compensation_of(coeffs, raw, sample_rate);
    Band {
        coeffs,
        compensation,
    }
}

// The band that lets nothing through. (By the name that definitions have for it: a `Default` would say its floats one by one.)
pub fn zero_coeffs() -> BiquadCoeffs
    ensures { result ≡ zero_coeffs }
{
    BiquadCoeffs {
        b0: 0.0,
        b1: 0.0,
        b2: 0.0,
        a1: 0.0,
        a2: 0.0,
    }
}

// The band whose centre is raw, which is held to its limits; all zero at a rate that no voice can have.
#[tactic(auto, unfolding(crate::specs::Band::band_from))]
pub fn init_band(raw: f32, sample_rate: f32) -> Band
    ensures { result ≡ band_from raw sample_rate }
{
    if rate_ok(sample_rate) {
        return band_of(raw, sample_rate);
    }
    Band {
        coeffs: zero_coeffs(),
        compensation: 0.0,
    }
}
