// Noise and the bands that it passes, one sample at a time: noise numbers, band-pass filters, and what makes up for the power that a band
// takes away; and the wave that stands for a sine.
#![tactic(auto)]

mod band;
mod biquad;
mod compensation;
mod rate;
mod rng;
mod wave;
mod whole;

pub use band::{Band, init_band, zero_coeffs};
pub use biquad::{BiquadCoeffs, BiquadState, Tick};
pub use compensation::{NoisePower, biquad_noise_power_gain};
pub use rate::rate_ok;
pub use rng::{Bipolar, Rng};
pub use wave::sine;
