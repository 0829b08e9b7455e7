// The power that white noise has after a band, and what makes up for it. (The centre, the q and the rate are the original's own
// arguments, which the public function keeps.)
ghost use Rattle.std.specs.Prelude.{◌≡◌, ◌<◌, true};
ghost use Rattle.filters.specs.Compensation.{ring_count, rung_power, rung, noise_power_gain, compensation_of};
ghost use Rattle.filters.specs.inner.Quiet.{is_plus_zero, quiet};

use crate::biquad::{BiquadCoeffs, BiquadState};

const PI: f32 = 3.14159274101257324219;

#[repr(C)]
#[derive(Clone, Copy)]
pub struct NoisePower {
    pub power: f32,
    pub n: u32,
}

fn ring_count(freq: f32, q: f32, sample_rate: f32) -> u32
    ensures { result ≡ ring_count freq q sample_rate }
{
    let f = float::max(freq, 1.0);
    let tau = float::max(q * sample_rate / (PI * f), 1.0);
    // a NaN counts as 0
    std::num::saturating_f32_to_u64(25.0 * tau).clamp(64, 2_000_000) as u32
}

// The power of any band rung n times, tick by tick.
fn power_by_ticks(c: BiquadCoeffs, n: u32) -> f32
    ensures { result ≡ rung_power c n }
{
    let mut state = BiquadState::new();
    let mut power: f32 = 0.0;
    let mut x: f32 = 1.0;
    for _ in 0..n {
        let t = state.tick(x, c);
        state = t.state;
        x = 0.0;
        power += t.y * t.y;
    }
    power
}

// -0 equals 0 too.
fn is_plus_zero(x: f32) -> bool
    ensures { result ≡ is_plus_zero x }
{
    x == 0.0 && x.is_sign_positive()
}

// The same of a quiet band, in half the time: from the second sample on the input is 0, and what the tick adds for it, +0, can change
// nothing but the sign of a zero. So y is z2 - a1 * (the y before), with that sign seen to beforehand, where a tick waits for four
// operations.
fn quiet_power(c: BiquadCoeffs, n: u32) -> f32
    requires is_quiet { quiet c ≡ true }
    requires some { 0 < n }
    ensures { result ≡ rung_power c n }
{
    let silent = BiquadState::new();
    let t = silent.tick(1.0, c);
    let mut power = 0.0 + t.y * t.y;
    let mut y = c.b0 * 0.0 + t.state.z1;
    let mut z2 = t.state.z2 + 0.0;
    for _ in 1..n {
        power += y * y;
        let next = z2 - c.a1 * y;
        z2 = c.b2 * 0.0 - c.a2 * y + 0.0;
        y = next;
    }
    power
}

fn is_quiet(c: BiquadCoeffs) -> bool
    ensures { result ≡ quiet c }
{
    is_plus_zero(c.b0 * 0.0) && is_plus_zero(c.b1 * 0.0)
}

// The band rung n times.
fn ring(c: BiquadCoeffs, n: u32) -> NoisePower
    ensures { result ≡ rung c n }
{
    let power = if 0 < n && is_quiet(c) {
        quiet_power(c, n)
    } else {
        power_by_ticks(c, n)
    };
    NoisePower { power, n }
}

pub fn biquad_noise_power_gain(
    freq: f32,
    q: f32,
    sample_rate: f32,
    coeffs: BiquadCoeffs,
) -> NoisePower
    ensures { result ≡ noise_power_gain freq q sample_rate coeffs }
{
    ring(coeffs, ring_count(freq, q, sample_rate))
}

pub fn noise_power_compensation(power: f32) -> f32
    ensures { result ≡ compensation_of power }
{
    1.0 / float::sqrt(float::max(power, 1e-12))
}
