// The partials of a sample one after the other: every phase moves, and those with a coefficient sound.
// What they are worked out from is handed side by side, as it lies in the voice, in the table of the wave and in the inputs: the other way
// holds its columns in structs, and here nothing is laid out beforehand.
ghost use Rattle.std.specs.Prelude.{◌≡◌, true, ◌≤◌, ◌<◌, ◌+◌, length};
ghost use Rattle.float.specs.inner.Range.{Within};
ghost use Rattle.float.specs.F32.{quotient};
ghost use Rattle.voice.specs.Lists.{map_to, steps};
ghost use Rattle.wave_table.specs.Wave.{Table};
ghost use Rattle.player.specs.Fade.{nyquist_fade};
ghost use Rattle.player.specs.Phase.{advance_of, step_of};
ghost use Rattle.player.specs.inner.Ranges.{Phase};
ghost use Rattle.voice.specs.Voice.{phases_ok};
ghost use Rattle.player.specs.inner.Ranges.{SidesIn};
ghost use Rattle.player.specs.Sound.{add_single, blend_coeff, partial_row};
ghost use Rattle.player.specs.inner.Terms.{sample_coeff, sample_added};
ghost use Rattle.voice.specs.Limits.{max_entries, max_partials, max_blended, max_hz};

use crate::constants::Constants;
use crate::input::term_gain;
use crate::partials::fade::nyquist_fade;
use crate::partials::phase::{advance, partial_freq};
use crate::pitch::bracket::{Sides, place_between};
use crate::pitch::entries::Pitch;
use filters::sine;

// The sum of the gains times the coefficients of partial i, over as many channels as there are gains.
fn blend_coeff(partials: &[f32; 2048], gains: &[f32], s: Sides, i: usize) -> f32
    requires sides_in { SidesIn max_entries s }
    requires places_in { (length gains.now ≤ max_blended) × (i < max_partials) }
    ensures { result ≡ blend_coeff (λ q. partial_row partials.now s q i) gains.now (length gains.now) }
{
    let mut y: f32 = 0.0;
    for (q, gain) in gains.iter().enumerate() {
        y += *gain * place_between(&partials[..], s, 128, q * 32 + i);
    }
    y
}

// The coefficient of partial i: of a single voice its row's.
fn partial_coeff(x: Constants, partials: &[f32; 2048], gains: &[f32; 4], s: Sides, i: usize) -> f32
    requires sides_in { SidesIn max_entries s }
    requires places_in { (x.k ≤ max_blended) × (i < max_partials) }
    ensures { result ≡ sample_coeff x.blend x.k (λ q. partial_row partials.now s q i) gains.now }
{
    if x.blend == 0 {
        return place_between(&partials[..], s, 128, i);
    }
    blend_coeff(partials, &gains[..x.k], s, i)
}

// The fade and the sine are worked out only where they are audible.
fn add_partial(
    wave: &[u32; 257],
    y: f32,
    coeff: f32,
    x: Constants,
    p: Pitch,
    freq: f32,
    gain: f32,
    phase: f32,
) -> f32
    requires table_is { Table wave.now }
    requires phase_in { Phase phase }
    ensures { result ≡ add_single y coeff p.mainlobe (nyquist_fade freq x.nyquist) gain phase }
{
    if coeff != 0.0 {
        y + coeff * p.mainlobe * nyquist_fade(freq, x.nyquist) * gain * sine(wave, phase)
    } else {
        y
    }
}

// Their sum, at what the frequency decides of the sample.
pub fn sample_of<'a>(
    phases: &mut [f32; 32],
    partials: &'a [f32; 2048],
    wave: &'a [u32; 257],
    gains: &'a [f32; 4],
    x: Constants,
    p: Pitch,
) -> f32
    requires table { Table wave.now × SidesIn max_entries p.s × (x.k ≤ max_blended) × (x.m ≤ max_partials)
        × (phases_ok phases.old x.m ≡ true) }
    requires within { Within max_hz 1 p.f0 × Within 8 1 p.stretch × Within 1 4096 x.inv }
    ensures value { result ≡ steps
        (λ i y. sample_added x p partials.now gains.now phases.old i y) (quotient 0 1) x.m }
    ensures phases_after { phases.new ≡ map_to (λ i ph. advance_of ph (step_of (i + 1) p.f0 p.stretch x.inv)) 0 x.m
        phases.old }
{
    let gain = term_gain(x.blend, gains);
    let mut y: f32 = 0.0;
    for i in 0..x.m {
        let freq = partial_freq((i + 1) as u32, p.f0, p.stretch);
        let phase = advance(phases[i], freq * x.inv);
        phases[i] = phase;
        let coeff = partial_coeff(x, partials, gains, p.s, i);
        y = add_partial(wave, y, coeff, x, p, freq, gain, phase);
    }
    y
}
