// A phase gains a step and loses its whole part.
ghost use Rattle.std.specs.Prelude.{◌≡◌, true, ◌≤◌};
ghost use Rattle.std.specs.Float.Ieee.{le};
ghost use Rattle.float.specs.F32.{quotient};
ghost use Rattle.player.specs.Phase.{advance_of, partial_freq};
ghost use Rattle.player.specs.inner.Ranges.{Step};
ghost use Rattle.voice.specs.Voice.{phase_ok};
ghost use Rattle.voice.specs.Limits.{max_partials};

use crate::partials::floor::floor;

// Most steps are small: the whole part is 0 or 1.
pub fn advance(ph: f32, inc: f32) -> f32
    requires phase_in { phase_ok ph ≡ true }
    requires step_in { Step inc }
    ensures { result ≡ advance_of ph inc }
{
    let x = ph + inc;
    if x < 1.0 {
        return x;
    }
    if x < 2.0 {
        return x - 1.0;
    }
    x - floor(x)
}

// The same where the step is not above 31/32: the sum is below 2.
pub fn advance_small(ph: f32, inc: f32) -> f32
    requires phase_in { phase_ok ph ≡ true }
    requires step_in { Step inc × (le inc (quotient 31 32) ≡ true) }
    ensures { result ≡ advance_of ph inc }
{
    let x = ph + inc;
    if x < 1.0 { x } else { x - 1.0 }
}

// The frequency of partial m, counted from 1.
pub fn partial_freq(m: u32, f0: f32, stretch: f32) -> f32
    requires { m ≤ max_partials }
    ensures { result ≡ partial_freq m f0 stretch }
{
    (m as f32) * f0 * stretch
}
