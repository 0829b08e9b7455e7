// What stays the same through a channel: which partials sound, and by what rate.
ghost use Rattle.std.specs.Prelude.{◌≡◌, ◌≤◌};
ghost use Rattle.voice.specs.Limits.{max_blended};
ghost use Rattle.player.specs.inner.Tuning.{constants_at, rows_in};

use voice::Setting;

// `blend` is the setting's own number, which the definitions of a sample ask: of a choice by an enum each of them would have to be turned
// back, and it would be no plainer.
#[derive(Clone, Copy)]
pub struct Constants {
    pub blend: u32, // 0: a single voice
    pub k: usize,
    pub m: usize,
    pub inv: f32, // 1 / rate
    pub nyquist: f32,
}

impl Constants {
    pub fn of(set: &Setting) -> Constants
        ensures { result ≡ constants_at set.now }
    {
        Constants {
            blend: set.blend,
            k: set.k,
            m: set.m,
            inv: 1.0 / set.sample_rate,
            nyquist: set.sample_rate * 0.5,
        }
    }

    // A single voice has one row of coefficients, a blend one for each channel.
    pub fn rows(self) -> usize
        requires { self.k ≤ max_blended }
        ensures { (result ≡ rows_in self) × (result ≤ max_blended) }
    {
        if self.blend == 0 { 1 } else { self.k }
    }
}
