// A partial that nears Nyquist fades out.
ghost use Rattle.std.specs.Prelude.{◌≡◌};
ghost use Rattle.player.specs.Fade.{nyquist_fade};

const NYQUIST_GUARD_FRACTION: f32 = 0.05;

pub fn nyquist_fade(freq: f32, nyquist: f32) -> f32
    ensures { result ≡ nyquist_fade freq nyquist }
{
    if nyquist <= 0.0 {
        return 0.0;
    }
    let guard_start = nyquist * (1.0 - NYQUIST_GUARD_FRACTION);
    if freq <= guard_start {
        1.0
    } else if freq >= nyquist {
        0.0
    } else {
        (nyquist - freq) / (nyquist - guard_start)
    }
}
