// Linear interpolation.
ghost use Rattle.std.specs.Prelude.{◌≡◌};
ghost use Rattle.float.specs.Lerp.{lerp as Lerp·lerp};

// a at t = 0, and about b at t = 1: each operation is rounded.
pub fn lerp(a: f32, b: f32, t: f32) -> f32
    ensures { result ≡ Lerp·lerp a b t }
{
    a + t * (b - a)
}
