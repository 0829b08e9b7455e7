// What kind of float a value or a bit pattern is.
ghost use Rattle.std.specs.Prelude.{◌≡◌};
ghost use Rattle.std.specs.Float.{binary32};
ghost use Rattle.std.specs.Float.Ieee.{of_bits};
ghost use Rattle.std.specs.Float.Ieee.Scale.{finite};

// Neither a NaN nor an infinity.
pub fn is_finite(x: f32) -> bool
    ensures { result ≡ finite x }
{
    x.is_finite()
}

// The float of 32 bits. Every pattern of a NaN gives NaN, for which `f32::from_bits` is not defined.
pub fn from_bits(n: u32) -> f32
    ensures { result ≡ of_bits binary32 n }
{
    if 0x7f80_0000 < n % 0x8000_0000 {
        f32::NAN
    } else {
        f32::from_bits(n)
    }
}
