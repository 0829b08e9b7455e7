// The whole part of a float as a number.
ghost use Rattle.std.specs.Prelude.{◌≡◌, ◌≤◌};
ghost use Rattle.std.specs.Float.Ieee.{to_unsigned};
ghost use Rattle.float.specs.inner.Range.{Within};

// Through u32, since a u64 is slow to turn back into a float.
pub fn whole_part(x: f32) -> u32
    requires { Within 16777216 1 x }
    ensures { (result ≡ to_unsigned 64 x) × (result ≤ 16777216) }
{
    std::num::truncating_f32_to_u64(x) as u32
}
