// Noise numbers. The state goes in by value and comes back beside the output.
ghost use Rattle.std.specs.Prelude.{◌≡◌};
ghost use Rattle.filters.specs.Rng.{stepped, bipolar_of, new_rng, default_seed, next_bipolar};

const PARTIALS_NOISE_DEFAULT_SEED: u32 = 0x9A27_1E55;

#[repr(C)]
#[derive(Clone, Copy)]
pub struct Rng {
    pub state: u32,
}

#[derive(Clone, Copy)]
pub struct Bipolar {
    pub rng: Rng,
    pub value: f32,
}

impl Rng {
    pub fn new(seed: u32) -> Self
        ensures { result ≡ new_rng seed }
    {
        Rng {
            state: seed.wrapping_add(1),
        }
    }

    // The state after it beside the output: definitions speak of both as one value, which a `&mut self` would part.
    pub fn next_bipolar(mut self) -> Bipolar
        ensures { result ≡ next_bipolar self }
    {
        self.state = step(self.state);
        let value = scaled(self.state);
        Bipolar { rng: self, value }
    }
}

// The generator of a voice that was not given a seed.
impl Default for Rng {
    ghost is_default = { λ g. g ≡ new_rng default_seed };

    fn default() -> Rng {
        Rng::new(PARTIALS_NOISE_DEFAULT_SEED)
    }
}

fn step(s: u32) -> u32
    ensures { result ≡ stepped s }
{
    s.wrapping_mul(1664525).wrapping_add(1013904223)
}

// A product with 2^-31 is the quotient by 2^31, and quicker.
fn scaled(s: u32) -> f32
    ensures { result ≡ bipolar_of s }
{
    std::num::nearest_i32_to_f32(s.cast_signed()) * 4.656612873077392578125e-10
}
