// A sample rate that a voice can have.
ghost use Rattle.std.specs.Prelude.{◌≡◌};
ghost use Rattle.filters.specs.Rate.{rate_ok};

// Question 11. A NaN fails both tests.
pub fn rate_ok(rate: f32) -> bool
    ensures { result ≡ rate_ok rate }
{
    8000.0 <= rate && rate <= 192000.0
}
