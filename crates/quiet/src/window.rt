// One window: what it may hold, which minutes it holds, and how loud they are.
ghost use Rattle.std.specs.Prelude.{◌≡◌};
ghost use Rattle.quiet.specs.Window.{edges_ok, step_ok, holds, step_gain};

use crate::limits::{FULL_STEP, WEEK_MINUTES};
use crate::plan::Window;

impl Window {
    // Whether both edges are minutes of the week.
    #[tactic(auto, using(std::proofs::lemmas::Bool::Decides::nat_tests), unfolding(crate::specs::Window::edges_ok))]
    pub(crate) fn edges_ok(self) -> bool
        ensures { result ≡ edges_ok self }
    {
        self.start < WEEK_MINUTES && self.end < WEEK_MINUTES
    }

    #[tactic(auto, using(std::proofs::lemmas::Bool::Decides::nat_tests), unfolding(crate::specs::Window::step_ok))]
    pub(crate) fn step_ok(self) -> bool
        ensures { result ≡ step_ok self }
    {
        self.step <= FULL_STEP
    }

    // Whether the window holds the minute.
    #[tactic(auto, using(std::proofs::lemmas::Bool::Decides::nat_tests), unfolding(crate::specs::Window::holds))]
    pub(crate) fn holds(self, minute: u32) -> bool
        ensures { result ≡ holds minute self }
    {
        if self.start <= self.end {
            return self.start <= minute && minute < self.end;
        }
        self.start <= minute || minute < self.end
    }
}

// Hundredths as a gain: one division.
pub fn step_gain(step: u32) -> f32
    ensures { result ≡ step_gain step }
{
    std::num::nearest_u32_to_f32(step) / 100.0
}
