// Quiet windows: how loud a pole is to be at a minute of the week.
ghost use Rattle.std.specs.Prelude.{◌≡◌};
ghost use Rattle.quiet.specs.Plan.{quiet_gain};
ghost use Rattle.sounder.specs.Plans.{quiet_answer};

use quiet::Plan;
use sounder::{QuietAnswer, plans};

// The gain of a minute by a plan.
#[unsafe(no_mangle)]
pub extern "C" fn sounder_quiet_gain(plan: Plan, minute: u32) -> QuietAnswer
    ensures { result ≡ quiet_answer (quiet_gain plan minute) }
{
    plans::sounder_quiet_gain(plan, minute)
}
