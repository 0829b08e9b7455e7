// Quiet windows: how loud a pole is to be at a minute of the week, by a planner's windows. A plan knows nothing of voices: its answer is a
// gain, which the caller plays with.
#![tactic(auto)]

mod answer;
mod gain;
mod limits;
mod plan;
mod window;

pub use answer::{Gain, PlanError};
pub use gain::quiet_gain;
pub use limits::{FULL_STEP, MAX_WINDOWS, WEEK_MINUTES};
pub use plan::{Plan, Window};
