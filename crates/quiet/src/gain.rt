// The gain of a minute by a plan, or the question that the plan or the minute does not pass.
ghost use Rattle.std.specs.Prelude.{◌≡◌, not};
ghost use Rattle.std.specs.List.{position};
ghost use Rattle.quiet.specs.Window.{edges_ok, step_ok, holds};
ghost use Rattle.quiet.specs.Plan.{windows_answer, quiet_gain};

use crate::answer::{Gain, PlanError};
use crate::limits::{MAX_WINDOWS, WEEK_MINUTES};
use crate::plan::{Plan, Window};
use crate::window::step_gain;

// The first window with an edge that is no minute of the week. (This and the next two are one line each: one function over a closure for
// the test would promise no search by its name.)
fn first_bad_edge(windows: &[Window]) -> Option<usize>
    ensures { result ≡ position (λ v. not (edges_ok v)) windows.now }
{
    windows.iter().position(|v| !v.edges_ok())
}

// The first whose step is above 100.
fn first_bad_step(windows: &[Window]) -> Option<usize>
    ensures { result ≡ position (λ v. not (step_ok v)) windows.now }
{
    windows.iter().position(|v| !v.step_ok())
}

// The first that holds the minute.
fn first_holding(windows: &[Window], minute: u32) -> Option<usize>
    ensures { result ≡ position (holds minute) windows.now }
{
    windows.iter().position(|v| v.holds(minute))
}

// The questions of the edges, of the steps and of the minute, each of all windows before the next; then the first window that holds the
// minute gives its gain. The windows are looked through three times at most, whatever they hold.
#[tactic(auto, using(crate::proofs::AnswerLaws::edge_first))]
fn windows_gain(windows: &[Window], minute: u32) -> Result<Gain, PlanError>
    ensures { result ≡ windows_answer windows.now minute }
{
    if let Some(window) = first_bad_edge(windows) {
        return Err(PlanError::BadWindow(window));
    }
    if let Some(window) = first_bad_step(windows) {
        return Err(PlanError::BadStep(window));
    }
    if WEEK_MINUTES <= minute {
        return Err(PlanError::BadMinute);
    }
    match first_holding(windows, minute) {
        Some(window) => Ok(Gain {
            window,
            gain: step_gain(windows[window].step),
        }),
        None => Ok(Gain {
            window: windows.len(),
            gain: 1.0,
        }),
    }
}

// More than 64 windows are refused before any is looked at; of the places past the count none is.
#[tactic(auto, using(std::proofs::lemmas::Bool::Decides::nat_tests), unfolding(crate::specs::Plan::quiet_gain))]
pub fn quiet_gain(plan: Plan, minute: u32) -> Result<Gain, PlanError>
    ensures { result ≡ quiet_gain plan minute }
{
    let count = plan.count as usize;
    if MAX_WINDOWS < count {
        return Err(PlanError::BadWindow(MAX_WINDOWS));
    }
    windows_gain(&plan.windows[..count], minute)
}
