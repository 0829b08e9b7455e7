// Quiet windows: how loud a pole is to be at a minute of the week. No voice is asked or changed: the gain is played with.
ghost use Rattle.std.specs.Prelude.{◌≡◌, Err};
ghost use Rattle.quiet.specs.Answer.{plan_refusal};
ghost use Rattle.quiet.specs.Plan.{quiet_gain};
ghost use Rattle.sounder.specs.Answer.{refusal_answer};
ghost use Rattle.sounder.specs.Plans.{quiet_answer};

use crate::answer::{Answer, done, refusal};
use quiet::{Gain, Plan, PlanError, quiet_gain};

// Accepted: first is the window that holds the minute, or the number of windows where none does.
#[repr(C)]
#[derive(Clone, Copy)]
pub struct QuietAnswer {
    pub answer: Answer,
    pub gain: f32,
}

// A refusal, and the window that it names.
impl From<PlanError> for Answer {
    ghost from_gives = { λ e a. a ≡ refusal_answer (plan_refusal (Err e)) };

    fn from(e: PlanError) -> Answer {
        match e {
            PlanError::BadWindow(window) => refusal(18, window),
            PlanError::BadStep(window) => refusal(19, window),
            PlanError::BadMinute => refusal(20, 0),
        }
    }
}

fn plan_answer(answer: Result<Gain, PlanError>) -> QuietAnswer
    ensures { result ≡ quiet_answer answer }
{
    match answer {
        Ok(held) => QuietAnswer {
            answer: done(held.window, 0),
            gain: held.gain,
        },
        Err(e) => QuietAnswer {
            answer: Answer::from(e),
            gain: 1.0,
        },
    }
}

// The gain of a minute by a plan.
#[unsafe(no_mangle)]
pub extern "C" fn sounder_quiet_gain(plan: Plan, minute: u32) -> QuietAnswer
    ensures { result ≡ quiet_answer (quiet_gain plan minute) }
{
    plan_answer(quiet_gain(plan, minute))
}
