// Reset and reseed, with question 13.
ghost use Rattle.std.specs.Prelude.{◌≡◌};
ghost use Rattle.voice.specs.Answer.{call_number};
ghost use Rattle.voice.specs.Question.{ask, accepted};
ghost use Rattle.voice.specs.Restart.{reset_of, reseed_of, reseeded_state};
ghost use Rattle.voice.specs.Voice.{first_state, keeps_rules, with_state};
ghost use Rattle.voice.specs.declared.answer.Played.{Played};

use crate::answer::CallError;
use crate::voice::{State, Voice};
use filters::Rng;

// Phases and memories 0, and the default seed.
pub fn first_state() -> State
    ensures { result ≡ first_state }
{
    State {
        phases: [0.0; 32],
        memories: [0.0; 32],
        rng: Rng::default(),
    }
}

// The seed is taken, the memories are 0, the phases kept.
fn reseeded(state: State, seed: u32) -> State
    ensures { result ≡ reseeded_state state seed }
{
    let phases = state.phases;
    State {
        phases,
        memories: [0.0; 32],
        rng: Rng::new(seed),
    }
}

impl Voice {
    // Another running state, after question 13. Where that is answered no, the voice stays as it is.
    #[tactic(auto, unfolding(crate::specs::Question::ask))]
    fn restart(&mut self, after: State) -> Result<(), CallError>
        ensures number { call_number result ≡ ask (keeps_rules self.old) 13 0 }
        ensures voice { self.new ≡ accepted (ask (keeps_rules self.old) 13 0) (with_state self.old after) self.old }
    {
        if !self.keeps_rules() {
            return Err(CallError::VoiceRules);
        }
        self.state = after;
        Ok(())
    }

    // The state that a fresh voice has.
    #[tactic(auto, unfolding(crate::specs::Restart::reset_of))]
    pub fn reset(&mut self) -> Result<(), CallError>
        ensures { record { number = call_number result; voice = self.new } ≡ reset_of self.old }
    {
        self.restart(first_state())
    }

    // The noise starts anew from the seed. The phases go on.
    #[tactic(auto, unfolding(crate::specs::Restart::reseed_of))]
    pub fn reseed(&mut self, seed: u32) -> Result<(), CallError>
        ensures { record { number = call_number result; voice = self.new } ≡ reseed_of self.old seed }
    {
        self.restart(reseeded(self.state, seed))
    }
}
