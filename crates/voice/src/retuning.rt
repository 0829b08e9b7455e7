// Retune: another sample rate for a voice that goes on, with questions 13 and 11.
ghost use Rattle.std.specs.Prelude.{◌≡◌};
ghost use Rattle.voice.specs.Answer.{call_number};
ghost use Rattle.voice.specs.Retuning.{retune_of};
ghost use Rattle.voice.specs.declared.answer.Played.{Played};

use crate::answer::CallError;
use crate::bands::init;
use crate::voice::Voice;
use filters::rate_ok;

impl Voice {
    // The rate, the bands and the compensations that `init` gives for the voice's own centres. The tone goes on. After a refusal the voice
    // is as it was.
    #[tactic(auto, unfolding(crate::specs::Question::ask, crate::specs::Retuning::retune_of, crate::specs::Retuning::rate_question))]
    pub fn retune(&mut self, sample_rate: f32) -> Result<(), CallError>
        ensures { record { number = call_number result; voice = self.new } ≡ retune_of self.old sample_rate }
    {
        if !self.keeps_rules() {
            return Err(CallError::VoiceRules);
        }
        if !rate_ok(sample_rate) {
            return Err(CallError::Rate);
        }
        let lists = init(self.lists, self.set.j, sample_rate);
        self.lists = lists;
        self.set.sample_rate = sample_rate;
        Ok(())
    }
}
