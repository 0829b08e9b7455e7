// What a call on a voice answers.
ghost use Rattle.std.specs.Prelude.{◌≡◌};
ghost use Rattle.voice.specs.Answer.{error_number};

use crate::voice::Voice;

// Which question was answered no.
#[derive(Clone, Copy, Debug, PartialEq, Eq)]
pub enum CallError {
    VoiceRules, // 13: the voice breaks the voice rules
    Rate, // 11: a retune's sample rate is not 8,000 to 192,000
    Output, // 14: the output is no block
    Input, // 15: an input does not fit the block
    Frequency, // 16: a finite frequency is above 20,000
}

// The question's number.
impl From<CallError> for u32 {
    ghost from_gives = { λ e n. n ≡ error_number e };

    fn from(e: CallError) -> u32 {
        match e {
            CallError::VoiceRules => 13,
            CallError::Rate => 11,
            CallError::Output => 14,
            CallError::Input => 15,
            CallError::Frequency => 16,
        }
    }
}

// 0, or the number of the question that was answered no (11: a retune's sample rate is not 8,000 to 192,000; 13: the voice breaks the voice
// rules; 14: the output is no block; 15: an input does not fit the block; 16: a finite frequency is above 20,000); and the voice, which is
// then as given. It crosses to C as it is.
#[repr(C)]
#[derive(Clone, Copy)]
pub struct Played {
    pub number: u32,
    pub voice: Voice,
}
