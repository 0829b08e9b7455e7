// Answers as numbers.
ghost use Rattle.std.specs.Prelude.{◌≡◌};
ghost use Rattle.table.specs.Answer.{refusal_of};
ghost use Rattle.voice.specs.Answer.{call_number};
ghost use Rattle.sounder.specs.Answer.{refusal_answer, done};

use table::error::CoeffTableCodecError;
use voice::CallError;

// The number of the question that was answered no, with the values that it names (0 where it names none).
// Of an accepted call the number is 0, and the values are those of the call.
#[repr(C)]
#[derive(Clone, Copy)]
pub struct Answer {
    pub number: u32,
    pub first: usize,
    pub second: usize,
}

// An accepted call's, with its values.
pub fn done(first: usize, second: usize) -> Answer
    ensures { result ≡ done first second }
{
    Answer {
        number: 0,
        first,
        second,
    }
}

// A refusal's that names one value, or none (0).
pub fn refusal(number: u32, first: usize) -> Answer
    ensures { result ≡ record { number = number; first = first; second = 0 } }
{
    Answer {
        number,
        first,
        second: 0,
    }
}

// Why an image is refused, as numbers.
impl From<CoeffTableCodecError> for Answer {
    ghost from_gives = { λ e a. a ≡ refusal_answer (refusal_of e) };

    fn from(e: CoeffTableCodecError) -> Answer {
        match e {
            CoeffTableCodecError::TooLong => refusal(1, 0),
            CoeffTableCodecError::UnexpectedEof => refusal(2, 0),
            CoeffTableCodecError::BadMagic => refusal(3, 0),
            CoeffTableCodecError::UnsupportedVersion(version) => refusal(4, version as usize),
            CoeffTableCodecError::BadUtf8 => refusal(5, 0),
            CoeffTableCodecError::MalformedEntry(index) => refusal(6, index),
            CoeffTableCodecError::InconsistentNoiseBandSpan(first, second) => Answer {
                number: 7,
                first,
                second,
            },
        }
    }
}

// The number that a call on a voice answers: 0, or the question that was answered no.
pub fn number_of(answer: Result<(), CallError>) -> u32
    ensures { result ≡ call_number answer }
{
    match answer {
        Ok(()) => 0,
        Err(e) => u32::from(e),
    }
}
