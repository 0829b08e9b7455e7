// Two tables made one.
ghost use Rattle.std.specs.Prelude.{◌≡◌, ◌≤◌, length};
ghost use Rattle.table.specs.Decode.{decode};
ghost use Rattle.table.specs.Answer.{refusal_of};
ghost use Rattle.merging.specs.Merge.{merging, MergeLeaves};
ghost use Rattle.merging.specs.Answer.{refused_outcome};
ghost use Rattle.sounder.specs.Answer.{refusal_answer};
ghost use Rattle.sounder.specs.Merges.{merge_answer};

use crate::answer::{Answer, done, refusal};
use merging::{MergeError, merge};
use table::error::CoeffTableCodecError;

// Accepted: the entry count of the result and the bytes written. `image` says which image a refusal 1 to 7 speaks of, 1 or 2; else it is 0.
#[repr(C)]
#[derive(Clone, Copy)]
pub struct MergeAnswer {
    pub answer: Answer,
    pub image: u32,
}

// What is said of the two together.
fn of_both(answer: Answer) -> MergeAnswer
    ensures { result ≡ record { answer = answer; image = 0 } }
{
    MergeAnswer { answer, image: 0 }
}

// A refusal of one of the two images.
fn image_refused(image: u32, e: CoeffTableCodecError) -> MergeAnswer
    ensures { result ≡ record { answer = refusal_answer (refusal_of e); image = image } }
{
    MergeAnswer {
        answer: Answer::from(e),
        image,
    }
}

// Why nothing was written, as numbers.
impl From<MergeError> for MergeAnswer {
    ghost from_gives = { λ e a. a ≡ merge_answer (refused_outcome e) };

    fn from(e: MergeError) -> MergeAnswer {
        match e {
            MergeError::First(e) => image_refused(1, e),
            MergeError::Second(e) => image_refused(2, e),
            MergeError::InconsistentSpans => of_both(refusal(21, 0)),
            MergeError::TooLong => of_both(refusal(22, 0)),
            MergeError::TargetTooShort => of_both(refusal(23, 0)),
        }
    }
}

// Writes the two images' tables as one into the target.
#[unsafe(no_mangle)]
pub extern "C" fn sounder_merge(first: &[u8], second: &[u8], target: &mut [u8]) -> MergeAnswer
    ensures answered { result
        ≡ merge_answer (merging (decode first.now) (decode second.now) (length target.old)) }
    ensures left { MergeLeaves (decode first.now) (decode second.now)
        target.old target.new }
    ensures fits { result.answer.number ≡ 0 → result.answer.second ≤ length target.new }
{
    match merge(first, second, target) {
        Ok(written) => of_both(done(written.entries, written.bytes)),
        Err(e) => MergeAnswer::from(e),
    }
}
