// The boundary for C and Rust: functions of the C ABI over the crates below, with numbers in the place of enums.
// A slice crosses as a pointer and a length, a struct by value, and a voice either way. include/sounder.h declares the same for C.
#![tactic(auto)]

mod answer;
pub mod images;
mod kind;
pub mod merges;
pub mod plans;
pub mod play_in;
pub mod restart_in;
pub mod retune_in;
pub mod voices;

pub use answer::Answer;
pub use images::{DeskAnswer, Place};
pub use making::numbers_of;
pub use merges::MergeAnswer;
pub use plans::QuietAnswer;
pub use voices::MadeAnswer;
