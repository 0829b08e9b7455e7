// What the programs share: decimal numbers read and printed, the words for a refusal, files read and written, checksums, arguments.
#![tactic(auto)]

pub mod arguments;
pub mod centres;
pub mod crc;
pub mod decimal;
mod edges;
pub mod file;
pub mod fixed;
pub mod narrow;
pub mod output;
mod paths;
pub mod plans;
mod reason;
pub mod say;
pub mod words;

// What was to be done is not done, and why has been said on standard error.
#[derive(Clone, Copy, Debug, PartialEq, Eq)]
pub struct Failed;

// A program was called wrongly, and why has been said on standard error.
#[derive(Clone, Copy, Debug, PartialEq, Eq)]
pub struct WrongUse;
