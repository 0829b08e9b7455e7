// Two tables made one: the entries of both in pitch order, under the first one's name. A merge knows nothing of voices.
#![tactic(auto)]

mod accepted;
mod extent;
mod head;
mod keys;
mod skip;
mod sort;
mod spans;
mod tables;
mod write;

pub use table::rewrite::Written;
pub use tables::{MergeError, merge};
