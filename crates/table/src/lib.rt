// Coefficient tables: the image that a planner's tool writes, read with questions 1 to 7, looked into, and rewritten.
#![tactic(auto)]

mod accepted;
mod bytes;
pub mod desk;
mod entries;
pub mod entry;
pub mod error;
mod header;
mod limits;
pub mod lookup;
mod metadata;
mod span;

pub use span::spans_agree;

pub mod read;
pub mod rewrite;
pub mod start;
pub mod views;
