// Making a voice of a table's image: questions 1 to 12, then the fresh voice.
#![tactic(auto)]

mod coeffs;
mod counts;
mod entries;
mod entry;
mod error;
mod fill;
mod gather;
mod limits;
mod lists;
mod live;
mod making;
mod question;
mod sounding;
mod values;

pub use error::MakeError;
pub use making::{blank_voice, make, numbers_of};
