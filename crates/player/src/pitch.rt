// What a frequency decides: the entries on its two sides, and the values between them.
pub mod bracket;
pub mod entries;
pub mod stretch;
