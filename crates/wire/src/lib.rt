// The wire format's fields: little-endian numbers and length-prefixed UTF-8 strings, at a cursor over an image and by a reader that holds
// it.
#![tactic(auto)]

pub mod copy;
pub mod cursor;
pub mod reader;
pub mod utf8;
