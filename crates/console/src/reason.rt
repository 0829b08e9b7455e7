// Why a call of the system failed, in the system's words.
use arrayvec::ArrayString;
use std::fmt::Write;
use std::io::Error;

// The words before the number that the standard library puts after them.
fn before_number(words: &str) -> &str {
    match words.split_once(" (os error ") {
        Some((before, _)) => before,
        None => words,
    }
}

// Writes why, to a file descriptor.
pub fn write(fd: i32, e: Error) {
    let mut text = ArrayString::<128>::new();
    let _ = write!(text, "{e}");
    io::write_all(fd, before_number(text.as_str()).as_bytes());
}
