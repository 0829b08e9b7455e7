// Printing to a file descriptor: 1 is standard output, 2 standard error. The standard library's println! asks for the handle of the system,
// which most of what speaks here would not need for anything else; so it is written by the descriptor's number, as C does.
ghost use Rattle.std.specs.Prelude.{◌≡◌};

use crate::fixed::magnitude;
use crate::{Failed, WrongUse, arguments, reason};
use std::fmt;
use std::fmt::{Display, Write};
use std::io::{Error, Print};
use std::rt::Env;

// Text that is written to it goes to a file descriptor; what that does not take is lost.
#[derive(Clone, Copy)]
struct Descriptor(i32);

impl Write for Descriptor {
    fn write_str(&mut self, s: &str) -> fmt::Result {
        io::write_all(self.0, s.as_bytes());
        Ok(())
    }
}

pub fn text(fd: i32, words: &[u8]) {
    io::write_all(fd, words);
}

// What has words of its own.
pub fn words<D: Display>(fd: i32, words: &D) {
    let _ = write!(Descriptor(fd), "{words}");
}

pub fn number(fd: i32, n: u64) {
    io::print_decimal(fd, n);
}

// A number with its noun: the first words where it is 1, else the second.
pub fn counted(fd: i32, n: u64, one: &[u8], many: &[u8]) {
    number(fd, n);
    text(fd, if n == 1 { one } else { many });
}

// What is wrong with an argument of a program, on standard error.
pub fn wrong(program: &[u8], word: &[u8], why: &[u8]) -> WrongUse
    ensures { result ≡ record {} }
{
    text(2, program);
    text(2, b": ");
    name(2, word);
    text(2, b": ");
    text(2, why);
    text(2, b"\n");
    WrongUse
}

// The last words on standard error where a program was called with wrong arguments: by them tools/status gives status 2.
pub fn wrong_use(program: &[u8]) {
    text(2, program);
    text(2, b" --help tells how it is used\n");
}

// A float by its pattern, to six places, rounded to the nearest with ties to even; or inf, -inf or NaN.
pub fn float(fd: i32, bits: u32) {
    if 0x7f80_0000 < bits % 0x8000_0000 {
        text(fd, b"NaN");
        return;
    }
    if 0x8000_0000 <= bits {
        text(fd, b"-");
    }
    if bits % 0x8000_0000 == 0x7f80_0000 {
        text(fd, b"inf");
    } else {
        words(fd, &magnitude(bits));
    }
}

// Whether a byte is printed as it is: not the backslash, and no control character. Those of two bytes are C2 and a byte below A0.
fn is_plain(before: u8, b: u8, after: u8) -> bool {
    match b {
        0..32 | 127 | b'\\' => false,
        0xc2 => 0xa0 <= after,
        _ => before != 0xc2 || 0xa0 <= b,
    }
}

// UTF-8 text, with control characters and backslashes escaped: \x and two hexadecimal digits a byte.
pub fn name(fd: i32, s: &[u8]) {
    let mut before = 0;
    for (i, b) in s.iter().enumerate() {
        let after = s.get(i + 1).copied().unwrap_or(0xff);
        if is_plain(before, *b, after) {
            text(fd, &[*b]);
        } else {
            text(fd, b"\\x");
            io::print_hex(fd, *b as u64, 2);
        }
        before = *b;
    }
}

// An argument by its number on the command line, as a name.
pub fn argument<R: Env>(rt: &R, fd: i32, i: usize) {
    let mut word = io::buffer();
    let n = arguments::read_start(rt, i, &mut word);
    name(fd, &word[..n]);
}

// A file's name, and why it failed, on standard error.
pub fn failed(path: &[u8], e: Error) -> Failed
    ensures { result ≡ record {} }
{
    name(2, path);
    text(2, b": ");
    reason::write(2, e);
    text(2, b"\n");
    Failed
}

// The last words on standard output. Where they are not written, it says why.
pub fn last<R: Print>(rt: &R, words: &[u8]) {
    if let Err(e) = rt.write_all(words) {
        failed(b"standard output", e);
    }
}
