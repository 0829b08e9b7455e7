// What a refusal means, in words. The numbers 1 to 17 are document 01's, and 18 to 23 document 02's. They stand as numbers here, since the
// programs call the library as C does, whose answers have numbers.
use crate::say;
use sounder::Answer;
use std::fmt;
use std::fmt::{Formatter, Write};

// The words for question 7: an entry with one of the two keys is held to itself.
fn span<W: Write>(f: &mut Formatter<W>, first: usize, entry: usize) -> fmt::Result {
    if first == entry {
        write!(
            f,
            "entry {entry} has only one of the keys noise_band_min_hz and noise_band_max_hz"
        )
    } else {
        write!(
            f,
            "the noise band span of entry {entry} does not agree with that of entry {first}"
        )
    }
}

// The words for questions 1 to 7, of reading.
fn reading<W: Write>(f: &mut Formatter<W>, a: Answer) -> fmt::Result {
    match a.number {
        1 => write!(f, "the file is longer than 65536 bytes"),
        2 => write!(f, "the file ends before the table does"),
        3 => write!(
            f,
            "the file does not start with MSCT, so it is no coefficient table"
        ),
        4 => write!(
            f,
            "the table is of version {}, and only versions 0 and 1 are known",
            a.first
        ),
        5 => write!(f, "a name in the table is not UTF-8 text"),
        6 => write!(
            f,
            "entry {} has another number of coefficients than its channels, partials and bands call for",
            a.first
        ),
        _ => span(f, a.first, a.second),
    }
}

// The words for questions 8 to 12, of making.
fn making<W: Write>(f: &mut Formatter<W>, a: Answer) -> fmt::Result {
    match a.number {
        8 => write!(
            f,
            "the table has more than 16 entries, 32 partials or 16 noise bands"
        ),
        9 => write!(
            f,
            "entry {} has a pitch, stretch, coefficient or gain that is no number or out of range",
            a.first
        ),
        10 => write!(f, "no entry of the table has the channel"),
        11 => write!(f, "the sample rate is not from 8000 to 192000"),
        _ => write!(
            f,
            "the number of band centres is not the table's number of noise bands, or one is not finite"
        ),
    }
}

// The words for questions 13 to 17, of playing and rewriting.
fn playing<W: Write>(f: &mut Formatter<W>, number: u32) -> fmt::Result {
    match number {
        13 => write!(f, "the voice does not keep the voice rules"),
        14 => write!(f, "the block is not 0 to 128 samples by 1 to 8 channels"),
        15 => write!(f, "an input is not of the block's length"),
        16 => write!(f, "a frequency is above 20000 Hz"),
        _ => write!(f, "the target is too short for the rewritten table"),
    }
}

// The words for questions 18 to 20, of a plan of quiet windows. Windows are counted from 0, so 64 is the first without a place.
fn plan<W: Write>(f: &mut Formatter<W>, a: Answer) -> fmt::Result {
    match (a.number, a.first) {
        (18, 64) => write!(f, "the plan has more than 64 windows"),
        (18, window) => write!(
            f,
            "window {window} has an edge above 10079, the last minute of the week"
        ),
        (19, window) => write!(f, "window {window} has a loudness step above 100"),
        _ => write!(f, "the minute is above 10079, the last of the week"),
    }
}

// The words for questions 21 to 23, of a merge.
fn merging<W: Write>(f: &mut Formatter<W>, number: u32) -> fmt::Result {
    match number {
        21 => write!(f, "the noise band spans of the two tables do not agree"),
        22 => write!(f, "the merged table would be longer than 65536 bytes"),
        23 => write!(f, "the target is too short for the merged table"),
        _ => write!(f, "no refusal has this number"),
    }
}

// The number, then what it means with its values.
#[derive(Clone, Copy)]
struct Refused(Answer);

impl fmt::Display for Refused {
    fn fmt<W: Write>(&self, f: &mut Formatter<W>) -> fmt::Result {
        let a = self.0;
        write!(f, "refusal {}: ", a.number)?;
        match a.number {
            0..8 => reading(f, a),
            8..13 => making(f, a),
            13..18 => playing(f, a.number),
            18..21 => plan(f, a),
            _ => merging(f, a.number),
        }
    }
}

// The line is the caller's to end.
pub fn refusal(fd: i32, a: Answer) {
    say::words(fd, &Refused(a));
}

// What is said of a table that was accepted: its name, how many entries it has, and how many of the image's bytes they take. `read` is the
// reading's answer.
pub fn accepted(fd: i32, name: &[u8], read: Answer, bytes: usize) {
    say::text(fd, b"accepted: \"");
    say::name(fd, name);
    say::text(fd, b"\", ");
    say::counted(fd, read.first as u64, b" entry, ", b" entries, ");
    say::number(fd, read.second as u64);
    say::text(fd, b" bytes used of ");
    say::number(fd, bytes as u64);
    say::text(fd, b"\n");
}

// Refusal 12 where the centres are not as many as the voice needs.
#[derive(Clone, Copy)]
struct CentresNeeded {
    needed: u64,
    got: u64,
}

impl fmt::Display for CentresNeeded {
    fn fmt<W: Write>(&self, f: &mut Formatter<W>) -> fmt::Result {
        let CentresNeeded { needed, got } = *self;
        if needed == 0 {
            return write!(
                f,
                "refusal 12: the voice has no noise bands, so it needs no centres, and got {got} (leave --centres out)"
            );
        }
        let centres = if needed == 1 { "centre" } else { "centres" };
        write!(
            f,
            "refusal 12: the voice needs {needed} {centres}, one for each noise band, and got {got} (--centres FILE gives them)"
        )
    }
}

// A making's refusal. Of 12 it says how many centres the voice needs and got; where these are as many, one is not finite. The line is
// the caller's to end.
pub fn making_refusal(fd: i32, a: Answer, needed: u64, got: u64) {
    if a.number == 12 && needed != got {
        say::words(fd, &CentresNeeded { needed, got });
    } else {
        refusal(fd, a);
    }
}
