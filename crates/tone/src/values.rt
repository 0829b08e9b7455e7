// The values of options, and what is said of one that is wrong.
use crate::flags::Flag;
use console::decimal::Decimal;
use console::narrow::value;
use console::{WrongUse, arguments, decimal, plans, say};
use std::rt::Env;

// Says what is wrong with an argument.
pub fn wrong(word: &[u8], why: &[u8]) -> WrongUse {
    say::wrong(b"tone", word, why)
}

// Says what is wrong with an option's value.
pub fn wrong_value(flag: Flag, text: &[u8], why: &[u8]) -> WrongUse {
    say::text(2, b"tone: ");
    say::text(2, flag.name());
    say::text(2, b" ");
    say::name(2, text);
    say::text(2, b": ");
    say::text(2, why);
    say::text(2, b"\n");
    WrongUse
}

// This and the next differ in what reads the text, in the type and in the words: a function of both would take them all, and is no plainer.
pub fn whole(flag: Flag, text: &[u8]) -> Result<u32, WrongUse> {
    decimal::read_whole(text).ok_or_else(|| wrong_value(
        flag,
        text,
        b"not a whole number from 0 to 4294967295",
    ))
}

fn decimal_number(flag: Flag, text: &[u8]) -> Result<Decimal, WrongUse> {
    decimal::read(text).ok_or_else(|| wrong_value(
        flag,
        text,
        b"not a decimal number of at most 15 digits",
    ))
}

pub fn number(flag: Flag, text: &[u8]) -> Result<f32, WrongUse> {
    Ok(value(decimal_number(flag, text)?))
}

// A number of seconds from 0 to 60 with at most six places, in millionths.
fn millionths(d: Decimal) -> Option<u64> {
    if d.negative || 60000000 < d.digits {
        return None;
    }
    let left = 6u32.checked_sub(d.places)?;
    let n = d.digits * 10u64.pow(left);
    if n <= 60000000 { Some(n) } else { None }
}

pub fn seconds(flag: Flag, text: &[u8]) -> Result<u64, WrongUse> {
    millionths(decimal_number(flag, text)?).ok_or_else(|| wrong_value(
        flag,
        text,
        b"not a number of seconds from 0 to 60 with at most six places",
    ))
}

// A minute of the week, as a plan's file has it.
pub fn minute(flag: Flag, text: &[u8]) -> Result<u32, WrongUse> {
    plans::minute(text).ok_or_else(|| wrong_value(
        flag,
        text,
        b"neither a minute of the week, 0 to 10079, nor a day and a clock, as \"Mon 22:00\"",
    ))
}

// Argument `i`, where it names a file. A name longer than the buffer is refused by its length.
pub fn file<R: Env>(rt: &R, flag: Flag, i: usize) -> Result<usize, WrongUse> {
    let mut word = io::buffer();
    let Some(n) = arguments::read(rt, i, &mut word) else {
        return Err(wrong(flag.name(), b"its value is longer than 4096 bytes"));
    };
    let text = &word[..n];
    match text {
        [] => Err(wrong(flag.name(), b"its value is empty, and names no file")),
        [b'-', ..] => Err(wrong_value(
            flag,
            text,
            b"its value is missing (write ./ before a file's name that starts with -)",
        )),
        _ => Ok(i),
    }
}
