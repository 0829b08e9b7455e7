// A plan of quiet windows: the gain that it gives the minute asked for.
use crate::options::{Options, Quiet};
use crate::playing::bits;
use console::plans::{BadLine, Planned};
use console::{Failed, file, plans, say, words};
use quiet::Window;
use sounder::Answer;
use sounder::plans::sounder_quiet_gain;
use std::rt::{Env, Files};

// The window that holds a minute, and how many lines stand above its line.
#[derive(Clone, Copy)]
pub struct Held {
    pub window: Window,
    pub above: usize,
}

// What a plan gives a minute: a gain, and the window that holds the minute, if one does.
#[derive(Clone, Copy)]
pub struct Loudness {
    pub minute: u32,
    pub gain: f32,
    pub held: Option<Held>,
}

// Says the plan's file and one of its lines, by how many stand above it.
fn say_line<R: Env>(rt: &R, argument: usize, above: usize) {
    say::argument(rt, 2, argument);
    say::text(2, b": line ");
    say::number(2, above.wrapping_add(1) as u64);
    say::text(2, b": ");
}

fn say_refusal(a: Answer) {
    words::refusal(2, a);
    say::text(2, b"\n");
}

// How many lines stand above that of a window.
fn above_of(p: Planned, i: usize) -> usize {
    p.above.get(i).copied().unwrap_or(0)
}

// Says what is refused: a window with its line, or the minute.
fn refuse<R: Env>(rt: &R, argument: usize, p: Planned, a: Answer) -> Failed {
    if a.number == 20 {
        say::text(2, b"--minute: ");
    } else {
        say_line(rt, argument, above_of(p, a.first));
    }
    say_refusal(a);
    Failed
}

// The window that holds the minute, by its number; a number that is none of a window's says that none does.
fn holding(p: Planned, i: usize) -> Option<Held> {
    let windows = &p.plan.windows;
    if p.plan.count as usize <= i {
        return None;
    }
    let window = windows.get(i).copied()?;
    Some(Held {
        window,
        above: above_of(p, i),
    })
}

// Asks the plan for the minute.
fn ask<R: Env>(rt: &R, q: Quiet, p: Planned) -> Result<Loudness, Failed> {
    let asked = sounder_quiet_gain(p.plan, q.minute);
    let a = asked.answer;
    if a.number != 0 {
        return Err(refuse(rt, q.plan, p, a));
    }
    Ok(Loudness {
        minute: q.minute,
        gain: asked.gain,
        held: holding(p, a.first),
    })
}

// What a text of windows gives.
fn from_text<R: Env>(rt: &R, q: Quiet, text: &[u8]) -> Result<Loudness, Failed> {
    match plans::read(text) {
        Ok(p) => ask(rt, q, p),
        Err(BadLine { above, reason }) => {
            say_line(rt, q.plan, above);
            say::words(2, &reason);
            say::text(2, b"\n");
            Err(Failed)
        }
    }
}

// The gain of a minute by a plan. The buffer has a byte more than a plan may, so a longer file is known without being read to its end.
pub fn at_minute<R: Files + Env>(rt: &R, q: Quiet) -> Result<Loudness, Failed> {
    let mut text = [0u8; 65537];
    let k = file::read_argument(rt, q.plan, &mut text)?;
    if k == 65537 {
        say::argument(rt, 2, q.plan);
        say::text(2, b": longer than 65536 bytes, and a plan is not\n");
        return Err(Failed);
    }
    from_text(rt, q, &text[..k])
}

fn say_day(day: u32) {
    match day {
        0 => say::text(1, b"Mon "),
        1 => say::text(1, b"Tue "),
        2 => say::text(1, b"Wed "),
        3 => say::text(1, b"Thu "),
        4 => say::text(1, b"Fri "),
        5 => say::text(1, b"Sat "),
        _ => say::text(1, b"Sun "),
    }
}

fn say_two(n: u32) {
    if n < 10 {
        say::text(1, b"0");
    }
    say::number(1, n as u64);
}

// A minute of the week as a day and a clock.
fn say_minute(m: u32) {
    say_day(m / 1440);
    say_two(m % 1440 / 60);
    say::text(1, b":");
    say_two(m % 60);
}

// Says which window holds the minute, and the gain.
pub fn describe(l: &Loudness) {
    say::text(1, b"plan: ");
    say_minute(l.minute);
    match l.held {
        Some(held) => {
            say::text(1, b" is in line ");
            say::number(1, held.above.wrapping_add(1) as u64);
            say::text(1, b", ");
            say_minute(held.window.start);
            say::text(1, b" to ");
            say_minute(held.window.end);
        }
        None => say::text(1, b" is in no window"),
    }
    say::text(1, b": gain ");
    say::float(1, bits(l.gain));
    say::text(1, b"\n");
}

// What is played with a plan: each gain that was given, times the plan's. Where none was, gain 0 is 1, so it is the plan's.
pub fn with_gain(o: &Options, l: &Loudness) -> Options {
    let mut softened = *o;
    if softened.gains[0].is_none() {
        softened.gains[0] = Some(1.0);
    }
    for gain in &mut softened.gains {
        *gain = gain.map(|g| g * l.gain);
    }
    softened
}
