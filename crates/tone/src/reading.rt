// Reads the command line. What is wrong with an argument is said at once, and those after it are read too.
use crate::flags::Flag;
use crate::options::{Options, Quiet, Retune};
use crate::values::{file, minute, number, seconds, whole, wrong, wrong_value};
use console::{WrongUse, arguments, say};
use std::mem;
use std::rt::Env;
use table::desk::Kind;

#[derive(Clone, Copy)]
pub enum Asked {
    Help,
    Play(Options),
}

// What the arguments so far say. `awaited` is the option whose value comes next; `seen` says which options came, a wrong value or not.
#[derive(Clone, Copy, Default)]
struct Given {
    table: Option<usize>,
    out: Option<usize>,
    awaited: Option<Flag>,
    seen: [bool; 13],
    help: bool,
    blend: bool,
    single: Option<u32>,
    rate: Option<u32>,
    freq: Option<f32>,
    to: Option<f32>,
    gains: [Option<f32>; 4],
    micros: Option<u64>,
    seed: Option<u32>,
    centres: Option<usize>,
    retune: Option<u32>,
    at: Option<u64>,
    plan: Option<usize>,
    minute: Option<u32>,
}

impl Given {
    fn add_gain(&mut self, text: &[u8]) -> Result<(), WrongUse> {
        let x = number(Flag::Gain, text)?;
        match self.gains.iter().position(|g| g.is_none()) {
            Some(n) => {
                self.gains[n] = Some(x);
                Ok(())
            }
            None => Err(wrong_value(
                Flag::Gain,
                text,
                b"a fifth gain, and a voice has at most four",
            )),
        }
    }

    // An option with its value, where that is no file.
    fn set_number(&mut self, flag: Flag, text: &[u8]) -> Result<(), WrongUse> {
        match flag {
            Flag::Single => self.single = Some(whole(flag, text)?),
            Flag::Rate => self.rate = Some(whole(flag, text)?),
            Flag::Retune => self.retune = Some(whole(flag, text)?),
            Flag::Seed => self.seed = Some(whole(flag, text)?),
            Flag::Freq => self.freq = Some(number(flag, text)?),
            Flag::To => self.to = Some(number(flag, text)?),
            Flag::Gain => self.add_gain(text)?,
            Flag::Seconds => self.micros = Some(seconds(flag, text)?),
            Flag::At => self.at = Some(seconds(flag, text)?),
            Flag::Minute => self.minute = Some(minute(flag, text)?),
            Flag::Blend | Flag::Centres | Flag::Plan => {}
        }
        Ok(())
    }

    // An option with the value that stands in argument `i`.
    fn set<R: Env>(&mut self, rt: &R, flag: Flag, i: usize) -> Result<(), WrongUse> {
        match flag {
            Flag::Centres => self.centres = Some(file(rt, flag, i)?),
            Flag::Plan => self.plan = Some(file(rt, flag, i)?),
            _ => {
                let mut text = [0u8; 64];
                let Some(n) = arguments::read(rt, i, &mut text) else {
                    return Err(wrong_value(
                        flag,
                        &text,
                        b"too long: these are its first 64 bytes, and a number has at most 15 digits",
                    ));
                };
                self.set_number(flag, &text[..n])?;
            }
        }
        Ok(())
    }

    // An option, whose value is the next argument.
    fn take_option(&mut self, flag: Flag) -> Result<(), WrongUse> {
        if flag == Flag::Blend {
            self.blend = true;
        } else {
            self.awaited = Some(flag);
        }
        let again = mem::replace(&mut self.seen[flag as usize], true);
        if again && flag != Flag::Gain {
            return Err(wrong(flag.name(), b"given twice"));
        }
        Ok(())
    }

    // The table, then the file to write.
    fn take_file(&mut self, word: &[u8], i: usize) -> Result<(), WrongUse> {
        if self.table.is_none() {
            self.table = Some(i);
        } else if self.out.is_none() {
            self.out = Some(i);
        } else {
            return Err(wrong(word, b"one file too many"));
        }
        Ok(())
    }

    fn take_word(&mut self, word: &[u8], i: usize) -> Result<(), WrongUse> {
        match word {
            b"--help" | b"-h" => {
                self.help = true;
                Ok(())
            }
            [] => Err(wrong(b"an argument", b"it is empty, and names no file")),
            [b'-', ..] => match Flag::named(word) {
                Some(flag) => self.take_option(flag),
                None => Err(wrong(
                    word,
                    b"no such option (write ./ before a file's name that starts with -)",
                )),
            },
            _ => self.take_file(word, i),
        }
    }

    // Takes argument `i`: the value that is awaited, an option or a file. A word longer than the buffer is refused by its length.
    fn take<R: Env>(&mut self, rt: &R, i: usize) -> Result<(), WrongUse> {
        if let Some(flag) = self.awaited.take() {
            return self.set(rt, flag, i);
        }
        let mut word = io::buffer();
        let Some(n) = arguments::read(rt, i, &mut word) else {
            return Err(wrong(b"an argument", b"longer than 4096 bytes"));
        };
        self.take_word(&word[..n], i)
    }

    // Whether the last option has its value.
    fn ended(&self) -> Result<(), WrongUse> {
        match self.awaited {
            Some(flag) => Err(wrong(flag.name(), b"its value is missing")),
            None => Ok(()),
        }
    }

    // The kind of the voice, which the gains are to go with.
    fn kind(&self) -> Result<Kind, WrongUse> {
        match (self.blend, self.single) {
            (true, Some(_)) => Err(wrong(b"--single and --blend", b"a voice is one or the other")),
            (true, None) => Ok(Kind::Blend),
            (false, _) if self.gains[1].is_some() => Err(wrong(
                b"--gain",
                b"a single voice has one gain; a blend (--blend) has up to four",
            )),
            (false, channel) => Ok(Kind::Single(channel.unwrap_or(0))),
        }
    }

    // A retune within a tone of so many millionths of a second; a time is given only for one.
    fn retune(&self, micros: u64) -> Result<Option<Retune>, WrongUse> {
        match (self.retune, self.at) {
            (None, Some(_)) => Err(wrong(
                b"--at",
                b"it is the time of a retune, and no --retune is given",
            )),
            (Some(_), Some(at)) if micros < at => Err(wrong(
                b"--at",
                b"the tone ends before (--seconds; 1 where nothing is said)",
            )),
            (Some(rate), at) => Ok(Some(Retune { rate, at })),
            (None, None) => Ok(None),
        }
    }

    // A plan and its minute, or neither.
    fn quiet(&self) -> Result<Option<Quiet>, WrongUse> {
        match (self.plan, self.minute) {
            (Some(plan), Some(minute)) => Ok(Some(Quiet { plan, minute })),
            (None, None) => Ok(None),
            (None, Some(_)) => Err(wrong(
                b"--minute",
                b"it is the minute that a plan is asked for, and no --plan is given",
            )),
            (Some(_), None) => Err(wrong(
                b"--plan",
                b"it is asked for a minute of the week, and no --minute is given",
            )),
        }
    }

    // What all arguments together ask for.
    fn asked(&self) -> Result<Asked, WrongUse> {
        if self.help {
            return Ok(Asked::Help);
        }
        let (Some(table), Some(out)) = (self.table, self.out) else {
            say::text(2, b"tone: a table and a file to write are needed\n");
            return Err(WrongUse);
        };
        let micros = self.micros.unwrap_or(1000000);
        Ok(Asked::Play(Options {
            table,
            out,
            centres: self.centres,
            kind: self.kind()?,
            rate: self.rate.unwrap_or(48000),
            freq: self.freq,
            to: self.to,
            gains: self.gains,
            micros,
            seed: self.seed,
            retune: self.retune(micros)?,
            quiet: self.quiet()?,
        }))
    }
}

pub fn read<R: Env>(rt: &R) -> Result<Asked, WrongUse> {
    let count = arguments::count(rt, usize::MAX);
    let mut given = Given::default();
    let mut well = Ok(());
    for i in 1..count {
        well = well.and(given.take(rt, i));
    }
    well.and(given.ended())?;
    given.asked()
}
