// Reads the command line. What is wrong with an argument is said at once, and those after it are read too.
use console::{WrongUse, arguments, say};
use std::rt::Env;

// The two tables and the file to write, as arguments by their number on the command line, and whether a file of its name may be replaced.
#[derive(Clone, Copy)]
pub struct Tables {
    pub first: usize,
    pub second: usize,
    pub out: usize,
    pub force: bool,
}

#[derive(Clone, Copy)]
pub enum Asked {
    Help,
    Merge(Tables),
}

// What the arguments so far say.
#[derive(Clone, Copy, Default)]
struct Given {
    first: Option<usize>,
    second: Option<usize>,
    out: Option<usize>,
    force: bool,
    help: bool,
}

// Says what is wrong with an argument.
fn wrong(word: &[u8], why: &[u8]) -> WrongUse {
    say::wrong(b"merge", word, why)
}

impl Given {
    fn take_force(&mut self) -> Result<(), WrongUse> {
        if self.force {
            return Err(wrong(b"--force", b"given twice"));
        }
        self.force = true;
        Ok(())
    }

    // The first table, the second, then the file to write.
    fn take_file(&mut self, word: &[u8], i: usize) -> Result<(), WrongUse> {
        if self.first.is_none() {
            self.first = Some(i);
        } else if self.second.is_none() {
            self.second = Some(i);
        } else if self.out.is_none() {
            self.out = Some(i);
        } else {
            return Err(wrong(word, b"one file too many"));
        }
        Ok(())
    }

    fn take_word(&mut self, word: &[u8], i: usize) -> Result<(), WrongUse> {
        match word {
            b"--force" => self.take_force(),
            b"--help" | b"-h" => {
                self.help = true;
                Ok(())
            }
            [] => Err(wrong(b"an argument", b"it is empty, and names no file")),
            [b'-', ..] => Err(wrong(
                word,
                b"no such option (write ./ before a file's name that starts with -)",
            )),
            _ => self.take_file(word, i),
        }
    }

    // Takes argument `i`. A word longer than the buffer is refused by its length.
    fn take<R: Env>(&mut self, rt: &R, i: usize) -> Result<(), WrongUse> {
        let mut word = io::buffer();
        let Some(n) = arguments::read(rt, i, &mut word) else {
            return Err(wrong(b"an argument", b"longer than 4096 bytes"));
        };
        self.take_word(&word[..n], i)
    }

    // What all arguments together ask for.
    fn asked(&self) -> Result<Asked, WrongUse> {
        if self.help {
            return Ok(Asked::Help);
        }
        let (Some(first), Some(second), Some(out)) = (self.first, self.second, self.out) else {
            say::text(2, b"merge: two tables and a file to write are needed\n");
            return Err(WrongUse);
        };
        Ok(Asked::Merge(Tables {
            first,
            second,
            out,
            force: self.force,
        }))
    }
}

pub fn read<R: Env>(rt: &R) -> Result<Asked, WrongUse> {
    let count = arguments::count(rt, usize::MAX);
    let mut given = Given::default();
    let mut well = Ok(());
    for i in 1..count {
        well = well.and(given.take(rt, i));
    }
    well?;
    given.asked()
}
