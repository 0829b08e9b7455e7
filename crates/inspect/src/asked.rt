// Reads the command line. What is wrong with an argument is said at once, and those after it are read too.
use console::{WrongUse, arguments, say};
use std::mem;
use std::rt::Env;

// How many tables are named, and which argument names the file of centres.
#[derive(Clone, Copy)]
pub struct Tables {
    pub count: usize,
    pub centres: Option<usize>,
}

#[derive(Clone, Copy)]
pub enum Asked {
    Help,
    Inspect(Tables),
}

// What the arguments so far say. `awaited` says that the file of centres comes next.
#[derive(Clone, Copy, Default)]
struct Given {
    tables: usize,
    centres: Option<usize>,
    awaited: bool,
    help: bool,
}

// Says what is wrong with an argument.
fn wrong(word: &[u8], why: &[u8]) -> WrongUse {
    say::wrong(b"inspect", word, why)
}

impl Given {
    fn take_option(&mut self) -> Result<(), WrongUse> {
        self.awaited = true;
        if self.centres.is_some() {
            return Err(wrong(b"--centres", b"given twice"));
        }
        Ok(())
    }

    // The file of centres, which argument `i` names.
    fn take_centres(&mut self, word: &[u8], i: usize) -> Result<(), WrongUse> {
        self.centres = Some(i);
        match word {
            [] => Err(wrong(b"--centres", b"its value is empty, and names no file")),
            [b'-', ..] => Err(wrong(
                word,
                b"--centres needs a file (write ./ before a name that starts with -)",
            )),
            _ => Ok(()),
        }
    }

    fn take_word(&mut self, word: &[u8]) -> Result<(), WrongUse> {
        match word {
            b"--centres" => self.take_option(),
            b"--help" | b"-h" => {
                self.help = true;
                Ok(())
            }
            [] => Err(wrong(b"an argument", b"it is empty, and names no file")),
            [b'-', ..] => Err(wrong(
                word,
                b"no such option (write ./ before a file's name that starts with -)",
            )),
            _ => {
                self.tables = self.tables.saturating_add(1);
                Ok(())
            }
        }
    }

    // Takes argument `i`. A word longer than the buffer is refused by its length.
    fn take<R: Env>(&mut self, rt: &R, i: usize) -> Result<(), WrongUse> {
        let mut word = io::buffer();
        let read = arguments::read(rt, i, &mut word);
        let awaited = mem::take(&mut self.awaited);
        let Some(n) = read else {
            return Err(wrong(b"an argument", b"longer than 4096 bytes"));
        };
        if awaited {
            self.take_centres(&word[..n], i)
        } else {
            self.take_word(&word[..n])
        }
    }

    // What all arguments together ask for.
    fn asked(&self) -> Result<Asked, WrongUse> {
        if self.help {
            return Ok(Asked::Help);
        }
        if self.tables == 0 {
            say::text(2, b"inspect: a table is needed\n");
            return Err(WrongUse);
        }
        Ok(Asked::Inspect(Tables {
            count: self.tables,
            centres: self.centres,
        }))
    }
}

// All `count` arguments are looked at before any table is.
pub fn read<R: Env>(rt: &R, count: usize) -> Result<Asked, WrongUse> {
    let mut given = Given::default();
    let mut well = Ok(());
    for i in 1..count {
        well = well.and(given.take(rt, i));
    }
    if given.awaited {
        say::text(2, b"inspect: --centres needs a file\n");
        return Err(WrongUse);
    }
    well?;
    given.asked()
}
