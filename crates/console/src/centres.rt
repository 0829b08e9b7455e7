// Band centres as text: a decimal number a line. A line that starts with # is a comment; empty lines are passed over.
ghost use Rattle.std.specs.Prelude.{◌≡◌, Ok, take, IfOk};
ghost use Rattle.console.specs.Centres.{Few, no_centres, with_centre, after_line, centres_of};

use crate::decimal::spelled;
use crate::narrow::value;
use crate::{Failed, file, say};
use std::fmt;
use std::rt::{Env, Files};

// The centres, at the front of the values. (An array and a count: so one equation says all of what a text comes to.)
#[derive(Clone, Copy)]
pub struct Centres {
    pub values: [f32; 16],
    pub count: usize,
}

// The first line that is no centre, by how many lines stand above it.
#[derive(Clone, Copy, Debug, PartialEq, Eq)]
pub enum CentresError {
    NotDecimal(usize), // it is no decimal number of at most 15 digits
    TooMany(usize), // it is a number, but the seventeenth
}

impl fmt::Display for CentresError {
    fn fmt<W: fmt::Write>(&self, f: &mut fmt::Formatter<W>) -> fmt::Result {
        match self {
            CentresError::NotDecimal(above) => write!(
                f,
                "line {}: not a decimal number of at most 15 digits",
                above.wrapping_add(1)
            ),
            CentresError::TooMany(above) => write!(
                f,
                "line {}: a seventeenth centre, and a voice has at most 16 bands",
                above.wrapping_add(1)
            ),
        }
    }
}

impl Centres {
    // None yet: the definition `no_centres`, which a derived `Default` would say by its fields.
    fn none() -> Centres
        ensures { result ≡ no_centres }
    {
        Centres {
            values: [0.0; 16],
            count: 0,
        }
    }

    // With one centre more, of a line with so many lines above it.
    #[tactic(auto, using(std::proofs::lemmas::Bool::Decides::nat_tests), unfolding(crate::specs::Centres::with_centre))]
    fn with(mut self, above: usize, x: f32) -> Result<Centres, CentresError>
        ensures { result ≡ with_centre self above x }
    {
        let n = self.count;
        if n < 16 {
            self.values[n] = x;
            self.count = n + 1;
            return Ok(self);
        }
        Err(CentresError::TooMany(above))
    }

    // With what a line says. Its carriage returns are passed over, wherever they stand.
    fn with_line(self, above: usize, line: &[u8]) -> Result<Centres, CentresError>
        ensures { result ≡ after_line (Ok self) above line.now }
    {
        match line.iter().find(|b| **b != b'\r') {
            None => Ok(self),
            Some(b'#') => Ok(self),
            Some(_) => {
                let number = spelled(line.iter().filter(|b| **b != b'\r'));
                self.with(above, value(number.ok_or(CentresError::NotDecimal(above))?))
            }
        }
    }

    // The centres themselves.
    pub fn as_slice(&self) -> &[f32]
        ensures { result.now ≡ take self.now.count self.now.values }
    {
        &self.values[..self.count.min(16)]
    }
}

// The centres that a text holds, or its first line that is none.
pub fn read(text: &[u8]) -> Result<Centres, CentresError>
    ensures { result ≡ centres_of text.now }
{
    text.split(|b| *b == b'\n').enumerate().try_fold(
        Centres::none(),
        |centres, (above, line)| centres.with_line(above, line),
    )
}

// The centres in the file that an argument names; none where there is no such argument. No contract can say what a file holds, so this one
// only says that there are at most as many centres as places.
pub fn from_argument<R: Files + Env>(rt: &R, argument: Option<usize>) -> Result<Centres, Failed>
    ensures { IfOk result Few }
{
    let Some(argument) = argument else {
        return Ok(Centres::none());
    };
    let mut text = io::buffer();
    let n = file::read_argument(rt, argument, &mut text)?;
    if n == 4096 {
        say::argument(rt, 2, argument);
        say::text(
            2,
            b": longer than 4095 bytes, and a file of centres is not\n",
        );
        return Err(Failed);
    }
    read(&text[..n]).map_err(|e| {
        say::argument(rt, 2, argument);
        say::text(2, b": ");
        say::words(2, &e);
        say::text(2, b"\n");
        Failed
    })
}
