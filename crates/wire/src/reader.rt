// A reader that holds the image and its position, over the cursor: each method answers what the cursor answers there,
// and moves past what was read. A refusal leaves it where it was, but for a string: its length is passed where it is there, and so are
// bytes that are not UTF-8.
ghost use Rattle.std.specs.Prelude.{◌≡◌};
ghost use Rattle.wire.specs.Cursor.{take_at, u16, u32, string, string_end, read_parsed, string_parsed, reached};
ghost use Rattle.wire.specs.Reader.{Passed, Reads, ReadsString};

use crate::cursor::{Cursor, Place, Read, StringError, WireError};

#[derive(Clone, Copy)]
pub struct Reader<'a> {
    pub buf: &'a [u8],
    pub pos: usize,
}

impl<'a> Reader<'a> {
    // A reader at the start of the image.
    pub fn new(buf: &'a [u8]) -> Reader<'a>
        ensures { (result.buf ≡ buf.entry) × (result.pos ≡ 0) }
    {
        Reader { buf, pos: 0 }
    }

    // What the cursor answered here, as the reader's answer: a value that was read is passed. So each method below is a line.
    fn past<'s, T>(&'s mut self, answer: Result<Read<T>, WireError>) -> Result<T, WireError>
        ensures { Passed (read_parsed answer) result self.old self.new }
    {
        let read = answer?;
        self.pos = read.next.at;
        Ok(read.value)
    }

    // The next n bytes: where they start.
    pub fn take<'s>(&'s mut self, n: usize) -> Result<usize, WireError>
        ensures { Reads (take_at n) result self.old self.new }
    {
        self.past(Cursor { at: self.pos }.take(self.buf, n))
    }

    // The next number of 16 bits.
    pub fn u16<'s>(&'s mut self) -> Result<u16, WireError>
        ensures { Reads u16 result self.old self.new }
    {
        self.past(Cursor { at: self.pos }.u16(self.buf))
    }

    // The next number of 32 bits.
    pub fn u32<'s>(&'s mut self) -> Result<u32, WireError>
        ensures { Reads u32 result self.old self.new }
    {
        self.past(Cursor { at: self.pos }.u32(self.buf))
    }

    // The next string: where its bytes start, and how many they are.
    pub fn string<'s>(&'s mut self) -> Result<Place, WireError>
        ensures { ReadsString result self.old self.new }
    {
        let c = Cursor { at: self.pos };
        match c.string(self.buf) {
            Ok(read) => {
                self.pos = read.next.at;
                Ok(read.value)
            }
            Err(e) => {
                self.pos = e.reached.at;
                Err(e.error)
            }
        }
    }
}

// The string at a position of an image, read by a reader, with the position that it came to.
pub fn string_from(image: &[u8], at: usize) -> Result<Read<Place>, StringError>
    ensures { (string_parsed result ≡ string image.now at) × (reached result ≡ string_end image.now at) }
{
    let mut r = Reader::new(image);
    r.pos = at;
    match r.string() {
        Ok(value) => Ok(Read {
            value,
            next: Cursor { at: r.pos },
        }),
        Err(error) => Err(StringError {
            error,
            reached: Cursor { at: r.pos },
        }),
    }
}
