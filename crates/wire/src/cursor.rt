// A cursor over an image, by value: each field answers its value and the cursor past it, or why it cannot be read.
ghost use Rattle.std.specs.Prelude.{◌≡◌, ◌+◌, ◌≤◌, length};
ghost use Rattle.wire.specs.Cursor.{le16, le32, take_at, u16, u32, string_of, string, next_position, string_end};
ghost use Rattle.wire.specs.Cursor.{read_parsed, string_parsed, reached};

use crate::utf8::from_utf8;

// Why a field cannot be read. The numbers are those of `wire_refusal` in specs/Cursor.antt.
#[derive(Clone, Copy, Debug, PartialEq, Eq)]
pub enum WireError {
    UnexpectedEof, // 2: the bytes that it needs are not there
    BadUtf8, // 5: a string is not UTF-8
}

#[derive(Clone, Copy)]
pub struct Cursor {
    pub at: usize,
}

// A value that was read, and the cursor past it.
#[derive(Clone, Copy)]
pub struct Read<T> {
    pub value: T,
    pub next: Cursor,
}

impl<T> Read<T> {
    // What is made of the value, with the same cursor past it.
    fn map<U, F: FnOnce(T) -> U>(self, f: F) -> Read<U>
        requires { F.pre f self.value }
        ensures { (F.post f self.value result.value) × (result.next ≡ self.next) }
    {
        Read {
            value: f(self.value),
            next: self.next,
        }
    }
}

// Where a string's bytes stand in the image.
#[derive(Clone, Copy)]
pub struct Place {
    pub start: usize,
    pub len: usize,
}

// Why a string cannot be read, and the cursor past what of it is there: its length, and the bytes that are not UTF-8.
#[derive(Clone, Copy)]
pub struct StringError {
    pub error: WireError,
    pub reached: Cursor,
}

fn le16_at(s: &[u8], at: usize) -> u16
    requires { at + 2 ≤ length s.now }
    ensures { result ≡ le16 s.now at }
{
    u16::from_le_bytes([s[at], s[at + 1]])
}

fn le32_at(s: &[u8], at: usize) -> u32
    requires { at + 4 ≤ length s.now }
    ensures { result ≡ le32 s.now at }
{
    u32::from_le_bytes([s[at], s[at + 1], s[at + 2], s[at + 3]])
}

impl Cursor {
    // The n bytes at the cursor: where they start. The test is a difference, so that no sum wraps.
    #[tactic(auto, using(std::proofs::lemmas::Bool::Decides::nat_tests), unfolding(crate::specs::Cursor::take_at))]
    pub fn take(self, s: &[u8], n: usize) -> Result<Read<usize>, WireError>
        ensures { read_parsed result ≡ take_at n s.now self.at }
    {
        let at = self.at;
        if s.len() < at || s.len() - at < n {
            return Err(WireError::UnexpectedEof);
        }
        Ok(Read {
            value: at,
            next: Cursor { at: at + n },
        })
    }

    // A number of 16 bits, and one of 32: a line each over `take`. (One for both would ask for a trait of numbers, with its laws.)
    #[tactic(auto, unfolding(crate::specs::Cursor::take_at, crate::specs::Cursor::u16))]
    pub fn u16(self, s: &[u8]) -> Result<Read<u16>, WireError>
        ensures { read_parsed result ≡ u16 s.now self.at }
    {
        let part = self.take(s, 2)?;
        Ok(part.map(|at| le16_at(s, at)))
    }

    #[tactic(auto, unfolding(crate::specs::Cursor::take_at, crate::specs::Cursor::u32))]
    pub fn u32(self, s: &[u8]) -> Result<Read<u32>, WireError>
        ensures { read_parsed result ≡ u32 s.now self.at }
    {
        let part = self.take(s, 4)?;
        Ok(part.map(|at| le32_at(s, at)))
    }

    // A string: its length in bytes as a u32, then that many bytes of UTF-8.
    #[tactic(auto, unfolding(crate::specs::Cursor::string, crate::specs::Cursor::string_end))]
    pub fn string(self, s: &[u8]) -> Result<Read<Place>, StringError>
        ensures means { string_parsed result ≡ string s.now self.at }
        ensures ends { reached result ≡ string_end s.now self.at }
    {
        let length = self.u32(s).map_err(|error| StringError {
            error,
            reached: self,
        })?;
        string_of(s, length.next, length.value as usize)
    }
}

// A string of n bytes at a cursor.
#[tactic(auto, unfolding(crate::specs::Cursor::string_of, crate::specs::Cursor::take_at))]
fn string_of(s: &[u8], c: Cursor, n: usize) -> Result<Read<Place>, StringError>
    ensures means { string_parsed result ≡ string_of n s.now c.at }
    ensures ends { reached result ≡ next_position (take_at n s.now c.at) c.at }
{
    let bytes = c
        .take(s, n)
        .map_err(|error| StringError { error, reached: c })?;
    let start = bytes.value;
    let next = bytes.next;
    if !from_utf8(&s[start..next.at]) {
        return Err(StringError {
            error: WireError::BadUtf8,
            reached: next,
        });
    }
    Ok(Read {
        value: Place { start, len: n },
        next,
    })
}
