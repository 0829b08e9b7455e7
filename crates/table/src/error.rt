// Why an image is refused. The numbers are those of `refusal_of` in specs/Answer.antt.
ghost use Rattle.std.specs.Prelude.{◌≡◌};
ghost use Rattle.wire.specs.Cursor.{wire_refusal};
ghost use Rattle.table.specs.Answer.{refusal_of};

use wire::cursor::{StringError, WireError};

#[derive(Clone, Copy, Debug, PartialEq, Eq)]
pub enum CoeffTableCodecError {
    TooLong, // 1: more than 65,536 bytes
    UnexpectedEof, // 2: the bytes that a field needs are not there
    BadMagic, // 3: the mark is not `MSCT`
    UnsupportedVersion(u16), // 4, with the version
    BadUtf8, // 5: a string is not UTF-8
    MalformedEntry(usize), // 6, with the entry's index
    InconsistentNoiseBandSpan(usize, usize), // 7, with first_entry and index
}

impl From<WireError> for CoeffTableCodecError {
    ghost from_gives = { λ e r. refusal_of r ≡ wire_refusal e };

    fn from(e: WireError) -> CoeffTableCodecError {
        match e {
            WireError::UnexpectedEof => CoeffTableCodecError::UnexpectedEof,
            WireError::BadUtf8 => CoeffTableCodecError::BadUtf8,
        }
    }
}

impl From<StringError> for CoeffTableCodecError {
    ghost from_gives = { λ e r. refusal_of r ≡ wire_refusal e.error };

    fn from(e: StringError) -> CoeffTableCodecError {
        CoeffTableCodecError::from(e.error)
    }
}
