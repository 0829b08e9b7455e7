// What stands before the entries: mark, version, name and entry count.
ghost use Rattle.std.specs.Prelude.{◌≡◌};
ghost use Rattle.table.specs.Image.{header};
ghost use Rattle.table.specs.inner.Answers.{header_parsed};
ghost use Rattle.table.specs.inner.Header.{version, version_parsed, NamePlaced, head};

use crate::bytes::part_of;
use crate::error::CoeffTableCodecError;
use crate::limits::MAX_IMAGE;
use crate::start::Start;
use wire::cursor::{Cursor, Place, Read};
use wire::reader::string_from;

#[derive(Clone, Copy)]
pub struct HeaderView {
    pub version: u16,
    pub name: Place,
    pub entries: Start,
}

// The mark and the version: questions 3 and 4.
fn version_at(s: &[u8]) -> Result<Read<u16>, CoeffTableCodecError>
    ensures { version_parsed result ≡ version s.now 0 }
{
    let start = Cursor { at: 0 };
    let mark = start.take(s, 4)?;
    if part_of(s, mark.value, 4) != b"MSCT".as_slice() {
        return Err(CoeffTableCodecError::BadMagic);
    }
    let version = mark.next.u16(s)?;
    if 1 < version.value {
        return Err(CoeffTableCodecError::UnsupportedVersion(version.value));
    }
    Ok(version)
}

// The name is read by a reader that is set past the version.
pub fn header_at(s: &[u8]) -> Result<HeaderView, CoeffTableCodecError>
    ensures means { header_parsed s.now result ≡ header s.now 0 }
    ensures placed { NamePlaced result }
{
    let version = version_at(s)?;
    let name = string_from(s, version.next.at)?;
    let count = name.next.u32(s)?;
    Ok(HeaderView {
        version: version.value,
        name: name.value,
        entries: Start {
            count: count.value as usize,
            at: count.next.at,
        },
    })
}

// What a reading begins with: question 1, and the header.
#[tactic(auto, using(std::proofs::lemmas::Bool::Decides::nat_tests), unfolding(crate::specs::inner::Header::head))]
pub fn head_at(image: &[u8]) -> Result<HeaderView, CoeffTableCodecError>
    ensures { header_parsed image.now result ≡ head image.now }
{
    if MAX_IMAGE < image.len() {
        return Err(CoeffTableCodecError::TooLong);
    }
    header_at(image)
}
