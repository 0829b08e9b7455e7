// Rewriting: the table of an image, written anew.
ghost use Rattle.std.specs.Prelude.{◌≡◌, ◌++◌, ◌≤◌, length, take, drop};
ghost use Rattle.table.specs.Decode.{decode};
ghost use Rattle.table.specs.Answer.{refusal_of};
ghost use Rattle.table.specs.Rewrite.{rewriting, rewritten, rewriting_parsed, rewrite_refusal};

use crate::error::CoeffTableCodecError;
use crate::read::from_bytes;
use wire::copy::copy;

// How many entries were written, and in how many bytes.
#[derive(Clone, Copy)]
pub struct Written {
    pub entries: usize,
    pub bytes: usize,
}

// Why nothing was written.
#[derive(Clone, Copy, Debug, PartialEq, Eq)]
pub enum RewriteError {
    Refused(CoeffTableCodecError), // 1 to 7: the image is refused
    TargetTooShort, // 17: the target is shorter than the rewritten image
}

impl From<CoeffTableCodecError> for RewriteError {
    ghost from_gives = { λ e r. rewrite_refusal r ≡ refusal_of e };

    fn from(e: CoeffTableCodecError) -> RewriteError {
        RewriteError::Refused(e)
    }
}

// Writes the image's table into the target as version 1, with nothing after the last entry. The bytes of the target beyond it stay.
// Its encoding is the image's own bytes up to the end of the last entry, but for the version: they are copied, and the version is set.
pub fn to_bytes(image: &[u8], target: &mut [u8]) -> Result<Written, RewriteError>
    ensures answered { rewriting_parsed result ≡ rewriting (decode image.now) (length target.old) }
    ensures written { target.new ≡ rewritten (decode image.now) target.old }
{
    let counts = from_bytes(image)?;
    let bytes = counts.end;
    if target.len() < bytes {
        return Err(RewriteError::TargetTooShort);
    }
    copy(&image[..bytes], &mut target[..bytes]);
    target[4] = 1;
    target[5] = 0;
    Ok(Written {
        entries: counts.entries,
        bytes,
    })
}
