// The header of an image that is accepted: what is looked up in an image starts here.
ghost use Rattle.std.specs.Prelude.{◌≡◌};
ghost use Rattle.table.specs.Decode.{decode};
ghost use Rattle.table.specs.inner.Answers.{header_parsed};
ghost use Rattle.table.specs.inner.Header.{NamePlaced, header_in};

use crate::error::CoeffTableCodecError;
use crate::header::{HeaderView, header_at};
use crate::read::from_bytes;

// The header of an accepted image, or why the image is refused.
pub fn table_header(image: &[u8]) -> Result<HeaderView, CoeffTableCodecError>
    ensures means { header_parsed image.now result ≡ header_in (decode image.now) image.now }
    ensures placed { NamePlaced result }
{
    from_bytes(image)?;
    header_at(image)
}
