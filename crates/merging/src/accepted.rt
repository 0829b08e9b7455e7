// An image that was read, with where its entries stand.
ghost use Rattle.std.specs.Prelude.{ℕ, ◌<◌, slice_index};
ghost use Rattle.merging.specs.inner.Extent.{AcceptedAt};

use crate::extent::{Extent, extent_of};
use table::error::CoeffTableCodecError;
use table::read::from_bytes;

#[derive(Clone, Copy)]
pub struct Accepted<'a> {
    pub image: &'a [u8],
    pub extent: Extent,
    ghost bytes: { (i : ℕ) → slice_index image.now i < 256 },
    ghost placed: { AcceptedAt image.now extent },
}

impl<'a> Accepted<'a> {
    ghost use Rattle.std.specs.Prelude.{◌≡◌, IfOk, IfErr};
    ghost use Rattle.wire.specs.Parse.{refused};
    ghost use Rattle.table.specs.Decode.{decode};
    ghost use Rattle.table.specs.Answer.{counts, refusal_of};

    // Reads an image, with questions 1 to 7.
    pub fn read(image: &'a [u8]) -> Result<Accepted<'a>, CoeffTableCodecError>
        ensures ok { IfOk result (λ a. a.image.now ≡ image.now) }
        ensures err { IfErr result (λ e. counts (decode image.now) ≡ refused (refusal_of e)) }
    {
        let counts = from_bytes(image)?;
        Ok(Accepted {
            image,
            extent: extent_of(image, counts),
        })
    }
}

// Two accepted images, whose tables are to be one.
#[derive(Clone, Copy)]
pub struct Tables<'a> {
    pub first: Accepted<'a>,
    pub second: Accepted<'a>,
}

impl<'a> Tables<'a> {
    ghost use Rattle.std.specs.Prelude.{◌≡◌, ◌+◌, ◌-◌};

    // How many entries the two have.
    pub fn entries(self) -> usize
        ensures { result ≡ self.entry.first.extent.count + self.entry.second.extent.count }
    {
        self.first.extent.count + self.second.extent.count
    }

    // How long the result is, by where the two end: the first image up to its last entry, and the second one's entries.
    pub fn bytes(self) -> usize
        ensures { result ≡ self.entry.first.extent.end + (self.entry.second.extent.end - self.entry.second.extent.at) }
    {
        self.first.extent.end + (self.second.extent.end - self.second.extent.at)
    }
}
