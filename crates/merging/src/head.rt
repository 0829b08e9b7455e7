// What stands before the entries.
ghost use Rattle.std.specs.Prelude.{◌≡◌, ◌++◌, ◌≤◌, length, drop};
ghost use Rattle.table.specs.Decode.{name_of};
ghost use Rattle.merging.specs.inner.Accepted.{read_as};
ghost use Rattle.merging.specs.inner.Image.{head_of};

use crate::accepted::Accepted;
use wire::copy::copy;

// The mark, version 1, an accepted image's name and an entry count: the image's own bytes up to its count, with the version set.
pub fn put_head(first: Accepted, count: u32, target: &mut [u8])
    requires { first.extent.at ≤ length target.old }
    ensures { target.new
        ≡ head_of (name_of (read_as first.entry)) count ++ drop first.entry.extent.at target.old }
{
    let m = first.extent.at - 4;
    copy(&first.image[..m], &mut target[..m]);
    target[4] = 1;
    target[5] = 0;
    target[m..m + 4].copy_from_slice(&count.to_le_bytes());
}
