// Merges at the limits. 28 zero bytes are a smallest entry, and zero bytes are a name, so a table of such entries is a head and zeros;
// what stands after the last entry is ignored.
ghost use Rattle.std.specs.Prelude.{◌≤◌};

use crate::{images, say};
use sounder::merges::sounder_merge;

// A table of 1,170 smallest entries under a name of that many bytes: it ends after 32,774 bytes and the name's.
fn smallest(name: u8) -> [u8; 33100] {
    let mut image = [0; 33100];
    image[..5].copy_from_slice(b"MSCT\x01");
    image[6] = name;
    let at = 10 + name as usize;
    image[at..at + 2].copy_from_slice(&1170u16.to_le_bytes());
    image
}

// A merge into the first bytes of a target.
fn merged(what: &[u8], first: &[u8], second: &[u8], room: usize)
    requires { room ≤ 65536 }
{
    let mut target = [0; 65536];
    let m = sounder_merge(first, second, &mut target[..room]);
    say(what, m.answer.number);
}

fn sizes() {
    let plain = smallest(0);
    let two = smallest(2);
    let three = smallest(3);
    merged(b"merged to 65536 bytes", &two, &plain, 65536);
    merged(b"to 65537 bytes", &three, &plain, 65536);
    merged(b"to 65536 bytes in 65535", &two, &plain, 65535);
    merged(b"to 65537 bytes in 13", &three, &plain, 13);
}

fn spans() {
    let spanned = &images::SPANNED;
    let sixteen = &images::SIXTEEN;
    let empty = &images::EMPTY;
    merged(b"a span and none", spanned, sixteen, 65536);
    merged(b"none and a span in 13 bytes", sixteen, spanned, 13);
    merged(b"a span and no entries", spanned, empty, 65536);
    merged(b"no entries and a span", empty, spanned, 65536);
    merged(b"no entries twice in 14 bytes", empty, empty, 14);
    merged(b"no entries twice in 13 bytes", empty, empty, 13);
    merged(b"a cut table and a span in 13 bytes", b"MSC", spanned, 13);
}

pub fn all() {
    sizes();
    spans();
}
