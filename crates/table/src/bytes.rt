// Parts of a byte slice, and numbers in it, for any position.
ghost use Rattle.std.specs.Prelude.{◌≡◌, ◌+◌, ◌<◌, ◌^◌, length, take, drop, get_or};
ghost use Rattle.wire.specs.Cursor.{le32};
ghost use Rattle.table.specs.Name.{StartsAt};
ghost use Rattle.table.specs.inner.Header.{part_start};

// The part of n bytes from a position on, as far as it is there; past the end, the empty part at the start.
pub fn part_of(s: &[u8], at: usize, n: usize) -> &[u8]
    ensures bytes { result.now ≡ take n (drop at s.now) }
    ensures placed { StartsAt s.entry (part_start (length s.now) at) result }
{
    // `get` promises a part's bytes, but not where it lies
    if s.len() < at {
        return &s[..0];
    }
    let rest = &s[at..];
    &rest[..n.min(rest.len())]
}

// The byte at an index, 0 past the end.
fn byte_or(s: &[u8], i: usize) -> u8
    ensures { result ≡ get_or s.now i 0 }
{
    s.get(i).copied().unwrap_or(0)
}

// The little-endian number at a position, with 0 for bytes past the end.
pub fn word_or(s: &[u8], at: usize) -> u32
    requires { at < 2 ^ 63 + 2 ^ 62 }
    ensures { result ≡ le32 s.now at }
{
    u32::from_le_bytes([
        byte_or(s, at),
        byte_or(s, at + 1),
        byte_or(s, at + 2),
        byte_or(s, at + 3),
    ])
}
