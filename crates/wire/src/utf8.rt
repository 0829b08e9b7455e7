// UTF-8 (RFC 3629, section 4).
ghost use Rattle.std.specs.Prelude.{◌≡◌, ℕ, ◌+◌, ◌<◌, ◌≤◌, length, drop, get_or};
ghost use Rattle.wire.specs.Utf8.{utf8};

// The highest of 64 bytes, in a loop without an exit: the machine takes many of them at a time.
fn highest(s: &[u8], from: usize) -> u8
    requires { from + 64 ≤ length s.now }
    ensures { (k : ℕ) → k < 64 → get_or s.now (from + k) 0 ≤ result }
{
    let mut high = 0;
    for k in 0..64 {
        high = high.max(s[from + k]);
    }
    high
}

// Where the bytes below 0x80 end that stand at the start, 64 at a time: each is a character of its own. (Most names are of such bytes,
// and this is the quickest way past them.)
fn past_plain(s: &[u8]) -> usize
    ensures { (result ≤ length s.now) × (utf8 (drop result s.now) ≡ utf8 s.now) }
{
    let blocks = s.len() / 64;
    for k in 0..blocks {
        if 0x80 <= highest(s, k * 64) {
            return k * 64;
        }
    }
    blocks * 64
}

// Whether the bytes are UTF-8. (What is left is tested by the library where it has 63 bytes at most, and from 64 on 64 at a time by the
// kit's `simdutf8`: the library's own test goes character by character through what is not plain.)
pub fn from_utf8(s: &[u8]) -> bool
    ensures { result ≡ utf8 s.now }
{
    simdutf8::basic::from_utf8(&s[past_plain(s)..]).is_ok()
}
