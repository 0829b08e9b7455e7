// Past an entry that was read before: where it ends, by its counts alone. Nothing is asked of it again, and no pair's name is looked into.
ghost use Rattle.std.specs.Prelude.{◌≡◌, true, ◌+◌, ◌≤◌, length};
ghost use Rattle.wire.specs.Cursor.{le32, next_position};
ghost use Rattle.table.specs.Image.{pairs, entry};
ghost use Rattle.table.specs.inner.Entry.{numbers};
ghost use Rattle.table.specs.inner.Answers.{reads};

use wire::cursor::Cursor;

// The number at a position.
pub fn number_at(s: &[u8], at: usize) -> u32
    requires { at + 4 ≤ length s.now }
    ensures { result ≡ le32 s.now at }
{
    Cursor { at }.u32(s).unwrap().value
}

// Past two numbers, a count and as many numbers: an entry starts with this twice.
fn numbers_end(s: &[u8], at: usize) -> usize
    requires { reads (numbers s.now at) ≡ true }
    ensures { result ≡ next_position (numbers s.now at) at }
{
    let n = number_at(s, at + 8);
    at + 12 + 4 * (n as usize)
}

// Past n pairs: of each the key's length, the key, the value.
fn pairs_end(s: &[u8], at: usize, n: u32) -> usize
    requires { (reads (pairs n s.now at) ≡ true) × (at ≤ length s.now) }
    ensures { result ≡ next_position (pairs n s.now at) at }
{
    let mut end = at;
    for _ in 0..n {
        let size = number_at(s, end);
        end += 8 + (size as usize);
    }
    end
}

// Past an entry, whatever index it is read with.
pub fn entry_end(s: &[u8], at: usize) -> usize
    requires { reads (entry 0 s.now at) ≡ true }
    ensures { result ≡ next_position (entry 0 s.now at) at }
{
    let rows_at = numbers_end(s, at);
    let count_at = numbers_end(s, rows_at);
    let n = number_at(s, count_at);
    pairs_end(s, count_at + 4, n)
}
