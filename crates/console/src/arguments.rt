// The words of the command line, by their number; word 0 is the program's name. (rt, i, buf) is how the library is asked for one, by
// `rt.arg(i, buf)`: a struct of the three would be made for each call and taken apart in it, which is no plainer.
ghost use Rattle.std.specs.Prelude.{◌≤◌, IfSome};
ghost use Rattle.io.specs.Counts.{IsPrefixLen};

use std::env::FillError;
use std::rt::Env;

// Puts a word to the start of `buf`, and answers how many bytes it has; none where there is no such word, or where it does not fit, and
// then `buf` is full of its first bytes.
pub fn read<R: Env>(rt: &R, i: usize, buf: &mut [u8]) -> Option<usize>
    ensures { IfSome result (λ n. IsPrefixLen n buf.new) }
{
    rt.arg(i, buf).ok()
}

// Puts the start of a word to the start of `buf`, as much of it as fits, and answers how many bytes that is; 0 where there is no such word.
pub fn read_start<R: Env>(rt: &R, i: usize, buf: &mut [u8]) -> usize
    ensures { IsPrefixLen result buf.new }
{
    match rt.arg(i, buf) {
        Ok(n) => n,
        Err(FillError::TooLong) => buf.len(),
        Err(FillError::NotPresent) => 0,
    }
}

fn is_there<R: Env>(rt: &R, i: usize) -> bool {
    !matches!(rt.arg(i, &mut [0; 1]), Err(FillError::NotPresent))
}

// How many words there are, the program's name among them; no more than `most` are counted.
pub fn count<R: Env>(rt: &R, most: usize) -> usize
    ensures { result ≤ most }
{
    (0..most).find(|i| !is_there(rt, *i)).unwrap_or(most)
}
