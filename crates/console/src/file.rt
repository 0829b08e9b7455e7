// Whole files.
ghost use Rattle.std.specs.Prelude.{IfOk};
ghost use Rattle.io.specs.Counts.{IsPrefixLen};
ghost use Rattle.console.specs.File.{HasRead};

use crate::{Failed, arguments, paths, say};
use std::io::Read;
use std::rt::{Env, Files};

// Reads until the buffer is full or the file ends, which it says by giving no byte, and answers how many bytes that were. A file longer
// than the buffer fills it. (How far a turn goes is what the file gives: there is no range to go through.)
fn read_all<F: Read>(file: &mut F, buf: &mut [u8]) -> std::io::Result<usize>
    ensures { IfOk result (λ n. IsPrefixLen n buf.new) }
{
    let mut done = 0;
    while done < buf.len() {
        match file.read(&mut buf[done..])? {
            0 => break,
            n => done += n,
        }
    }
    Ok(done)
}

// Reads the file with a name, and answers how many bytes were read. Where that fails, it has said so on standard error. The contract only
// speaks of how many bytes were read: which bytes a file holds, no contract can say.
pub fn read<R: Files>(rt: &R, path: &[u8], buf: &mut [u8]) -> Result<usize, Failed>
    ensures { HasRead result buf.new }
{
    let mut file = paths::open(rt, path).map_err(|e| say::failed(path, e))?;
    read_all(&mut file, buf).map_err(|e| say::failed(path, e))
}

// Reads the file that an argument names, as `read` does. (The same three parameters as `arguments::read`, for the reason said there.)
pub fn read_argument<R: Files + Env>(rt: &R, i: usize, buf: &mut [u8]) -> Result<usize, Failed>
    ensures { HasRead result buf.new }
{
    let mut path = io::buffer();
    let n = arguments::read_start(rt, i, &mut path);
    read(rt, &path[..n], buf)
}
