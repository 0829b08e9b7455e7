// A file that is written under a name of its own, and gets its name once it is whole.
//
// It is made under its name with .part at the end, which becomes the file once every byte has reached the disk, and is removed where
// anything fails. So a file of the name asked for is whole, or empty where the program was ended in the moment between the taking of the
// name and the renaming. No contract can say what is on a disk; these say what the answers are.
ghost use Rattle.std.specs.Prelude.{◌≡◌, true, IfOk, OnOk};
ghost use Rattle.std.specs.Fd.{file_raw_fd};
ghost use Rattle.io.specs.Counts.{IsPrefixLen};
ghost use Rattle.console.specs.Output.{StandardOutput, Descriptor, IsOpen, PartNamed, number_or_none};

use crate::{Failed, arguments, paths, say};
use std::fs::{File, OpenFile};
use std::io::{Error, ErrorKind};
use std::os::fd::{AsFd, AsRawFd};
use std::rt::{Env, Files};

// Why a call failed, by the system's numbers, where the standard library has no name for that alone.
const NO_DESCRIPTOR: i32 = 9;

const NO_PERMISSION: i32 = 13;

fn is_for(e: Error, reason: i32) -> bool {
    e.raw_os_error() == Some(reason)
}

// Standard output's number, unless it is closed, which has been said then: a file that is made would get that number, and what is said
// there would go into it.
pub fn standard_output<S: AsFd>(out: &S) -> Result<i32, Failed>
    ensures { StandardOutput result }
{
    match out.as_fd().try_clone_to_owned() {
        Err(e) if is_for(e, NO_DESCRIPTOR) => Err(say::failed(b"standard output", e)),
        _ => Ok(1),
    }
}

// The programs that write a file, for the words in which they differ.
#[derive(Clone, Copy)]
pub enum Program {
    Tone,
    Merge,
}

impl Program {
    fn name(self) -> &'static [u8] {
        match self {
            Program::Tone => b"tone",
            Program::Merge => b"merge",
        }
    }

    // Says that a name is taken.
    fn taken(self, path: &[u8]) -> Failed {
        say::name(2, path);
        say::text(2, b": there already, and ");
        say::text(2, self.name());
        match self {
            Program::Tone => say::text(2, b" writes over nothing\n"),
            Program::Merge => say::text(2, b" writes over nothing without --force\n"),
        }
        Failed
    }
}

// Whether a name may be replaced that cannot be opened, by why it cannot: where there is nothing, or a file that may not be written to,
// since a renaming asks the folder alone. Else why has been said: a folder is one such.
fn check_unopened(path: &[u8], e: Error) -> Result<(), Failed> {
    if e.kind() == ErrorKind::NotFound || is_for(e, NO_PERMISSION) {
        return Ok(());
    }
    Err(say::failed(path, e))
}

// Whether a file may take the place of what has the name: nothing, or a file. Where not, why has been said. What cannot be synchronized,
// such as /dev/null, is a device or a pipe; a renaming would put a file into its place.
fn check_replaced<R: Files>(rt: &R, path: &[u8]) -> Result<(), Failed> {
    match paths::open_update(rt, path) {
        Ok(file) if file.sync_all().is_ok() => Ok(()),
        Ok(_) => {
            say::name(2, path);
            say::text(2, b": there already, and no file\n");
            Err(Failed)
        }
        Err(e) => check_unopened(path, e),
    }
}

// Whether the file with a name may be written; if not, why has been said.
fn check_written<R: Files>(rt: &R, by: Program, path: &[u8], replace: bool) -> Result<(), Failed> {
    if replace {
        return check_replaced(rt, path);
    }
    if paths::is_taken(rt, path) {
        return Err(by.taken(path));
    }
    Ok(())
}

// Puts the name of the file to write, which an argument gives, to the start of `path`, and answers how many bytes it has. Where it cannot
// be written, why has been said. Its part must have room for a name, and nothing else may have the name; with `replace` a file may.
pub fn name<R: Files + Env>(
    rt: &R,
    by: Program,
    argument: usize,
    replace: bool,
    path: &mut [u8],
) -> Result<usize, Failed>
    ensures { IfOk result (λ n. IsPrefixLen n path.new) }
{
    let n = arguments::read_start(rt, argument, path);
    if 4080 < n {
        say::text(2, by.name());
        say::text(2, b": the name of the file to write is too long\n");
        return Err(Failed);
    }
    check_written(rt, by, &path[..n], replace)?;
    Ok(n)
}

// Puts .part after a name of n bytes, and answers how long the two are; nothing where there is no room. (The buffer is the caller's, and of
// a fixed length: nothing is allocated.)
fn put_part(path: &mut [u8], n: usize) -> Option<usize>
    ensures { PartNamed result path.new }
{
    if path.len() < 5 || path.len() - 5 < n {
        return None;
    }
    path[n..n + 5].copy_from_slice(b".part");
    Some(n + 5)
}

// Puts the name of the part, which is the argument's with .part after it, to the start of `part`, and answers how many bytes it has;
// nothing where there is no room.
pub fn part<R: Env>(rt: &R, argument: usize, part: &mut [u8]) -> Option<usize>
    ensures { PartNamed result part.new }
{
    let n = arguments::read_start(rt, argument, part);
    put_part(part, n)
}

// How many bytes an open file has, where the system tells.
fn length_of<F: OpenFile>(file: &F) -> Option<u64> {
    file.metadata().ok().map(|m| m.len())
}

// A file to write: which program writes it, its name and its part's, and whether it may take the place of a file that has the name.
#[derive(Clone, Copy)]
pub struct Output<'a> {
    pub by: Program,
    pub path: &'a [u8],
    pub part: &'a [u8],
    pub replace: bool,
}

impl<'a> Output<'a> {
    // Says that the part cannot be made, and where one is there, why that may be.
    fn no_part(&self, e: Error) -> Failed {
        say::failed(self.part, e);
        if e.kind() == ErrorKind::AlreadyExists {
            say::text(
                2,
                b"if its run is under way, wait until that ends; if none is, an interrupted run left it: remove it, then ",
            );
            match self.by {
                Program::Tone => say::text(2, b"play again\n"),
                Program::Merge => say::text(2, b"merge again\n"),
            }
        }
        Failed
    }

    // Makes the part, and answers the file, which is open by a descriptor. Where it cannot be made, why has been said.
    pub fn open<R: Files<File = File>>(&self, rt: &R) -> Result<File, Failed>
        ensures number { Descriptor (number_or_none result) }
        ensures open { IfOk result (λ file. IsOpen (file_raw_fd file)) }
    {
        let file = paths::create(rt, self.part).map_err(|e| self.no_part(e))?;
        if file.as_raw_fd() < 0 {
            return Err(self.no_part(Error::from_raw_os_error(NO_DESCRIPTOR)));
        }
        Ok(file)
    }

    // Whether the part is there in full: every byte written, as the caller says, and on its device. Where it is not there, why has been
    // said.
    fn check_synced<F: OpenFile>(&self, file: &F, whole: bool) -> Result<(), Failed>
        ensures { OnOk result (whole ≡ true) }
    {
        if !whole {
            return Err(Failed);
        }
        file.sync_all().map_err(|e| say::failed(self.part, e))
    }

    // Whether the part is still the file that is open as `file`. It may have been removed meanwhile, and another run may have made its
    // own: then none has the name, or one with another number of bytes. (A part that cannot be opened for another reason counts as the
    // program's.)
    fn is_own<R: Files>(&self, rt: &R, file: &R::File) -> bool {
        match paths::open(rt, self.part) {
            Ok(named) => length_of(&named) == length_of(file),
            Err(e) => e.kind() != ErrorKind::NotFound,
        }
    }

    // Says that the part is not the program's any more.
    fn lost(&self) -> Failed {
        say::name(2, self.part);
        match self.by {
            Program::Tone => say::text(2, b": removed or replaced while tone played, so "),
            Program::Merge => say::text(2, b": removed or replaced while merge wrote, so "),
        }
        say::name(2, self.path);
        say::text(2, b" is not written\n");
        Failed
    }

    // Takes the name by a new file, which the system makes only where nothing has the name, a link that leads nowhere among them; that
    // file is the one that the renaming replaces.
    fn take_name<R: Files>(&self, rt: &R) -> Result<(), Failed> {
        match paths::create(rt, self.path) {
            Ok(_) => Ok(()),
            Err(e) if e.kind() == ErrorKind::AlreadyExists => Err(self.by.taken(self.path)),
            Err(e) => Err(say::failed(self.path, e)),
        }
    }

    fn rename_part<R: Files>(&self, rt: &R) -> Result<(), Failed> {
        paths::rename(rt, self.part, self.path).map_err(|e| say::failed(self.path, e))
    }

    // Gives the whole part its name, over a file that has it where that is to be replaced.
    fn give_name<R: Files>(&self, rt: &R) -> Result<(), Failed> {
        if self.replace {
            return self.rename_part(rt);
        }
        self.take_name(rt)?;
        let renamed = self.rename_part(rt);
        if renamed.is_err() {
            paths::remove(rt, self.path);
        }
        renamed
    }

    // Closes the part and gives it its name where the caller says that every byte was written, and all of them are on the disk; where not,
    // it is removed. A part of another run is left alone. Where the name is not given, why has been said, if not by the caller.
    pub fn keep<R: Files>(&self, rt: &R, file: R::File, whole: bool) -> Result<(), Failed>
        ensures { OnOk result (whole ≡ true) }
    {
        let synced = self.check_synced(&file, whole);
        let own = self.is_own(rt, &file);
        drop(file);
        if !own {
            return Err(self.lost());
        }
        if synced.is_ok() && self.give_name(rt).is_ok() {
            return Ok(());
        }
        paths::remove(rt, self.part);
        Err(Failed)
    }
}
