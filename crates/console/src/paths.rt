// Files by their names. A name is text for the standard library, so one that is not UTF-8 names no file here.
use std::fs;
use std::fs::{File, OpenOptions};
use std::io::{Error, ErrorKind, Result};
use std::rt::Files;

fn text(path: &[u8]) -> Result<&str> {
    std::str::from_utf8(path).map_err(|_| Error::new(
        ErrorKind::InvalidFilename,
        "the name is not UTF-8",
    ))
}

// Opens a file to be read.
pub fn open<R: Files>(rt: &R, path: &[u8]) -> Result<R::File> {
    File::open(rt, text(path)?)
}

// Opens a file to be read and written, as it is.
pub fn open_update<R: Files>(rt: &R, path: &[u8]) -> Result<R::File> {
    OpenOptions::new()
        .read(true)
        .write(true)
        .open(rt, text(path)?)
}

// Makes a file, where nothing has the name.
pub fn create<R: Files>(rt: &R, path: &[u8]) -> Result<R::File> {
    File::create_new(rt, text(path)?)
}

// Whether something has the name, whatever it is: also a link that leads nowhere.
pub fn is_taken<R: Files>(rt: &R, path: &[u8]) -> bool {
    match text(path) {
        Ok(name) => fs::symlink_metadata(rt, name).is_ok(),
        Err(_) => false,
    }
}

// Gives a file another name, over what has that.
pub fn rename<R: Files>(rt: &R, from: &[u8], to: &[u8]) -> Result<()> {
    fs::rename(rt, text(from)?, text(to)?)
}

// Removes a file, where it is there.
pub fn remove<R: Files>(rt: &R, path: &[u8]) {
    if let Ok(name) = text(path) {
        let _ = fs::remove_file(rt, name);
    }
}
