// Bytes on their way into the file, with their checksum.
use console::crc;
use std::io::{Result, Write};

#[derive(Clone, Copy)]
pub struct Sink {
    pub crc: u32,
}

impl Sink {
    pub fn new() -> Sink {
        Sink { crc: crc::START }
    }

    pub fn send<W: Write>(&mut self, file: &mut W, bytes: &[u8]) -> Result<()> {
        file.write_all(bytes)?;
        self.crc = crc::update(self.crc, bytes);
        Ok(())
    }
}
