// A WAV file of one channel of 32-bit floats (format 3), in little-endian chunks: RIFF, fmt, fact and data. 58 bytes stand before the
// samples.
ghost use Rattle.std.specs.Prelude.{◌≤◌};

// Of RIFF the mark, the bytes that follow, and WAVE; fmt, of 18 bytes: floats, one channel, the rate, the bytes a second, 4 bytes of 32
// bits a sample, nothing more; fact, with the number of samples; the head of data. The numbers that differ are still 0.
const HEADER: [u8; 58] =
    *b"RIFF\0\0\0\0WAVEfmt \x12\0\0\0\x03\0\x01\0\0\0\0\0\0\0\0\0\x04\0\x20\0\0\0fact\x04\0\0\0\0\0\0\0data\0\0\0\0";

fn put(header: &mut [u8; 58], at: usize, n: u32)
    requires { at ≤ 54 }
{
    header[at..at + 4].copy_from_slice(&n.to_le_bytes());
}

// What stands before so many samples. A rate that a voice was made at, and the samples of 60 seconds, are far below those whose bytes are
// past 2^32: of such the largest number stands there.
pub fn header(rate: u32, samples: u32) -> [u8; 58] {
    let bytes = samples.saturating_mul(4);
    let mut header = HEADER;
    put(&mut header, 4, bytes.saturating_add(50));
    put(&mut header, 24, rate);
    put(&mut header, 28, rate.saturating_mul(4));
    put(&mut header, 46, samples);
    put(&mut header, 54, bytes);
    header
}
