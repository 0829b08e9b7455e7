// CRC-32 (ISO 3309, as in zip and PNG), bit by bit from the lowest.
ghost use Rattle.std.specs.Prelude.{◌≡◌};
ghost use Rattle.console.specs.Crc.{crc_bit, crc_byte, crc_bytes, checksum};

// The running number before the first byte.
pub const START: u32 = 0xffff_ffff;

// One bit further.
#[tactic(auto, using(std::proofs::lemmas::Bool::Decides::nat_tests), unfolding(crate::specs::Crc::crc_bit))]
fn step(c: u32) -> u32
    ensures { result ≡ crc_bit c }
{
    if c % 2 == 1 {
        (c / 2) ^ 0xedb8_8320
    } else {
        c / 2
    }
}

#[tactic(auto, using(crate::proofs::CrcLaws::bit_steps))]
fn byte(c: u32, b: u8) -> u32
    ensures { result ≡ crc_byte c b }
{
    let mut r = c ^ b as u32;
    for _i in 0..8u32 {
        r = step(r);
    }
    r
}

// The running number after some bytes more.
#[tactic(auto, using(crate::proofs::CrcLaws::bytes_steps))]
pub fn update(c: u32, s: &[u8]) -> u32
    ensures { result ≡ crc_bytes c s.now }
{
    let mut r = c;
    for b in s {
        r = byte(r, *b);
    }
    r
}

// The checksum that a running number stands for.
pub fn finish(c: u32) -> u32
    ensures { result ≡ checksum c }
{
    c ^ 0xffff_ffff
}
