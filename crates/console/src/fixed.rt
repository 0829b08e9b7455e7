// A float as decimal digits: six places after the point, correctly rounded (ties to even), however large it is.
ghost use Rattle.std.specs.Prelude.{◌≡◌, ◌+◌, ◌*◌, ◌^◌, ◌<◌, ◌≤◌};
ghost use Rattle.console.specs.Fixed.{total, InLimbs, rounded_of, significand_of, exponent_of, millionths_of, FixedIs};

use std::fmt;

// A whole number in three limbs of 13 decimal digits: every float is below 10^39. (A u128 is too short for one that is none: the fields of
// an infinity stand for 2^128.)
#[derive(Clone, Copy)]
pub struct Limbs {
    pub high: u64,
    pub middle: u64,
    pub low: u64,
}

// The magnitude of a float: its whole part, and the millionths.
#[derive(Clone, Copy)]
pub struct Fixed {
    pub whole: Limbs,
    pub millionths: u64,
}

// No zeros in front, and six digits after the point.
impl fmt::Display for Fixed {
    fn fmt<W: fmt::Write>(&self, f: &mut fmt::Formatter<W>) -> fmt::Result {
        let Limbs { high, middle, low } = self.whole;
        match (high, middle) {
            (0, 0) => write!(f, "{low}")?,
            (0, _) => write!(f, "{middle}{low:013}")?,
            _ => write!(f, "{high}{middle:013}{low:013}")?,
        }
        write!(f, ".{:06}", self.millionths)
    }
}

// n / d to the nearest whole number, ties to the even one.
#[tactic(auto, using(std::proofs::lemmas::Bool::Decides::nat_tests), unfolding(crate::specs::Fixed::rounded_of))]
fn rounded(n: u64, d: u64) -> u64
    requires { (0 < d) × (d < 2 ^ 62) × (n < 2 ^ 62) }
    ensures { result ≡ rounded_of n d }
{
    let q = n / d;
    let twice = n % d * 2;
    if twice < d {
        return q;
    }
    if d < twice {
        return q + 1;
    }
    q + q % 2
}

// The millionths of m / 2^s. From 2^45 on that is less than a half.
fn millionths(m: u32, s: u32) -> u64
    requires { m < 16777216 }
    ensures { result ≡ rounded_of (m * 1000000) (2 ^ s) }
{
    let n = (m as u64) * 1000000;
    if s < 45 {
        return rounded(n, 1u64 << s);
    }
    0
}

fn doubled(l: Limbs) -> Limbs
    requires { InLimbs l × (l.high < 2 ^ 62) }
    ensures { InLimbs result × (total result ≡ 2 * total l) }
{
    let low = l.low * 2;
    let middle = l.middle * 2 + low / 10000000000000;
    Limbs {
        high: l.high * 2 + middle / 10000000000000,
        middle: middle % 10000000000000,
        low: low % 10000000000000,
    }
}

// m × 2^e.
fn shifted(m: u32, e: u32) -> Limbs
    requires { (m < 16777216) × (e < 106) }
    ensures { InLimbs result × (total result ≡ m * 2 ^ e) }
{
    let mut l = Limbs {
        high: 0,
        middle: 0,
        low: m as u64,
    };
    for _i in 0..e {
        l = doubled(l);
    }
    l
}

// The digits below the leading one count 2^23 more, but where the exponent's field is 0.
fn significand(bits: u32) -> u32
    ensures { (result ≡ significand_of bits) × (result < 16777216) }
{
    let t = bits % 0x80_0000;
    if bits / 0x80_0000 % 256 == 0 {
        return t;
    }
    t + 0x80_0000
}

// The exponent's field; 0 counts as 1.
fn exponent(bits: u32) -> u32
    ensures { (result ≡ exponent_of bits) × (result < 256) }
{
    let e = bits / 0x80_0000 % 256;
    if e == 0 {
        return 1;
    }
    e
}

// The magnitude of the float with a pattern, whatever its sign. That of an infinity or a NaN is what its fields would stand for.
pub fn magnitude(bits: u32) -> Fixed
    ensures { FixedIs result (millionths_of bits) }
{
    let m = significand(bits);
    let e = exponent(bits);
    if 150 <= e {
        return Fixed {
            whole: shifted(m, e - 150),
            millionths: 0,
        };
    }
    let n = millionths(m, 150 - e);
    Fixed {
        whole: Limbs {
            high: 0,
            middle: n / 1000000 / 10000000000000,
            low: n / 1000000 % 10000000000000,
        },
        millionths: n % 1000000,
    }
}
