// Decimal numbers as people write them: an optional minus sign, digits, and an optional point among or around them.
// Digits are gathered in whole numbers: at most 15 of them after leading zeros, and at most 15 after the point.
ghost use Rattle.std.specs.Prelude.{◌≡◌, ℕ, ◌≤◌, List};
ghost use Rattle.std.specs.Iterator.{AlwaysYields, IsFinite};
ghost use Rattle.console.specs.Decimal.{start_scan, next_scan, pointed, with_digit, scan_of, concluded, read_of, whole_of, found_number};

// digits / 10^places, less than 0 where negative.
#[derive(Clone, Copy)]
pub struct Decimal {
    pub negative: bool,
    pub digits: u64,
    pub places: u32,
}

// What is known after some of the text, where it may be the start of a number: the digits so far, how many stood after the point, and
// whether there was a point and a digit. (Flags beside the numbers: an Option of either would be taken apart at each digit.)
#[derive(Clone, Copy)]
struct Scan {
    digits: u64,
    places: u32,
    point: bool,
    some: bool,
}

impl Scan {
    fn start() -> Scan
        ensures { result ≡ start_scan }
    {
        Scan {
            digits: 0,
            places: 0,
            point: false,
            some: false,
        }
    }

    // With a point, which is the only one.
    fn pointed(self) -> Option<Scan>
        ensures { result ≡ pointed self }
    {
        if self.point {
            return None;
        }
        Some(Scan {
            point: true,
            ..self
        })
    }

    // With a digit, which is at most the fifteenth, and after the point the fifteenth there.
    fn with_digit(self, digit: u8) -> Option<Scan>
        requires { digit ≤ 9 }
        ensures { result ≡ with_digit self digit }
    {
        if 100_000_000_000_000 <= self.digits || self.point && 15 <= self.places {
            return None;
        }
        Some(Scan {
            digits: self.digits * 10 + digit as u64,
            places: self.places + self.point as u32,
            point: self.point,
            some: true,
        })
    }

    // With one byte more; none where that is no start of a number.
    #[tactic(auto, using(std::proofs::lemmas::Bool::Decides::nat_tests), unfolding(crate::specs::Decimal::next_scan))]
    fn next(self, b: u8) -> Option<Scan>
        ensures { result ≡ next_scan self b }
    {
        match b {
            b'.' => self.pointed(),
            b'0'..=b'9' => self.with_digit(b - b'0'),
            _ => None,
        }
    }

    // The number, where there is a digit.
    fn conclude(self, negative: bool) -> Option<Decimal>
        ensures { result ≡ concluded negative self }
    {
        if !self.some {
            return None;
        }
        Some(Decimal {
            negative,
            digits: self.digits,
            places: self.places,
        })
    }
}

// The number that bytes spell, as they come.
pub(crate) fn spelled<'a, I: Iterator<Item = &'a u8>>(mut bytes: I) -> Option<Decimal>
    requires can { I.can_next bytes }
    requires finite { IsFinite (I.remaining bytes) }
    ensures { (text : List ℕ) → AlwaysYields I.next_gives (λ b. b.now) bytes text → result ≡ read_of text }
{
    let first = *bytes.next()?;
    let negative = first == b'-';
    let mut scan = if negative {
        Scan::start()
    } else {
        Scan::start().next(first)?
    };
    for b in bytes {
        scan = scan.next(*b)?;
    }
    scan.conclude(negative)
}

pub fn read(text: &[u8]) -> Option<Decimal>
    ensures { result ≡ read_of text.now }
{
    spelled(text.iter())
}

// A whole number, at most the largest u32.
fn whole_number(d: Decimal) -> Option<u32>
    ensures { result ≡ whole_of d }
{
    if d.negative || 0 < d.places {
        return None;
    }
    u32::try_from(d.digits).ok()
}

pub fn read_whole(text: &[u8]) -> Option<u32>
    ensures { result ≡ found_number (read_of text.now) }
{
    whole_number(read(text)?)
}
