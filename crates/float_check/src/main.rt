// Compares the functions of `float` with answers that were worked out by whole numbers (cases.rt), and writes a line for each group of
// cases. A case that differs is written out, and its group's line then says how many differ.
#![tactic(auto)]

mod cases;

use float::from_bits;

// The pattern of a float; one for every NaN. (Not from `float`: what an answer is read by is not to come from what is checked.)
fn bits(x: f32) -> u32 {
    if x.is_nan() { 0x7fc0_0000 } else { x.to_bits() }
}

// What `sqrt_each` gives at a place of a column of sixteen x.
fn in_column(x: f32, place: u32) -> f32 {
    let mut roots = [0.0; 16];
    float::sqrt_each(&mut roots, &[x; 16], 16);
    roots[place as usize % 16]
}

// What was asked, the answer, and the answer that was expected.
#[derive(Clone, Copy)]
struct Asked {
    case: u64,
    given: u32,
    expected: u32,
}

// A case of one operand.
fn one(n: u32, given: u32, expected: u32) -> Asked {
    Asked {
        case: u64::from(n),
        given,
        expected,
    }
}

// A case of two operands, the first in the upper half.
fn two(a: u32, b: u32, given: u32, expected: u32) -> Asked {
    Asked {
        case: u64::from(a) << 32 | u64::from(b),
        given,
        expected,
    }
}

// Writes a case that differs. Printing is by `io` here, which rests on the C function `write` alone; `println!` would rest on those of the
// error's number and words too.
fn report(asked: Asked) {
    io::write_all(1, b"differs: ");
    io::print_hex(1, asked.case, 8);
    io::write_all(1, b" gives ");
    io::print_hex(1, u64::from(asked.given), 8);
    io::write_all(1, b", not ");
    io::print_hex(1, u64::from(asked.expected), 8);
    io::write_all(1, b"\n");
}

// Writes a group's line.
fn conclude(name: &[u8], cases: usize, wrong: usize) {
    io::write_all(1, name);
    io::write_all(1, b" ");
    io::print_decimal(1, cases as u64);
    if wrong == 0 {
        io::write_all(1, b" ok\n");
    } else {
        io::write_all(1, b" with ");
        io::print_decimal(1, wrong as u64);
        io::write_all(1, b" wrong\n");
    }
}

// A group of cases, each of which `ask` asks.
fn compare<T, F: Fn(&T) -> Asked>(name: &[u8], cases: &[T], ask: F)
    requires { F.IsAlwaysCallable ask }
{
    let mut wrong = 0;
    for case in cases {
        let asked = ask(case);
        if asked.given != asked.expected {
            report(asked);
            wrong += 1;
        }
    }
    conclude(name, cases.len(), wrong);
}

fn main() {
    compare(b"sqrt", &cases::SQRT, |&(n, root)| {
        one(n, bits(float::sqrt(from_bits(n))), root)
    });
    compare(b"sqrt_each", &cases::SQRT, |&(n, root)| {
        one(n, bits(in_column(from_bits(n), n)), root)
    });
    compare(b"min", &cases::PAIRS, |&(a, b, smaller, _)| {
        two(a, b, bits(float::min(from_bits(a), from_bits(b))), smaller)
    });
    compare(b"max", &cases::PAIRS, |&(a, b, _, larger)| {
        two(a, b, bits(float::max(from_bits(a), from_bits(b))), larger)
    });
    compare(b"is_finite", &cases::IS_FINITE, |&(n, finite)| {
        one(
            n,
            u32::from(float::is_finite(from_bits(n))),
            u32::from(finite),
        )
    });
    compare(b"from_bits special", &cases::SPECIAL, |&(n, pattern)| {
        one(n, bits(from_bits(n)), pattern)
    });
    compare(b"from_bits", &cases::VALUES, |&(n, value)| {
        one(n, bits(from_bits(n)), bits(value))
    });
}
