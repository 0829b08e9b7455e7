// Replays lists of the original's answers beside the library, and compares them bit for bit (any NaN is like any other).
// compare/driver wrote the lists in data/; data/README says how.
// In a damaged list each record has one wrong answer: every one must be found.
#![tactic(auto)]

mod list;
mod merges;
mod places;
mod playing;
mod reading;
mod tally;

use list::Words;
use std::fs::File;
use std::io::Read;
use std::rt::Files;
use tally::Tally;

// No record of a list is longer.
const RECORD: usize = 131072;

// Reads until the buffer is full, the file ends or a read fails, and answers how many bytes there are: std's `read_exact` does not say how
// many where it fails, and a `for` does not know how far a read goes.
fn read_full<F: Read>(file: &mut F, buf: &mut [u8]) -> usize {
    let mut done = 0;
    while done < buf.len() {
        match file.read(&mut buf[done..]) {
            Ok(n) if 0 < n && n <= buf.len() - done => done += n,
            _ => return done,
        }
    }
    done
}

// A word of the file.
fn next<F: Read>(file: &mut F) -> usize {
    let mut bytes = [0; 4];
    read_full(file, &mut bytes);
    u32::from_le_bytes(bytes) as usize
}

// Reads as many bytes as a record has, and replays it.
fn record_of<F: Read, P: Fn(&mut Tally, Words)>(file: &mut F, t: &mut Tally, n: usize, replayed: &P)
    requires { P.IsAlwaysCallable replayed.now }
{
    let mut buffer = [0; RECORD];
    let Some(bytes) = buffer.get_mut(..n) else {
        t.same(b"a record too long for the replay", 0, 0, n);
        return;
    };
    let got = read_full(file, bytes);
    t.same(b"bytes of the record", 0, got, n);
    replayed(t, Words::new(bytes));
}

// The records of a list, one after another.
fn records<F: Read, P: Fn(&mut Tally, Words)>(file: &mut F, replayed: &P) -> Tally
    requires { P.IsAlwaysCallable replayed.now }
{
    let mut t = Tally::default();
    for _ in 0..next(file) {
        let n = next(file);
        record_of(file, &mut t, n, replayed);
        t.record = t.record.saturating_add(1);
    }
    t
}

fn say(n: u64, what: &[u8]) {
    io::print_decimal(1, n);
    io::write_all(1, what);
}

// A list's line: what it had, and the answers by number, those that there are.
fn conclude(name: &[u8], t: &Tally) {
    io::write_all(1, name);
    io::write_all(1, b": ");
    say(t.record, b" records, ");
    say(t.calls, b" calls, ");
    say(t.samples, b" samples, answers by number");
    for (number, n) in t.answers.iter().enumerate() {
        if 0 < *n {
            io::write_all(1, b" ");
            say(number as u64, b":");
            io::print_decimal(1, *n);
        }
    }
    io::write_all(1, b"; ");
    say(t.differences, b" differences\n");
}

fn replay<R: Files + Eprint, P: Fn(&mut Tally, Words)>(rt: &R, path: &str, replayed: P)
    requires { P.IsAlwaysCallable replayed }
{
    match File::open(rt, path) {
        Ok(mut file) => conclude(path.as_bytes(), &records(&mut file, &replayed)),
        Err(e) => {
            let _ = eprintln!(rt; "{path}: {e}");
        }
    }
}

fn main(rt: HostRuntime) {
    replay(&rt, "reading", reading::record);
    replay(&rt, "merging", merges::record);
    replay(&rt, "playing", playing::record);
    io::write_all(
        1,
        b"In each record of a damaged list one answer is wrong:\n",
    );
    replay(&rt, "reading.damaged", reading::record);
    replay(&rt, "merging.damaged", merges::record);
    replay(&rt, "playing.damaged", playing::record);
}
