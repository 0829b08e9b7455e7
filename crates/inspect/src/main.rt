// Prints what a planner needs to know of a coefficient table: whether it is accepted, its name and entries, and which voices can be made
// of it. Several tables are taken one after the other. What is refused is said with its number on standard output, as part of the
// answer; how many tables are of no use, a file that cannot be read, and wrong arguments are said on standard error, and so is that
// standard output takes no more.
#![tactic(auto)]

mod asked;
mod entry;
mod voices;

use asked::{Asked, Tables};
use console::{Failed, arguments, centres, file, say, words};
use sounder::images::sounder_from_bytes;
use std::io::Print;
use std::rt::{Env, Files};

fn usage<R: Print>(rt: &R) {
    say::text(
        1,
        b"inspect [--centres FILE] TABLE ..: what is in coefficient tables, and which voices can be made of them\n",
    );
    say::text(
        1,
        b"  --centres FILE  the noise bands' centres, a number a line, for all tables; without it, as many centres\n",
    );
    say::text(1, b"                  of 1000 Hz as the voice needs\n");
    say::text(
        1,
        b"Voices are tried at 48000 samples a second. Numbers are rounded to six places.\n",
    );
    say::last(
        rt,
        b"Status (of tools/inspect): 0 a voice can be made of every table, 1 a table is not read, refused or without a voice, 2 wrong use.\n",
    );
}

// The table's name, its entries, and the voices of each kind. Answers whether a voice can be made of it. The last line is the caller's to
// end.
fn describe(image: &[u8], centres: Option<&[f32]>) -> bool {
    let read = sounder_from_bytes(image);
    if read.number != 0 {
        words::refusal(1, read);
        return false;
    }
    words::accepted(1, table::read::name(image), read, image.len());
    let channels = entry::all(image);
    voices::all(image, channels, centres)
}

// Says which file an argument names, before what is said of it.
fn say_argument<R: Env>(rt: &R, i: usize) {
    say::argument(rt, 1, i);
    say::text(1, b": ");
}

// One table. Answers whether a voice can be made of it. The last line is the caller's to end. The buffer has a byte more than a table can,
// so a longer file is known without being read to its end.
fn inspect<R: Files + Env>(rt: &R, argument: usize, centres: Option<&[f32]>) -> bool {
    let mut image = [0u8; 65537];
    say_argument(rt, argument);
    let Ok(n) = file::read_argument(rt, argument, &mut image) else {
        say::text(1, b"not read");
        return false;
    };
    describe(&image[..n], centres)
}

// Ends the line of a table. Where standard output takes no more, why has been said.
fn end_line<R: Print>(rt: &R) -> Result<(), Failed> {
    rt.write_all(b"\n")
        .map_err(|e| say::failed(b"standard output", e))
}

// Whether argument i is a table: neither --centres nor its file, which argument `from` names.
fn is_table(i: usize, from: Option<usize>) -> bool {
    match from {
        Some(from) => i != from && i.wrapping_add(1) != from,
        None => true,
    }
}

// The tables in turn, up to where standard output takes no more. Answers of how many no voice can be made.
fn take_all<R: Files + Env + Print>(
    rt: &R,
    count: usize,
    from: Option<usize>,
    centres: Option<&[f32]>,
) -> Result<usize, Failed> {
    let mut bad = 0;
    for i in 1..count {
        if is_table(i, from) {
            if !inspect(rt, i, centres) {
                bad += 1;
            }
            end_line(rt)?;
        }
    }
    Ok(bad)
}

// Says of how many tables no voice can be made, where there is such a table.
fn say_bad(bad: usize, tables: usize) {
    if 0 < bad {
        say::text(2, b"inspect: of ");
        say::number(2, bad as u64);
        say::text(2, b" of ");
        say::counted(2, tables as u64, b" table", b" tables");
        say::text(2, b" no voice can be made\n");
    }
}

// Takes what was asked for. Where a file of centres cannot be used, no table is looked at.
fn run<R: Files + Env + Print>(rt: &R, tables: Tables, count: usize) -> Result<(), Failed> {
    let centres = centres::from_argument(rt, tables.centres)?;
    let given = centres.as_slice();
    let bad = take_all(rt, count, tables.centres, tables.centres.map(|_| given))?;
    say_bad(bad, tables.count);
    Ok(())
}

fn main(rt: HostRuntime) {
    let count = arguments::count(&rt, usize::MAX);
    match asked::read(&rt, count) {
        Ok(Asked::Help) => usage(&rt),
        Ok(Asked::Inspect(tables)) => {
            // why it failed has been said, and the status is 0 in any case
            let _ = run(&rt, tables, count);
        }
        Err(_) => say::wrong_use(b"inspect"),
    }
}
