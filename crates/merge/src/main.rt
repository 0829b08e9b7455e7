// Merges two coefficient tables: the table that it writes has the first one's name and every entry of both, ascending by pitch.
//
// Both tables are read and merged before a file is made. The file is written under its name with .part at its end, and gets its name once
// every byte has reached the disk; where anything fails, the .part is removed (console/src/output.rt). A name that is there already is
// left alone; with --force the whole file takes the place of a file that has it, which may be one of the two tables.
// It ends with status 0 in any case: everything that goes wrong is said on standard error, and nothing else is, so the shell
// script tools/merge turns words there into status 1, and into 2 where the last of them are those of wrong use.
#![tactic(auto)]

mod asked;

use asked::{Asked, Tables};
use console::output::{Output, Program};
use console::{Failed, crc, file, output, say, words};
use sounder::MergeAnswer;
use sounder::images::sounder_from_bytes;
use sounder::merges::sounder_merge;
use std::fs::File;
use std::io::{Print, Write};
use std::rt::{Env, Files};

fn usage<R: Print>(rt: &R) {
    say::text(
        1,
        b"merge A B OUT [--force]: merges the coefficient tables A and B to a table of every entry of both, ascending by pitch\n",
    );
    say::text(
        1,
        b"  --force  put the merged table in the place of the file OUT, where there is one; it may be A or B\n",
    );
    say::text(
        1,
        b"The merged table has A's name. The noise band spans of both must agree. Numbered refusals are in README.md.\n",
    );
    say::last(
        rt,
        b"It writes over nothing without --force. Status (of tools/merge): 0 done, 1 refused or failed, 2 wrong use.\n",
    );
}

// Says which files are refused: one of the two tables, or both where they do not go together.
fn say_refused<R: Env>(rt: &R, t: Tables, image: u32) {
    match image {
        1 => say::argument(rt, 2, t.first),
        2 => say::argument(rt, 2, t.second),
        _ => {
            say::argument(rt, 2, t.first);
            say::text(2, b" and ");
            say::argument(rt, 2, t.second);
        }
    }
}

fn refuse<R: Env>(rt: &R, t: Tables, m: MergeAnswer) -> Failed {
    say_refused(rt, t, m.image);
    say::text(2, b": ");
    words::refusal(2, m.answer);
    say::text(2, b"\n");
    Failed
}

// What was read of a file, in words.
fn describe<R: Env>(rt: &R, argument: usize, image: &[u8]) {
    say::argument(rt, 1, argument);
    say::text(1, b": ");
    let read = sounder_from_bytes(image);
    words::accepted(1, table::read::name(image), read, image.len());
}

fn report<R: Print>(rt: &R, path: &[u8], entries: usize, merged: &[u8]) {
    say::text(1, b"wrote ");
    say::name(1, path);
    say::text(1, b": ");
    say::counted(1, entries as u64, b" entry, ", b" entries, ");
    say::number(1, merged.len() as u64);
    say::text(1, b" bytes, CRC-32 of the file ");
    io::print_hex(1, crc::finish(crc::update(crc::START, merged)) as u64, 8);
    say::last(rt, b"\n");
}

// Writes the merged table into the part, which becomes the file.
fn write<R: Files<File = File> + Print>(
    rt: &R,
    output: Output,
    entries: usize,
    merged: &[u8],
) -> Result<(), Failed> {
    let mut file = output.open(rt)?;
    let written = file.write_all(merged);
    if let Err(e) = written {
        say::failed(output.part, e);
    }
    output.keep(rt, file, written.is_ok())?;
    report(rt, output.path, entries, merged);
    Ok(())
}

// Merges what was read. Every table fits the target.
fn merge<R: Files<File = File> + Env + Print>(
    rt: &R,
    t: Tables,
    output: Output,
    first: &[u8],
    second: &[u8],
) -> Result<(), Failed> {
    let mut target = io::large_buffer();
    let m = sounder_merge(first, second, &mut target);
    let answer = m.answer;
    if answer.number != 0 {
        return Err(refuse(rt, t, m));
    }
    describe(rt, t.first, first);
    describe(rt, t.second, second);
    write(rt, output, answer.first, &target[..answer.second])
}

// Reads both tables, each into a byte more than a table can have, so a longer file is known without being read to its end.
fn read_both<R: Files<File = File> + Env + Print>(
    rt: &R,
    t: Tables,
    output: Output,
) -> Result<(), Failed> {
    let mut first = [0u8; 65537];
    let n = file::read_argument(rt, t.first, &mut first)?;
    let mut second = [0u8; 65537];
    let k = file::read_argument(rt, t.second, &mut second)?;
    merge(rt, t, output, &first[..n], &second[..k])
}

// Whether the file can be written is asked before a table is read.
fn run<R: Files<File = File> + Env + Print>(rt: &R, t: Tables) -> Result<(), Failed> {
    let mut path = io::buffer();
    let n = output::name(rt, Program::Merge, t.out, t.force, &mut path)?;
    let mut part = io::buffer();
    let k = output::part(rt, t.out, &mut part).ok_or(Failed)?;
    let output = Output {
        by: Program::Merge,
        path: &path[..n],
        part: &part[..k],
        replace: t.force,
    };
    read_both(rt, t, output)
}

fn main(rt: HostRuntime) {
    let Ok(asked) = asked::read(&rt) else {
        say::wrong_use(b"merge");
        return;
    };
    if output::standard_output(&rt.stdout()).is_err() {
        return;
    }
    match asked {
        Asked::Help => usage(&rt),
        Asked::Merge(tables) => {
            // why it failed has been said, and the status is 0 in any case
            let _ = run(&rt, tables);
        }
    }
}
