// The file: made under a name of its own, filled block by block, and given its name at the end.
ghost use Rattle.std.specs.Prelude.{◌+◌, ◌<◌, ◌≤◌};

use crate::options::{Options, Retune};
use crate::playing::{Fault, Run};
use crate::sink::Sink;
use crate::wav;
use console::output::{Output, Program};
use console::{Failed, crc, output, say, words};
use sounder::Answer;
use std::fs::File;
use std::io::{Print, Write};
use std::rt::{Env, Files};
use voice::Voice;

// How many samples a time has: whole ones, of up to 60 seconds at up to 192,000 a second, so that each number of a sample is an f32.
// More, which no voice that was made can ask for, stands for none.
fn samples(micros: u64, rate: u32) -> u32
    ensures { result ≤ 16777216 }
{
    if 60000000 < micros {
        return 0;
    }
    let n = micros * u64::from(rate) / 1000000;
    if 16777216 < n { 0 } else { n as u32 }
}

// How many samples are played before the retune: half of them, where no time was given.
fn before_retune(retune: Retune, rate: u32, total: u32) -> u32 {
    match retune.at {
        Some(at) => samples(at, rate),
        None => total / 2,
    }
}

// How many blocks of 128 samples hold n.
fn blocks(n: u32) -> u32
    ensures { result ≤ 33554432 }
{
    n.div_ceil(128)
}

// A line at each tenth of the blocks. A block that a retune cuts in two is done with its second part.
fn progress(played: u32, total: u32) {
    if played % 128 != 0 && played != total {
        return;
    }
    let done = blocks(played);
    let all = blocks(total);
    if all != 0 && done != 0 && (done - 1) * 10 / all < done * 10 / all {
        say::text(1, b"played ");
        say::number(1, u64::from(played));
        say::text(1, b" of ");
        say::counted(1, u64::from(total), b" sample\n", b" samples\n");
    }
}

// Where the block that starts at a sample ends: at the next multiple of 128, or at `to` where that comes first.
fn block_end(from: u32, to: u32) -> u32
    requires { from < to }
    ensures ahead { (from < result) × (result ≤ to) }
    ensures near { result ≤ from + 128 }
{
    let n = 128 - from % 128;
    if n < to - from { from + n } else { to }
}

fn say_retuned(rate: u32, played: u32) {
    say::text(1, b"retuned to ");
    say::number(1, u64::from(rate));
    say::text(1, b" a second after ");
    say::counted(1, u64::from(played), b" sample\n", b" samples\n");
}

impl<'a> Run<'a> {
    // Before the first sample.
    fn start(options: &'a Options, voice: Voice) -> Run<'a>
        ensures { result.total ≤ 16777216 }
    {
        Run {
            options,
            total: samples(options.micros, options.rate),
            voice,
            sink: Sink::new(),
            peak: 0,
        }
    }

    // The samples from one up to another, in blocks. A `while`: where the first block starts between two multiples of 128 it is shorter,
    // and no range of a `for` goes in such steps.
    fn fill<W: Write>(&mut self, file: &mut W, from: u32, to: u32) -> Result<(), Fault> {
        let mut played = from;
        while played < to {
            let end = block_end(played, to);
            self.block(file, played, (end - played) as usize)?;
            played = end;
            progress(played, self.total);
        }
        Ok(())
    }

    // All samples, with the retune between two of them where one is asked for.
    fn fill_all<W: Write>(&mut self, file: &mut W) -> Result<(), Fault> {
        let total = self.total;
        let Some(retune) = self.options.retune else {
            return self.fill(file, 0, total);
        };
        let n = before_retune(retune, self.options.rate, total);
        self.fill(file, 0, n)?;
        self.retune(retune.rate)?;
        say_retuned(retune.rate, n);
        self.fill(file, n, total)
    }

    // The header, then the samples.
    fn fill_file<W: Write>(&mut self, file: &mut W) -> Result<(), Fault> {
        self.sink
            .send(file, &wav::header(self.options.rate, self.total))?;
        self.fill_all(file)
    }
}

// Says why not every sample was played and written.
fn say_fault(fault: Fault, part: &[u8]) {
    match fault {
        Fault::Failed(e) => {
            say::failed(part, e);
        }
        Fault::Refused(number) => {
            words::refusal(
                2,
                Answer {
                    number,
                    first: 0,
                    second: 0,
                },
            );
            say::text(2, b"\n");
        }
    }
}

fn report<R: Print>(rt: &R, path: &[u8], run: Run) {
    say::text(1, b"wrote ");
    say::name(1, path);
    say::text(1, b": ");
    say::counted(1, u64::from(run.total), b" sample at ", b" samples at ");
    say::number(1, u64::from(run.options.rate));
    say::text(1, b" a second, peak ");
    say::float(1, run.peak);
    say::text(1, b", CRC-32 of the file ");
    io::print_hex(1, u64::from(crc::finish(run.sink.crc)), 8);
    if 0x3f80_0000 < run.peak {
        say::text(
            1,
            b"\nthe peak is above 1, where players cut it off: a lower --gain helps",
        );
    }
    say::last(rt, b"\n");
}

// Plays into the part, which becomes the file once it is whole, and is removed where it is not.
fn make_file<R: Files<File = File> + Print>(
    rt: &R,
    output: Output,
    mut run: Run,
) -> Result<(), Failed> {
    let mut file = output.open(rt)?;
    let filled = run.fill_file(&mut file);
    if let Err(fault) = filled {
        say_fault(fault, output.part);
    }
    output.keep(rt, file, filled.is_ok())?;
    report(rt, output.path, run);
    Ok(())
}

pub fn write<R: Files<File = File> + Env + Print>(
    rt: &R,
    o: &Options,
    voice: Voice,
) -> Result<(), Failed> {
    let mut path = io::buffer();
    let n = output::name(rt, Program::Tone, o.out, false, &mut path)?;
    let mut part = io::buffer();
    let k = output::part(rt, o.out, &mut part).ok_or(Failed)?;
    let output = Output {
        by: Program::Tone,
        path: &path[..n],
        part: &part[..k],
        replace: false,
    };
    make_file(rt, output, Run::start(o, voice))
}
