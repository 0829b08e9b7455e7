// Plays a coefficient table to a WAV file: a table, a voice of it, blocks of 128 samples, and a file of 32-bit floats.
//
// The file is written under its name with .part at its end, and gets its name once every byte has reached the disk; where anything
// fails, the .part is removed (console/src/output.rt). A name that is there already is left alone.
// It ends with status 0 in any case: everything that goes wrong is said on standard error, and nothing else is, so the shell
// script tools/tone turns words there into status 1, and into 2 where the last of them are those of wrong use.
#![tactic(auto)]

mod flags;
mod options;
mod output;
mod plan;
mod playing;
mod reading;
mod sink;
mod values;
mod wav;

use console::{Failed, centres, file, say, words};
use flags::Flag;
use options::Options;
use plan::Loudness;
use playing::bits;
use reading::Asked;
use sounder::images::{sounder_desk, sounder_from_bytes};
use sounder::voices::{sounder_make, sounder_reseed};
use sounder::{Answer, numbers_of};
use std::fs::File;
use std::io::Print;
use std::rt::{Env, Files};
use voice::{Voice, rate_ok};

// How it is called, the voice and its rate.
fn usage_voice() {
    say::text(
        1,
        b"tone TABLE OUT.wav [option ..]: plays a coefficient table to a WAV file of 32-bit floats\n",
    );
    say::text(
        1,
        b"  --single N      a voice of channel N of the table (N from 0; channel 0 where nothing is said)\n",
    );
    say::text(
        1,
        b"  --blend         a voice that blends the table's channels\n",
    );
    say::text(
        1,
        b"  --rate HZ       samples a second, 8000 to 192000 (48000)\n",
    );
}

// What sounds.
fn usage_sound() {
    say::text(1, b"  --freq HZ       the pitch, at most 20000 (220)\n");
    say::text(1, b"  --to HZ         glide to this pitch, at most 20000\n");
    say::text(
        1,
        b"  --gain G        the gain of a single voice (1), or of a blend's channels, up to four times (1, 0, 0, 0)\n",
    );
    say::text(1, b"  --seconds S     how long, up to 60 (1)\n");
    say::text(1, b"  --seed N        the noise's seed\n");
    say::text(
        1,
        b"  --centres FILE  the noise bands' centres, a number a line\n",
    );
}

// What changes: the rate while it sounds, and the loudness by the minute.
fn usage_change() {
    say::text(
        1,
        b"  --retune HZ     go over to this rate while the tone sounds, 8000 to 192000\n",
    );
    say::text(
        1,
        b"  --at S          when, in seconds from the start (half of the way)\n",
    );
    say::text(
        1,
        b"  --plan FILE     quiet windows, a line each: START END STEP, in minutes of the week or as Mon 22:00 Tue 06:00 30\n",
    );
    say::text(
        1,
        b"  --minute M      the minute that the plan is asked for, 0 to 10079 or \"Mon 22:00\"; gains are multiplied by STEP / 100\n",
    );
}

// What --help prints.
fn usage<R: Print>(rt: &R) {
    usage_voice();
    usage_sound();
    usage_change();
    say::text(
        1,
        b"Numbers are decimal, with at most 15 digits. Numbered refusals are in README.md.\n",
    );
    say::last(
        rt,
        b"It writes over nothing. Status (of tools/tone): 0 done, 1 refused or failed, 2 wrong use.\n",
    );
}

// What was read, in words.
fn describe(image: &[u8], entries: usize, partials: usize, bands: usize) {
    say::text(1, b"table \"");
    say::name(1, table::read::name(image));
    say::text(1, b"\": ");
    say::counted(1, entries as u64, b" entry; ", b" entries; ");
    say::text(1, b"the voice has ");
    say::counted(1, partials as u64, b" partial and ", b" partials and ");
    say::counted(1, bands as u64, b" noise band\n", b" noise bands\n");
}

// Which pitch is played.
fn describe_pitch(o: &Options) {
    say::text(1, b"pitch ");
    say::float(1, bits(o.pitch()));
    if let Some(to) = o.to {
        say::text(1, b" to ");
        say::float(1, bits(to));
    }
    if o.freq.is_some() {
        say::text(1, b" Hz\n");
    } else {
        say::text(1, b" Hz (no --freq was given)\n");
    }
}

// Says where a blend has fewer channels than gains were given.
fn describe_gains(o: &Options, channels: usize) {
    let given = o.gains.iter().filter(|g| g.is_some()).count();
    if channels < given {
        say::text(1, b"the voice has ");
        say::counted(1, channels as u64, b" channel", b" channels");
        say::text(1, b": the gains beyond are not heard\n");
    }
}

// Says a refusal.
fn refused(answer: Answer) -> Failed {
    words::refusal(2, answer);
    say::text(2, b"\n");
    Failed
}

// Says that an option is refused, before anything is written.
fn refused_option(flag: Flag, number: u32) -> Failed {
    say::text(2, flag.name());
    say::text(2, b": ");
    refused(Answer {
        number,
        first: 0,
        second: 0,
    })
}

// Whether the rate to retune to is one: refusal 11.
fn check_retune(o: &Options) -> Result<(), Failed> {
    match o.retune {
        Some(retune) if !rate_ok(std::num::nearest_u32_to_f32(retune.rate)) => {
            Err(refused_option(Flag::Retune, 11))
        }
        _ => Ok(()),
    }
}

// Whether a pitch that was asked for can be played: refusal 16.
fn check_pitch(flag: Flag, x: f32) -> Result<(), Failed> {
    if 20000.0 < x {
        return Err(refused_option(flag, 16));
    }
    Ok(())
}

fn check_pitches(o: &Options) -> Result<(), Failed> {
    if let Some(to) = o.to {
        check_pitch(Flag::To, to)?;
    }
    check_pitch(Flag::Freq, o.pitch())
}

fn make(o: &Options, image: &[u8], centres: &[f32]) -> Result<Voice, Failed> {
    let (blend, channel) = numbers_of(o.kind);
    let rate = std::num::nearest_u32_to_f32(o.rate);
    let made = sounder_make(blend, channel, image, rate, centres);
    let answer = made.answer;
    if answer.number != 0 {
        let desk = sounder_desk(blend, channel, image);
        words::making_refusal(2, answer, desk.bands as u64, centres.len() as u64);
        say::text(2, b"\n");
        return Err(Failed);
    }
    Ok(made.voice)
}

// Plays a voice that was made.
fn play_voice<R: Files<File = File> + Env + Print>(
    rt: &R,
    o: &Options,
    voice: Voice,
) -> Result<(), Failed> {
    match o.seed {
        Some(seed) => {
            let again = sounder_reseed(voice, seed);
            output::write(rt, o, again.voice)
        }
        None => output::write(rt, o, voice),
    }
}

fn play_image<R: Files<File = File> + Env + Print>(
    rt: &R,
    o: &Options,
    image: &[u8],
    centres: &[f32],
    loudness: Option<Loudness>,
) -> Result<(), Failed> {
    let read = sounder_from_bytes(image);
    if read.number != 0 {
        return Err(refused(read));
    }
    let voice = make(o, image, centres)?;
    check_retune(o)?;
    check_pitches(o)?;
    let set = voice.set;
    describe(image, read.first, set.m, set.j);
    describe_pitch(o);
    describe_gains(o, set.k);
    match loudness {
        Some(l) => {
            plan::describe(&l);
            play_voice(rt, &plan::with_gain(o, &l), voice)
        }
        None => play_voice(rt, o, voice),
    }
}

// Plays what was asked for. The buffer has a byte more than a table can, so a longer file is known without being read to its end.
fn run<R: Files<File = File> + Env + Print>(rt: &R, o: &Options) -> Result<(), Failed> {
    let mut image = [0u8; 65537];
    let n = file::read_argument(rt, o.table, &mut image)?;
    let centres = centres::from_argument(rt, o.centres)?;
    let loudness = match o.quiet {
        Some(q) => Some(plan::at_minute(rt, q)?),
        None => None,
    };
    play_image(rt, o, &image[..n], centres.as_slice(), loudness)
}

fn main(rt: HostRuntime) {
    let Ok(asked) = reading::read(&rt) else {
        say::wrong_use(b"tone");
        return;
    };
    if console::output::standard_output(&rt.stdout()).is_err() {
        return;
    }
    match asked {
        Asked::Help => usage(&rt),
        Asked::Play(options) => {
            // why it failed has been said, and the status is 0 in any case
            let _ = run(&rt, &options);
        }
    }
}
