// Asks the plans of cases.rt for every minute of the week, and writes a line for each run of minutes with one answer; then asks plans and
// minutes at their limits, a line each. tools/quiet_answers.py works out what `stdout` has, apart from the crate `quiet`.
#![tactic(auto)]

mod cases;

use quiet::{Plan, WEEK_MINUTES, Window};
use sounder::plans::sounder_quiet_gain;

// A window of cases.rt: start, end and step.
type Listed = (u32, u32, u32);

// What stands in the places of a plan at the limits that are not named.
const REST: Listed = (540, 1020, 50);

// An answer as the numbers of the boundary: the refusal's, or 0; the window; and the gain's pattern.
#[derive(Clone, Copy, PartialEq, Eq)]
struct Told {
    number: u32,
    window: usize,
    gain: u32,
}

// Minutes that follow one another and have one answer.
#[derive(Clone, Copy)]
struct Run {
    from: u32,
    to: u32,
    told: Told,
}

// The pattern of a float; one for every NaN. (Not from a crate below: what an answer is read by is not to come from what is checked.)
fn bits(x: f32) -> u32 {
    if x.is_nan() { 0x7fc0_0000 } else { x.to_bits() }
}

fn tell(plan: Plan, minute: u32) -> Told {
    let q = sounder_quiet_gain(plan, minute);
    Told {
        number: q.answer.number,
        window: q.answer.first,
        gain: bits(q.gain),
    }
}

// Words and a number. Printing is by `io` here, which rests on the C function `write` alone; `println!` would rest on those of the error's
// number and words too.
fn say(words: &[u8], n: u64) {
    io::write_all(1, words);
    io::print_decimal(1, n);
}

// An answer: the refusal's number, if it is one, the window that it names, and the gain.
fn say_told(t: Told) {
    if t.number != 0 {
        say(b" refused ", u64::from(t.number));
    }
    if t.number != 20 {
        say(b" window ", t.window as u64);
    }
    io::write_all(1, b" gain 0x");
    io::print_hex(1, u64::from(t.gain), 8);
    io::write_all(1, b"\n");
}

fn say_run(number: usize, run: Run) {
    say(b"plan ", number as u64);
    say(b": ", u64::from(run.from));
    say(b" to ", u64::from(run.to));
    say_told(run.told);
}

// A plan's runs over the week. A run goes on while the answer is the same; then it is written, and the minute starts another.
fn week(number: usize, plan: Plan) {
    let mut run = Run {
        from: 0,
        to: 0,
        told: tell(plan, 0),
    };
    for minute in 1..WEEK_MINUTES {
        let told = tell(plan, minute);
        if told != run.told {
            say_run(number, run);
            run.from = minute;
            run.told = told;
        }
        run.to = minute;
    }
    say_run(number, run);
}

fn window((start, end, step): Listed) -> Window {
    Window { start, end, step }
}

// A plan of `count` windows of the list, from place `from` on; the places beyond hold another window.
fn plan_of(from: usize, count: u32, beyond: Listed) -> Plan {
    let mut windows = [window(beyond); 64];
    let listed = cases::WINDOWS.iter().skip(from).take(count as usize);
    for (place, w) in windows.iter_mut().zip(listed) {
        *place = window(*w);
    }
    Plan { count, windows }
}

fn all_plans() {
    for (number, &(from, count, beyond)) in cases::PLANS.iter().enumerate() {
        say(b"plan ", number as u64);
        say(b": count ", u64::from(count));
        io::write_all(1, b"\n");
        let filling = cases::WINDOWS.get(beyond).copied().unwrap_or(REST);
        week(number, plan_of(from, count, filling));
    }
}

// A window at its place, where it is not the one that stands everywhere.
fn say_window(place: usize, w: Listed) {
    if w == REST {
        return;
    }
    let (start, end, step) = w;
    say(b", window ", place as u64);
    say(b" is ", u64::from(start));
    say(b" to ", u64::from(end));
    say(b" step ", u64::from(step));
}

// What is asked of a plan whose windows are but for two alike, and what is answered.
fn ask(count: u32, minute: u32, named: [(usize, Listed); 2]) {
    say(b"minute ", u64::from(minute));
    say(b", count ", u64::from(count));
    let mut windows = [window(REST); 64];
    for (place, w) in named {
        say_window(place, w);
        windows[place % 64] = window(w);
    }
    io::write_all(1, b":");
    say_told(tell(Plan { count, windows }, minute));
}

fn all_limits() {
    for &(count, minute, named) in &cases::ASKED {
        ask(count, minute, named);
    }
}

fn main() {
    all_plans();
    all_limits();
}
