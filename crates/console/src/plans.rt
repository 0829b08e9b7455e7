// A planner's quiet windows as text: a line each, START END STEP. An edge is a minute of the week, or a day and a clock. A line whose first
// word starts with # is a comment; a line without a word is passed over. The limits of a plan are not asked here: that is the library's.
ghost use Rattle.std.specs.Prelude.{◌≡◌, ◌≤◌};
ghost use Rattle.console.specs.Edges.{edge_of};
ghost use Rattle.console.specs.Plans.{is_blank, ended, first_word, next_word, after_word, line_of};
ghost use Rattle.console.specs.Plans.{no_windows, placed, with_window, left_by, with_line, plan_of, minute_in};

use crate::decimal::read_whole;
use crate::edges::{Day, Edge, read_clock, read_edge};
use quiet::{Plan, Window};
use std::fmt;

// Why a line is no window.
#[derive(Clone, Copy, Debug, PartialEq, Eq)]
pub enum Reason {
    TooFew, // words
    TooMany, // words
    NoEdge, // a word in the place of an edge is neither a whole number nor a day
    NoClock, // the word after a day is no clock
    NoStep, // the last word is no whole number
}

impl fmt::Display for Reason {
    fn fmt<W: fmt::Write>(&self, f: &mut fmt::Formatter<W>) -> fmt::Result {
        match self {
            Reason::TooFew => write!(f, "too few words: a window is START END STEP"),
            Reason::TooMany => write!(f, "too many words: a window is START END STEP"),
            Reason::NoEdge => write!(
                f,
                "START or END is neither a minute of the week, 0 to 10079, nor a day: Mon, Tue, Wed, Thu, Fri, Sat or Sun"
            ),
            Reason::NoClock => write!(f, "the word after a day is no clock from 00:00 to 23:59"),
            Reason::NoStep => write!(f, "STEP is not a whole number from 0 to 100"),
        }
    }
}

// The first line that is no window, by how many lines stand above it, and why.
#[derive(Clone, Copy, Debug, PartialEq, Eq)]
pub struct BadLine {
    pub above: usize,
    pub reason: Reason,
}

// What a text holds. Of each window `above` has how many lines stand above its own. A count of 65 stands for any number of more than 64:
// the first 64 windows are kept, and of the sixty-fifth its line. The lines stand beside the plan, which the library takes as it is.
#[derive(Clone, Copy)]
pub struct Planned {
    pub plan: Plan,
    pub above: [usize; 65],
}

// What the words of a line come to so far.
#[derive(Clone, Copy)]
enum Line {
    Empty,
    Comment,
    FirstDay(Day), // of the start, whose clock is to come
    Started(u32), // the start
    SecondDay(u32, Day), // the start, and the day of the end, whose clock is to come
    Ended(u32, u32), // start and end: the step is to come
    Complete(Window),
}

#[tactic(auto, using(std::proofs::lemmas::Bool::Decides::nat_tests), unfolding(crate::specs::Plans::is_blank))]
fn is_blank(b: u8) -> bool
    ensures { result ≡ is_blank b }
{
    matches!(b, b' ' | b'\t' | b'\r')
}

// A line with its first word.
fn first_word(w: &[u8]) -> Result<Line, Reason>
    ensures { result ≡ first_word w.now }
{
    match w {
        [] => Ok(Line::Empty),
        [b'#', ..] => Ok(Line::Comment),
        _ => match read_edge(w) {
            Some(Edge::Minute(start)) => Ok(Line::Started(start)),
            Some(Edge::OnDay(day)) => Ok(Line::FirstDay(day)),
            None => Err(Reason::NoEdge),
        },
    }
}

// A line with the word after its start.
fn second_edge(start: u32, w: &[u8]) -> Result<Line, Reason>
    ensures { result ≡ ended start (edge_of w.now) }
{
    match read_edge(w) {
        Some(Edge::Minute(end)) => Ok(Line::Ended(start, end)),
        Some(Edge::OnDay(day)) => Ok(Line::SecondDay(start, day)),
        None => Err(Reason::NoEdge),
    }
}

impl Line {
    // With one word more.
    fn next_word(self, w: &[u8]) -> Result<Line, Reason>
        ensures { result ≡ next_word self w.now }
    {
        match self {
            Line::Empty => first_word(w),
            Line::Comment => Ok(Line::Comment),
            Line::FirstDay(day) => read_clock(day, w).map(Line::Started).ok_or(Reason::NoClock),
            Line::Started(start) => second_edge(start, w),
            Line::SecondDay(start, day) => {
                let end = read_clock(day, w).ok_or(Reason::NoClock)?;
                Ok(Line::Ended(start, end))
            }
            Line::Ended(start, end) => {
                let step = read_whole(w).ok_or(Reason::NoStep)?;
                Ok(Line::Complete(Window { start, end, step }))
            }
            Line::Complete(_) => Err(Reason::TooMany),
        }
    }

    // With what stands between two blanks: a word, or nothing.
    #[tactic(auto, using(crate::proofs::PlansLaws::word_or_none))]
    fn after_word(self, w: &[u8]) -> Result<Line, Reason>
        ensures { result ≡ after_word self w.now }
    {
        match w {
            [] => Ok(self),
            _ => self.next_word(w),
        }
    }
}

// What a line says.
fn line_of(line: &[u8]) -> Result<Line, Reason>
    ensures { result ≡ line_of line.now }
{
    line.split(|b| is_blank(*b))
        .try_fold(Line::Empty, |l, w| l.after_word(w))
}

// A plan with a window more; of a sixty-fifth only the count is kept.
#[tactic(auto, using(std::proofs::lemmas::Bool::Decides::nat_tests), unfolding(crate::specs::Plans::placed))]
fn place(mut p: Plan, v: Window) -> Plan
    requires { p.count ≤ 64 }
    ensures { result ≡ placed p v }
{
    let n = p.count as usize;
    p.count += 1;
    if n < 64 {
        p.windows[n] = v;
    }
    p
}

impl Planned {
    // No window yet: the definition `no_windows`, which a derived `Default` would say by its fields.
    fn new() -> Planned
        ensures { result ≡ no_windows }
    {
        let blank = Window {
            start: 0,
            end: 0,
            step: 0,
        };
        Planned {
            plan: Plan {
                count: 0,
                windows: [blank; 64],
            },
            above: [0; 65],
        }
    }

    // With one window more, of a line with so many lines above it.
    #[tactic(auto, using(std::proofs::lemmas::Bool::Decides::nat_tests), unfolding(crate::specs::Plans::with_window))]
    fn with_window(&mut self, above: usize, v: Window)
        ensures { self.new ≡ with_window self.old above v }
    {
        let n = self.plan.count as usize;
        if 64 < n {
            return;
        }
        self.above[n] = above;
        self.plan = place(self.plan, v);
    }

    // With the window of a line, or why it is none. A line that ends before its step has too few words. It is written where the plan
    // lies: a text may have many lines without a window, and a plan is long.
    fn with_line(&mut self, above: usize, line: &[u8]) -> Result<(), BadLine>
        ensures { left_by result self.new ≡ with_line self.old above (line_of line.now) }
    {
        match line_of(line) {
            Ok(Line::Empty) | Ok(Line::Comment) => Ok(()),
            Ok(Line::Complete(v)) => {
                self.with_window(above, v);
                Ok(())
            }
            Ok(_) => Err(BadLine {
                above,
                reason: Reason::TooFew,
            }),
            Err(reason) => Err(BadLine { above, reason }),
        }
    }
}

// The windows that a text holds, or its first line that is none. (The reader of centres folds; a fold would hand the whole plan from line
// to line.)
pub fn read(text: &[u8]) -> Result<Planned, BadLine>
    ensures { result ≡ plan_of text.now }
{
    let mut planned = Planned::new();
    for (above, line) in text.split(|b| *b == b'\n').enumerate() {
        planned.with_line(above, line)?;
    }
    Ok(planned)
}

// The minute of the week that a text names, as an edge of a window does.
pub fn minute(text: &[u8]) -> Option<u32>
    ensures { result ≡ minute_in (line_of text.now) }
{
    match line_of(text) {
        Ok(Line::Started(m)) => Some(m),
        _ => None,
    }
}
