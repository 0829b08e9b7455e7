// The edges of a planner's windows as words: a minute of the week, or a day and a clock.
ghost use Rattle.std.specs.Prelude.{◌≡◌, ◌≤◌};
ghost use Rattle.console.specs.Edges.{first_minute, day_of, edge_of, two_digits, clock_of};

use crate::decimal::read_whole;

#[derive(Clone, Copy)]
pub enum Day {
    Mon,
    Tue,
    Wed,
    Thu,
    Fri,
    Sat,
    Sun,
}

// The word that an edge starts with: a minute of the week, which is all of it, or a day, whose clock is the next word.
#[derive(Clone, Copy)]
pub enum Edge {
    Minute(u32),
    OnDay(Day),
}

impl Day {
    #[tactic(auto, using(std::proofs::lemmas::Bool::Decides::nat_tests), unfolding(crate::specs::Edges::day_of))]
    fn named(w: &[u8]) -> Option<Day>
        ensures { result ≡ day_of w.now }
    {
        match w {
            b"Mon" => Some(Day::Mon),
            b"Tue" => Some(Day::Tue),
            b"Wed" => Some(Day::Wed),
            b"Thu" => Some(Day::Thu),
            b"Fri" => Some(Day::Fri),
            b"Sat" => Some(Day::Sat),
            b"Sun" => Some(Day::Sun),
            _ => None,
        }
    }

    // The minute at which the day starts.
    fn first_minute(self) -> u32
        ensures { (result ≡ first_minute self) × (result ≤ 8640) }
    {
        match self {
            Day::Mon => 0,
            Day::Tue => 1440,
            Day::Wed => 2880,
            Day::Thu => 4320,
            Day::Fri => 5760,
            Day::Sat => 7200,
            Day::Sun => 8640,
        }
    }
}

#[tactic(auto, using(std::proofs::lemmas::Bool::Decides::nat_tests), unfolding(crate::specs::Edges::edge_of))]
pub fn read_edge(w: &[u8]) -> Option<Edge>
    ensures { result ≡ edge_of w.now }
{
    match read_whole(w) {
        Some(minute) => Some(Edge::Minute(minute)),
        None => Day::named(w).map(Edge::OnDay),
    }
}

// Two digits as a number.
#[tactic(auto, using(std::proofs::lemmas::Bool::Decides::nat_tests), unfolding(crate::specs::Edges::two_digits))]
fn two_digits(tens: u8, ones: u8) -> Option<u32>
    ensures { result ≡ two_digits tens ones }
{
    match (tens, ones) {
        (b'0'..=b'9', b'0'..=b'9') => Some((tens - b'0') as u32 * 10 + (ones - b'0') as u32),
        _ => None,
    }
}

// The minute of the week that a day and a clock, HH:MM, name.
#[tactic(auto, using(std::proofs::lemmas::Bool::Decides::nat_tests), unfolding(crate::specs::Edges::clock_of))]
pub fn read_clock(day: Day, w: &[u8]) -> Option<u32>
    ensures { result ≡ clock_of day w.now }
{
    let [h, hh, b':', m, mm] = w else {
        return None;
    };
    let hours = two_digits(*h, *hh)?;
    let minutes = two_digits(*m, *mm)?;
    if 23 < hours || 59 < minutes {
        return None;
    }
    Some(day.first_minute() + hours * 60 + minutes)
}
