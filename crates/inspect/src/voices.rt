// Which voices can be made of a table, at 48,000 samples a second.
use console::{say, words};
use sounder::images::sounder_desk;
use sounder::numbers_of;
use sounder::voices::sounder_make;
use table::desk::Kind;

fn say_kind(kind: Kind) {
    match kind {
        Kind::Single(channel) => {
            say::text(1, b"  a single voice of channel ");
            say::number(1, u64::from(channel));
        }
        Kind::Blend => say::text(1, b"  a blend"),
    }
    say::text(1, b": ");
}

fn say_made(m: usize, k: usize, j: usize) {
    say::text(1, b"can be made, with ");
    say::counted(1, m as u64, b" partial, ", b" partials, ");
    say::counted(1, k as u64, b" channel and ", b" channels and ");
    say::counted(1, j as u64, b" noise band", b" noise bands");
}

// Tries a making, says what became of it, and answers whether the voice was made.
fn try_making(image: &[u8], kind: Kind, centres: &[f32]) -> bool {
    let (blend, channel) = numbers_of(kind);
    let made = sounder_make(blend, channel, image, 48000.0, centres);
    let answer = made.answer;
    if answer.number != 0 {
        let desk = sounder_desk(blend, channel, image);
        words::making_refusal(1, answer, desk.bands as u64, centres.len() as u64);
        return false;
    }
    let set = made.voice.set;
    say_made(set.m, set.k, set.j);
    true
}

// With as many centres of 1,000 Hz as the voice needs, up to 16. A voice that needs more is refused by its size.
fn with_enough(image: &[u8], kind: Kind) -> bool {
    let (blend, channel) = numbers_of(kind);
    let desk = sounder_desk(blend, channel, image);
    let enough = [1000.0; 16];
    let j = (desk.bands as usize).min(16);
    try_making(image, kind, &enough[..j])
}

fn voice(image: &[u8], kind: Kind, centres: Option<&[f32]>) -> bool {
    say_kind(kind);
    match centres {
        Some(given) => try_making(image, kind, given),
        None => with_enough(image, kind),
    }
}

// The noise bands' span, of the table's first entry or the default.
fn span(image: &[u8]) {
    let desk = sounder_desk(1, 0, image);
    say::text(1, b"  noise band span: ");
    say::float(1, desk.min_hz);
    say::text(1, b" to ");
    say::float(1, desk.max_hz);
    say::text(1, b" Hz\n");
}

// The first 16 of k channels, then the blend. A count of channels may be anything below 2^32, since an entry without partials and bands
// has no coefficients whatever its count is; so the others are only counted. Answers whether a voice was made. The last line
// is the caller's to end.
pub fn all(image: &[u8], k: u32, centres: Option<&[f32]>) -> bool {
    span(image);
    let mut made = false;
    for i in 0..k.min(16) {
        made |= voice(image, Kind::Single(i), centres);
        say::text(1, b"\n");
    }
    if 16 < k {
        say::text(1, b"  and ");
        say::counted(
            1,
            u64::from(k - 16),
            b" channel more, which was not tried\n",
            b" channels more, which were not tried\n",
        );
    }
    made |= voice(image, Kind::Blend, centres);
    made
}
