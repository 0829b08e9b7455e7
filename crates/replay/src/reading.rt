// Records of reading and rewriting: the image, a channel and the original's answers (compare/driver/list.rs has the form).
// `t`, where differences are told, and `w`, the words that are left, go side by side, for the reason that playing.rt says.
use crate::list::Words;
use crate::tally::Tally;
use sounder::images::{sounder_desk, sounder_from_bytes, sounder_name, sounder_to_bytes};
use sounder::{Answer, DeskAnswer};
use wire::cursor::WireError;
use wire::reader::string_from;

// No target in a list is longer.
pub const TARGET: usize = 4096;

fn named(t: &mut Tally, w: &mut Words, image: &[u8]) {
    let p = sounder_name(image);
    t.same(b"the name's start", 0, p.start, w.count());
    t.same(b"the name's length", 0, p.len, w.count());
}

// The refusal's number.
fn refusal_of(e: WireError) -> u32 {
    match e {
        WireError::UnexpectedEof => 2,
        WireError::BadUtf8 => 5,
    }
}

// What a reader answers to `string`, and the position that it comes to.
fn string_read(t: &mut Tally, w: &mut Words, image: &[u8], pos: usize) {
    let (number, end) = match string_from(image, pos) {
        Ok(read) => (0, read.next.at),
        Err(e) => (refusal_of(e.error), e.reached.at),
    };
    t.same(b"a string's number", 0, number, w.word());
    t.same(b"a string's end", 0, end, w.count());
}

// The desk of a refused image has the read's answer, and of another none.
fn desk(t: &mut Tally, w: &mut Words, ours: DeskAnswer, read: Answer) {
    let accepted = Answer {
        number: 0,
        first: 0,
        second: 0,
    };
    let theirs = if read.number == 0 { accepted } else { read };
    t.same_answer(b"the desk's", ours.answer, theirs);
    t.same(b"the desk's bands", 0, ours.bands, w.word());
    t.same(b"the desk's min_hz", 0, ours.min_hz, w.word());
    t.same(b"the desk's max_hz", 0, ours.max_hz, w.word());
}

// The target before, the answer, the target afterwards.
fn rewriting(t: &mut Tally, w: &mut Words, image: &[u8]) {
    let before = w.bytes();
    let mut buffer = [0; TARGET];
    let Some(target) = buffer.get_mut(..before.len()) else {
        t.same(
            b"a target that is too long for the replay",
            0,
            0,
            before.len(),
        );
        return;
    };
    target.copy_from_slice(before);
    let a = sounder_to_bytes(image, target);
    t.answered(a.number);
    t.same_answer(b"the rewriting's", a, w.answer());
    t.same_all(b"a byte of the target", target, w.bytes());
}

pub fn record(t: &mut Tally, mut w: Words) {
    let image = w.bytes();
    let channel = w.word();
    let a = sounder_from_bytes(image);
    t.answered(a.number);
    t.same_answer(b"the read's", a, w.answer());
    named(t, &mut w, image);
    string_read(t, &mut w, image, 0);
    string_read(t, &mut w, image, 6);
    desk(t, &mut w, sounder_desk(0, channel, image), a);
    desk(t, &mut w, sounder_desk(1, channel, image), a);
    rewriting(t, &mut w, image);
}
