// Records of merging: two images, a target and the original's answers (compare/driver/list.rs has the form).
use crate::list::Words;
use crate::reading::TARGET;
use crate::tally::Tally;
use sounder::merges::sounder_merge;

pub fn record(t: &mut Tally, mut w: Words) {
    let one = w.bytes();
    let other = w.bytes();
    // the target before, the answer, the target afterwards
    let before = w.bytes();
    let mut buffer = [0; TARGET];
    let Some(target) = buffer.get_mut(..before.len()) else {
        t.same(
            b"a target that is too long for the replay",
            0,
            0,
            before.len(),
        );
        return;
    };
    target.copy_from_slice(before);
    let m = sounder_merge(one, other, target);
    t.answered(m.answer.number);
    t.same_answer(b"the merge's", m.answer, w.answer());
    t.same(b"the merge's image", 0, m.image, w.word());
    t.same_all(b"a byte of the merged table", target, w.bytes());
}
