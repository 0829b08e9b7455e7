// What a replay counts, and how a difference is told.
use sounder::Answer;

#[derive(Clone, Copy, Default)]
pub struct Tally {
    pub record: u64, // the present record and the present call of its list, each from 0
    pub call: u64,
    pub calls: u64,
    pub samples: u64,
    pub differences: u64,
    pub answers: [u64; 24], // answers by their number
}

// What is compared bit for bit: as one word.
pub trait Word {
    fn word(self) -> u32;
}

impl Word for u32 {
    fn word(self) -> u32 {
        self
    }
}

impl Word for u8 {
    fn word(self) -> u32 {
        u32::from(self)
    }
}

// The largest word for a number that is larger.
impl Word for usize {
    fn word(self) -> u32 {
        u32::try_from(self).unwrap_or(u32::MAX)
    }
}

// One word for every NaN. (Not from a crate below: what an answer is read by is not to come from what is checked.)
impl Word for f32 {
    fn word(self) -> u32 {
        if self.is_nan() {
            0x7fc0_0000
        } else {
            self.to_bits()
        }
    }
}

// Two words that are to be the same: whose they are, which part of it, at which index.
#[derive(Clone, Copy)]
struct Pair<'a> {
    whose: &'a [u8],
    part: &'a [u8],
    index: usize,
    ours: u32,
    theirs: u32,
}

impl Tally {
    // Counts an answer by its number.
    pub fn answered(&mut self, number: u32) {
        if let Some(n) = self.answers.get_mut(number as usize) {
            *n = n.saturating_add(1);
        }
    }

    // Tells a difference. Printing is by `io`, so that a comparison needs no handle and no answer of its own.
    fn tell(&self, pair: Pair) {
        io::write_all(1, b"  record ");
        io::print_decimal(1, self.record);
        io::write_all(1, b", call ");
        io::print_decimal(1, self.call);
        io::write_all(1, b": ");
        io::write_all(1, pair.whose);
        io::write_all(1, pair.part);
        io::write_all(1, b" at ");
        io::print_decimal(1, pair.index as u64);
        io::write_all(1, b": ours ");
        io::print_hex(1, u64::from(pair.ours), 8);
        io::write_all(1, b", the original's ");
        io::print_hex(1, u64::from(pair.theirs), 8);
        io::write_all(1, b"\n");
    }

    // Compares two words. Of the differences no more are told than are of use.
    fn compare(&mut self, pair: Pair) {
        if pair.ours != pair.theirs {
            self.differences = self.differences.saturating_add(1);
            if self.differences <= 60 {
                self.tell(pair);
            }
        }
    }

    // Compares what stands at an index.
    pub fn same<T: Word>(&mut self, what: &[u8], index: usize, ours: T, theirs: T) {
        self.compare(Pair {
            whose: what,
            part: b"",
            index,
            ours: ours.word(),
            theirs: theirs.word(),
        });
    }

    // Compares two lists: their lengths, then what they hold.
    pub fn same_all<T: Word + Copy>(&mut self, what: &[u8], ours: &[T], theirs: &[T]) {
        self.same(what, 0, ours.len(), theirs.len());
        for (i, (a, b)) in ours.iter().zip(theirs).enumerate() {
            self.same(what, i, *a, *b);
        }
    }

    fn same_part<T: Word>(&mut self, whose: &[u8], part: &[u8], ours: T, theirs: T) {
        self.compare(Pair {
            whose,
            part,
            index: 0,
            ours: ours.word(),
            theirs: theirs.word(),
        });
    }

    // Compares two answers, of which `whose` says what answered.
    pub fn same_answer(&mut self, whose: &[u8], ours: Answer, theirs: Answer) {
        self.same_part(whose, b" number", ours.number, theirs.number);
        self.same_part(whose, b" first value", ours.first, theirs.first);
        self.same_part(whose, b" second value", ours.second, theirs.second);
    }
}
