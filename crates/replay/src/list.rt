// The words of a record, read one after another: little-endian u32 numbers, bytes and floats with their count before them. Past the end of
// the record stand zeros.
use sounder::Answer;

// No slice of floats in a list is longer.
pub const FLOATS: usize = 1100;

#[derive(Clone, Copy)]
pub struct Words<'a> {
    rest: &'a [u8],
    whole: usize, // how many bytes the record has
}

impl<'a> Words<'a> {
    pub fn new(record: &'a [u8]) -> Words<'a> {
        Words {
            rest: record,
            whole: record.len(),
        }
    }

    // Leaves out the rest of the record.
    pub fn end(&mut self) {
        self.rest = &[];
    }

    pub fn word(&mut self) -> u32 {
        match self.rest.split_first_chunk::<4>() {
            Some((word, rest)) => {
                self.rest = rest;
                u32::from_le_bytes(*word)
            }
            None => {
                self.end();
                0
            }
        }
    }

    pub fn count(&mut self) -> usize {
        self.word() as usize
    }

    // The count that comes next, which is read again.
    pub fn ahead(&self) -> usize {
        let mut ahead = *self;
        ahead.count()
    }

    // How many items the record says that come next. Each has more than a byte: where more are said than the record has bytes, no more than
    // these. What is said and is not there is read as zeros, so that a record which is cut short is found out.
    pub fn items(&mut self) -> usize {
        self.count().min(self.whole)
    }

    // Passes over words.
    pub fn skip(&mut self, n: usize) {
        match self.rest.split_at_checked(n.saturating_mul(4)) {
            Some((_, rest)) => self.rest = rest,
            None => self.end(),
        }
    }

    pub fn float(&mut self) -> f32 {
        float::from_bits(self.word())
    }

    pub fn answer(&mut self) -> Answer {
        Answer {
            number: self.word(),
            first: self.count(),
            second: self.count(),
        }
    }

    // Bytes; none where they are not all there.
    pub fn bytes(&mut self) -> &'a [u8] {
        let n = self.count();
        match self.rest.split_at_checked(n) {
            Some((bytes, rest)) => {
                self.rest = rest;
                bytes
            }
            None => {
                self.end();
                &[]
            }
        }
    }

    // Floats, put to the start of a buffer; of more than it holds none is taken, and all are passed over.
    pub fn floats<'b>(&mut self, buffer: &'b mut [f32; FLOATS]) -> &'b [f32] {
        let n = self.count();
        let Some(floats) = buffer.get_mut(..n) else {
            self.skip(n);
            return &[];
        };
        for x in floats.iter_mut() {
            *x = self.float();
        }
        floats
    }

    // A play's input: how many channels it has, and its samples.
    pub fn input<'b>(&mut self, buffer: &'b mut [f32; FLOATS]) -> (usize, &'b [f32]) {
        let channels = self.count();
        (channels, self.floats(buffer))
    }
}
