// What a voice sounds, and in which slot of an entry.
ghost use Rattle.std.specs.Prelude.{◌≡◌};
ghost use Rattle.table.specs.Answer.{found_bits};
ghost use Rattle.making.specs.Making.{slot_channel};

use table::desk::Kind;

// A kind, and how many channels a voice of that kind sounds.
#[derive(Clone, Copy)]
pub struct Sounding {
    pub kind: Kind,
    pub channels: u32,
}

impl Sounding {
    // Slot q of an entry: a single voice has its channel in the first; a blend of n channels has channel q in slot q.
    pub fn slot_channel(self, q: u32) -> Option<u32>
        ensures { found_bits result ≡ slot_channel self.kind self.channels q }
    {
        match self.kind {
            Kind::Single(channel) => { if q == 0 { Some(channel) } else { None } }
            Kind::Blend => { if q < self.channels { Some(q) } else { None } }
        }
    }
}
