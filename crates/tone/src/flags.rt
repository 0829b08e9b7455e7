// The options by their names.

// Each takes a value but --blend, and only a gain may be given more than once.
#[derive(Clone, Copy, Debug, PartialEq, Eq)]
pub enum Flag {
    Single,
    Blend,
    Rate,
    Freq,
    To,
    Gain,
    Seconds,
    Seed,
    Centres,
    Retune,
    At,
    Plan,
    Minute,
}

const FLAGS: [Flag; 13] = [
    Flag::Single,
    Flag::Blend,
    Flag::Rate,
    Flag::Freq,
    Flag::To,
    Flag::Gain,
    Flag::Seconds,
    Flag::Seed,
    Flag::Centres,
    Flag::Retune,
    Flag::At,
    Flag::Plan,
    Flag::Minute,
];

impl Flag {
    pub fn name(self) -> &'static [u8] {
        match self {
            Flag::Single => b"--single",
            Flag::Blend => b"--blend",
            Flag::Rate => b"--rate",
            Flag::Freq => b"--freq",
            Flag::To => b"--to",
            Flag::Gain => b"--gain",
            Flag::Seconds => b"--seconds",
            Flag::Seed => b"--seed",
            Flag::Centres => b"--centres",
            Flag::Retune => b"--retune",
            Flag::At => b"--at",
            Flag::Plan => b"--plan",
            Flag::Minute => b"--minute",
        }
    }

    // The option that a word names.
    pub fn named(word: &[u8]) -> Option<Flag> {
        FLAGS.iter().copied().find(|flag| flag.name() == word)
    }
}
