// The limits of a voice and of a block, each by its name. (The lengths of arrays stand as numbers beside them, but for that of the short
// lists: a voice's layout.)

// Of a voice: entries, partials, noise bands, and channels that a blend takes.
pub const MAX_ENTRIES: usize = 16;

pub const MAX_PARTIALS: usize = 32;

pub const MAX_BANDS: usize = 16;

pub const MAX_BLENDED: usize = 4;

// Of a block: samples of a channel, and channels of an input or of the output.
pub const MAX_SAMPLES: usize = 128;

pub const MAX_CHANNELS: usize = 8;

// The highest pitch and the highest finite frequency, in Hz.
pub const MAX_HZ: f32 = 20000.0;
