// A voice: everything that a tone is made of, by value. It crosses to C as it is.
use crate::lists::LISTS_PLACES;
use filters::Rng;

// The running state: phases, two memories for each band, one band after the other, and the noise number.
#[repr(C)]
#[derive(Clone, Copy)]
pub struct State {
    pub phases: [f32; 32],
    pub memories: [f32; 32],
    pub rng: Rng,
}

// A voice's numbers. It crosses to C: so the kind is a number, and the live bands are an array with their count beside it.
#[repr(C)]
#[derive(Clone, Copy)]
pub struct Setting {
    pub blend: u32, // 0: a single voice of the channel below; else a blend
    pub channel: u32, // a single voice's channel of the table
    pub count: usize, // entries
    pub k: usize, // channels that are blended; 1 of a single voice
    pub m: usize, // phases
    pub j: usize, // bands
    pub live_count: usize, // live bands: the first places of `live`; a single voice plays all j, whatever they say
    pub sample_rate: f32,
    pub live: [u8; 16],
}

// It crosses to C, and nothing is allocated: so the lists are arrays, and `set` says how far each is in use.
// Places that are not in use are 0 in a fresh voice. A play leaves them as given; a reset writes all of the state, a reseed
// all memories and the noise number, a retune all bands and compensations.
#[repr(C)]
#[derive(Clone, Copy)]
pub struct Voice {
    pub set: Setting,
    // 16 pitches, ascending; 16 stretches, mainlobe gains and noise gains; 16 bands of five coefficients; 16 compensations;
    // 16 centres, as they were given to the making
    pub lists: [f32; LISTS_PLACES],
    pub partials: [f32; 2048], // entry × 128 + channel × 32 + partial
    pub noise: [f32; 1024], // entry × 64 + channel × 16 + band
    pub state: State,
}
