// What a play only reads of a voice.
// What sounds, the state, what it hears and where it is written are handed down side by side: a struct of them would hold slices lent to
// be written on, and be taken apart at each step.
use voice::{LISTS_PLACES, Setting};

// The voice's numbers as it is played by them, its short lists and its coefficients, where they lie: all of it but the running state.
#[derive(Clone, Copy)]
pub struct Timbre<'a> {
    pub set: &'a Setting,
    pub lists: &'a [f32; LISTS_PLACES],
    pub partials: &'a [f32; 2048],
    pub noise: &'a [f32; 1024],
}
