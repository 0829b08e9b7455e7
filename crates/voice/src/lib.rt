// A voice, its rules, the questions 13 to 16 (11 of a retune) that a call on it is asked, what `init` gives it, reset, reseed and retune.
#![tactic(auto)]

mod answer;
mod bands;
mod inputs;
mod limits;
mod lists;
mod question;
mod restart;
mod retuning;
mod rules;
mod shape;
mod voice;

pub use answer::{CallError, Played};
pub use bands::init;
pub use filters::{BiquadCoeffs, Rng, rate_ok};
pub use inputs::Inputs;
pub use limits::{
    MAX_BANDS, MAX_BLENDED, MAX_CHANNELS, MAX_ENTRIES, MAX_HZ, MAX_PARTIALS, MAX_SAMPLES,
};
pub use lists::{
    BANDS_AT, CENTRES, COMPENSATIONS, LISTS_PLACES, MAINLOBE_GAINS, NOISE_GAINS, PITCHES,
    STRETCHES, band_of, list_of, put_list,
};
pub use question::play_question;
pub use restart::first_state;
pub use rules::{pitch_ok, stretch_ok};
pub use shape::Shape;
pub use voice::{Setting, State, Voice};
