// Playing a voice. The way of a block: playing asks the questions, bands says which tick, block goes through the channels, channel through
// the two passes (partials, one by one or in columns, and noise); input is what they read, pitch and tuning what a frequency decides.
#![tactic(auto)]

mod bands;
mod block;
mod channel;
mod columns;
mod constants;
mod input;
mod noise;
mod partials;
mod pitch;
mod playing;
mod timbre;
mod tuning;

pub use playing::play;
