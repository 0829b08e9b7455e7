// The tables of the wave: the paper's 257 whole numbers, and the 1025 floats that columns are looked up in.
#![tactic(auto)]

mod cycle;
mod quarter;

pub use cycle::waves;
pub use quarter::table;
