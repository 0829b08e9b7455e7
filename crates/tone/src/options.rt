// What is played, and where it is written.

use table::desk::Kind;

// The rate that the voice goes over to, and when, in millionths of a second from the start: half of the way where nothing is said.
#[derive(Clone, Copy)]
pub struct Retune {
    pub rate: u32,
    pub at: Option<u64>,
}

// The argument that names a plan of quiet windows, and the minute of the week that it is asked for.
#[derive(Clone, Copy)]
pub struct Quiet {
    pub plan: usize,
    pub minute: u32,
}

// Files are arguments by their number on the command line.
#[derive(Clone, Copy)]
pub struct Options {
    pub table: usize,
    pub out: usize,
    pub centres: Option<usize>,
    pub kind: Kind,
    pub rate: u32,
    pub freq: Option<f32>,
    pub to: Option<f32>,
    pub gains: [Option<f32>; 4],
    pub micros: u64, // millionths of a second
    pub seed: Option<u32>,
    pub retune: Option<Retune>,
    pub quiet: Option<Quiet>,
}

impl Options {
    // The pitch, where a glide starts.
    pub fn pitch(&self) -> f32 {
        self.freq.unwrap_or(220.0)
    }
}
