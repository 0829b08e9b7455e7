// Blocks of 128 samples, from the voice to the file.
ghost use Rattle.std.specs.Prelude.{◌≡◌, length};

use crate::options::Options;
use crate::sink::Sink;
use sounder::voices::{sounder_play, sounder_retune};
use std::io::{Error, Write};
use voice::{Shape, Voice};

// Why no more is played: the file did not take it, or a call was refused by this number.
#[derive(Clone, Copy)]
pub enum Fault {
    Failed(Error),
    Refused(u32),
}

impl From<Error> for Fault {
    fn from(e: Error) -> Fault {
        Fault::Failed(e)
    }
}

// A tone of so many samples, and how far its playing has come: the voice, what was sent, and the largest magnitude as a pattern.
#[derive(Clone, Copy)]
pub struct Run<'a> {
    pub options: &'a Options,
    pub total: u32,
    pub voice: Voice,
    pub sink: Sink,
    pub peak: u32,
}

// The frequency of a sample: with a glide, the share of the way that the sample stands at.
fn frequency(o: &Options, sample: u32, total: u32) -> f32 {
    match o.to {
        Some(to) => {
            let t = std::num::nearest_u32_to_f32(sample) / std::num::nearest_u32_to_f32(total);
            float::lerp(o.pitch(), to, t)
        }
        None => o.pitch(),
    }
}

fn frequencies(o: &Options, first: u32, total: u32) -> [f32; 128]
    ensures { 128 ≡ length result }
{
    let mut f = [0.0; 128];
    let mut sample = first;
    for x in &mut f {
        *x = frequency(o, sample, total);
        sample = sample.wrapping_add(1);
    }
    f
}

// The pattern of a float; one for every NaN. (The checks of the repository have this line too, each for itself: what a check reads an
// answer by is not to come from what it checks.)
pub fn bits(x: f32) -> u32 {
    if x.is_nan() { 0x7fc0_0000 } else { x.to_bits() }
}

fn peak_of(samples: &[f32], before: u32) -> u32 {
    let mut peak = before;
    for x in samples {
        peak = peak.max(bits(*x) % 0x8000_0000);
    }
    peak
}

fn bytes_of(samples: &[f32; 128]) -> [u8; 512]
    ensures { 512 ≡ length result }
{
    let mut bytes = [0; 512];
    for (i, x) in samples.iter().enumerate() {
        bytes[i * 4..i * 4 + 4].copy_from_slice(&bits(*x).to_le_bytes());
    }
    bytes
}

// One value for each sample of a block; 0 where an input is unconnected.
fn steady(x: Option<f32>) -> [f32; 128]
    ensures { 128 ≡ length result }
{
    [x.unwrap_or(0.0); 128]
}

// How many channels an input has: 0 where nothing was given, and it is unconnected.
fn connected(given: bool) -> usize {
    usize::from(given)
}

// A block of one channel.
fn shape(o: &Options, samples: usize) -> Shape {
    Shape {
        samples,
        channels: 1,
        freq: connected(o.freq.is_some() || o.to.is_some()),
        g0: connected(o.gains[0].is_some()),
        g1: connected(o.gains[1].is_some()),
        g2: connected(o.gains[2].is_some()),
        g3: connected(o.gains[3].is_some()),
    }
}

impl Run<'_> {
    // Plays the n samples from `first` on, and writes them; of more than a block has, none.
    pub fn block<W: Write>(&mut self, file: &mut W, first: u32, n: usize) -> Result<(), Fault> {
        if 128 < n {
            return Ok(());
        }
        let o = self.options;
        let f = frequencies(o, first, self.total);
        let g0 = steady(o.gains[0]);
        let g1 = steady(o.gains[1]);
        let g2 = steady(o.gains[2]);
        let g3 = steady(o.gains[3]);
        let mut out = [0.0; 128];
        let p = sounder_play(
            self.voice,
            shape(o, n),
            &f[..n],
            &g0[..n],
            &g1[..n],
            &g2[..n],
            &g3[..n],
            &mut out[..n],
        );
        if p.number != 0 {
            return Err(Fault::Refused(p.number));
        }
        self.voice = p.voice;
        self.peak = peak_of(&out[..n], self.peak);
        let bytes = bytes_of(&out);
        self.sink.send(file, &bytes[..n * 4])?;
        Ok(())
    }

    // Takes the voice to another rate. The tone goes on: its phases and memories are kept.
    pub fn retune(&mut self, rate: u32) -> Result<(), Fault> {
        let p = sounder_retune(self.voice, std::num::nearest_u32_to_f32(rate));
        if p.number != 0 {
            return Err(Fault::Refused(p.number));
        }
        self.voice = p.voice;
        Ok(())
    }
}
