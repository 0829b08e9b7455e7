// The live bands of a voice as columns: place l belongs to live band l, that is to band `live[l]`.
// They share their count: slices would need a clause that their lengths agree.
ghost use Rattle.std.specs.Prelude.{◌≡◌, ◌≤◌, ◌<◌, ◌+◌, ◌*◌, length, get_or};
ghost use Rattle.std.specs.Float.{nan};
ghost use Rattle.player.specs.inner.Columns.{LiveFits, Memories, Coeffs, Ticked, scattered, Filled};
ghost use Rattle.player.specs.inner.Bands.{Gathered, Ticks};
ghost use Rattle.voice.specs.Voice.{bands_at};

use crate::columns::fill_rows;
use voice::{BANDS_AT, COMPENSATIONS, LISTS_PLACES, band_of, list_of};

// Two memories, five coefficients in rows of 32 places, a compensation and the last output of each.
#[derive(Clone, Copy, Default)]
pub struct BandColumns {
    z1: [f32; 32],
    z2: [f32; 32],
    coeffs: [f32; 160],
    pub makeup: [f32; 32],
    pub ys: [f32; 32],
}

// The memories of the live bands, which lie two a band in 32 places.
fn gather_memories(z1: &mut [f32; 32], z2: &mut [f32; 32], memories: &[f32; 32], live: &[u8])
    requires { LiveFits live.now }
    ensures { Memories z1.new z2.new memories.now live.now (length live.now) }
{
    for (l, band) in live.iter().enumerate() {
        let at = band_of(*band) * 2;
        z1[l] = memories[at];
        z2[l] = memories[at + 1];
    }
}

// Their coefficients, in five rows: b0, b1, b2, a1, a2.
fn gather_coeffs(coeffs: &mut [f32; 160], lists: &[f32; LISTS_PLACES], live: &[u8])
    requires { LiveFits live.now }
    ensures { Coeffs coeffs.new lists.now live.now (length live.now) }
{
    fill_rows(
        &mut coeffs[..],
        5,
        live.len(),
        |q, l|
            requires { LiveFits live.now × (q < 5) × (l < length live.now) }
            ensures { result ≡ get_or lists.entry.now (bands_at + get_or live.entry.now l 0 * 5 + q) nan }
        { lists[BANDS_AT + band_of(live[l]) * 5 + q] },
    );
}

// Their compensations.
fn gather_makeup(makeup: &mut [f32; 32], compensation: &[f32; 16], live: &[u8])
    requires { LiveFits live.now }
    ensures { Filled makeup.new (λ l. get_or compensation.now (get_or live.now l 0) nan) (length live.now) }
{
    for (l, band) in live.iter().enumerate() {
        makeup[l] = compensation[band_of(*band)];
    }
}

// One sample x of n filters, each as `BiquadState::tick`.
fn tick_bands(
    ys: &mut [f32; 32],
    z1: &mut [f32; 32],
    z2: &mut [f32; 32],
    coeffs: &[f32; 160],
    x: f32,
    n: usize,
)
    requires { n ≤ 32 }
    ensures { Ticked ys.new z1.new z2.new z1.old z2.old coeffs.now x n }
{
    for l in 0..n {
        let y = coeffs[l] * x + z1[l];
        z1[l] = coeffs[32 + l] * x - coeffs[96 + l] * y + z2[l];
        z2[l] = coeffs[64 + l] * x - coeffs[128 + l] * y;
        ys[l] = y;
    }
}

// The columns back into the memories of the live bands.
fn scatter_memories(memories: &mut [f32; 32], live: &[u8], z1: &[f32; 32], z2: &[f32; 32])
    requires { LiveFits live.now }
    ensures { memories.new ≡ scattered live.now z1.now z2.now memories.old (length live.now) }
{
    for (l, band) in live.iter().enumerate() {
        let at = band_of(*band) * 2;
        memories[at] = z1[l];
        memories[at + 1] = z2[l];
    }
}

impl BandColumns {
    // The columns of these live bands.
    pub fn gather(&mut self, lists: &[f32; LISTS_PLACES], memories: &[f32; 32], live: &[u8])
        requires { LiveFits live.now }
        ensures { Gathered self.new lists.now memories.now live.now }
    {
        gather_memories(&mut self.z1, &mut self.z2, memories, live);
        gather_coeffs(&mut self.coeffs, lists, live);
        gather_makeup(&mut self.makeup, &list_of(lists, COMPENSATIONS), live);
    }

    // One sample x of n of them.
    pub fn tick(&mut self, x: f32, n: usize)
        requires { n ≤ 32 }
        ensures { Ticks self.old self.new x n }
    {
        tick_bands(&mut self.ys, &mut self.z1, &mut self.z2, &self.coeffs, x, n);
    }

    // Back into the memories.
    pub fn scatter(&self, memories: &mut [f32; 32], live: &[u8])
        requires { LiveFits live.now }
        ensures { memories.new ≡ scattered live.now self.now.z1 self.now.z2 memories.old (length live.now) }
    {
        scatter_memories(memories, live, &self.z1, &self.z2);
    }
}
