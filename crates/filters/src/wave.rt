// The wave that stands for a sine, one value at a time, over a table that is lent.
ghost use Rattle.std.specs.Prelude.{◌≡◌, ◌≤◌};
ghost use Rattle.filters.specs.Wave.{quarter_in, signed_in, wave_in, line_in, sine_in};
ghost use Rattle.filters.specs.inner.Ranges.{Phase};

use crate::whole::whole_part;

// T(k), and 2^23 for an entry that is larger.
fn entry(t: &[u32; 257], k: usize) -> u32
    requires { k ≤ 256 }
    ensures { result ≡ quarter_in t.now k }
{
    t[k].min(8388608)
}

// T(k), or its negative.
fn quarter(t: &[u32; 257], k: usize, minus: bool) -> i32
    requires { k ≤ 256 }
    ensures { result ≡ signed_in t.now minus k }
{
    let q = entry(t, k) as i32;
    if minus { -q } else { q }
}

// W(k).
fn wave(t: &[u32; 257], k: usize) -> i32
    requires { k ≤ 1024 }
    ensures { result ≡ wave_in t.now k }
{
    match k {
        0..=256 => quarter(t, k, false),
        257..=512 => quarter(t, 512 - k, false),
        513..=768 => quarter(t, k - 512, true),
        _ => quarter(t, 1024 - k, true),
    }
}

// S(p) of a phase.
fn on_line(t: &[u32; 257], p: f32) -> f32
    requires { Phase p }
    ensures { result ≡ line_in t.now p }
{
    let q = p * 1024.0;
    let k = whole_part(q);
    let r = q - (k as f32);
    let i = k as usize;
    let a = wave(t, i);
    let d = wave(t, i + 1) - a;
    ((a as f32) + r * (d as f32)) * 1.1920928955078125e-7
}

// S(p) where t is the table and p a phase; 0 where p is not above 0 and below 1.
pub fn sine(t: &[u32; 257], p: f32) -> f32
    ensures { result ≡ sine_in t.now p }
{
    if 0.0 < p && p < 1.0 {
        return on_line(t, p);
    }
    0.0
}
