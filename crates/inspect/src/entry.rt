// The entries of a table in words.
use console::say;
use table::entry::{EntryView, entry_at, metadata_value};
use table::start::entries_start;
use wire::cursor::Cursor;

// A metadata value, or what stands where it is missing.
fn metadata(image: &[u8], v: EntryView, what: &[u8], key: &[u8]) {
    say::text(1, what);
    match metadata_value(image, v, key) {
        Some(n) => say::float(1, n),
        None => say::text(1, b"not given"),
    }
}

fn one(image: &[u8], i: usize, v: EntryView) {
    say::text(1, b"  entry ");
    say::number(1, i as u64);
    say::text(1, b": pitch ");
    say::float(1, v.f0_hz);
    say::text(1, b", stretch ");
    say::float(1, v.stretch);
    say::text(1, b", partials ");
    say::number(1, u64::from(v.m_partials));
    say::text(1, b", channels ");
    say::number(1, u64::from(v.k_channels));
    say::text(1, b", noise bands ");
    say::number(1, u64::from(v.j_noise));
    metadata(image, v, b", mainlobe_gain ", b"mainlobe_gain");
    metadata(image, v, b", noise_gain ", b"noise_gain");
    say::text(1, b"\n");
}

// Says every entry of an accepted image, and answers the largest channel count of them. An entry is looked for where the one before it
// ends, so that the image is gone through once, however many entries it has.
pub fn all(image: &[u8]) -> u32 {
    let start = entries_start(image);
    let mut c = Cursor { at: start.at };
    let mut k = 0;
    for i in 0..start.count {
        let Ok(v) = entry_at(image, c, i) else {
            return k;
        };
        one(image, i, v);
        k = k.max(v.k_channels);
        c = Cursor { at: v.end };
    }
    k
}
