// What `init` gives a voice: the coefficients of its bands and their compensations, for its own centres at a sample rate.
ghost use Rattle.std.specs.Prelude.{◌≡◌, ◌*◌, ◌≤◌, ◌++◌, length, take, drop};
ghost use Rattle.voice.specs.Bands.{band_floats, init_lists};
ghost use Rattle.voice.specs.Limits.{max_bands, list_places};
ghost use Rattle.voice.specs.Voice.{bands_at, compensations_list};
ghost use Rattle.voice.specs.inner.BandArrays.{band_arrays};

use crate::limits::MAX_BANDS;
use crate::lists::{BANDS_AT, CENTRES, COMPENSATIONS, LISTS_PLACES, put_list, short_list};
use filters::{BiquadCoeffs, init_band, zero_coeffs};

// What each band has one of: two columns, since each is put among the lists in one go.
#[derive(Clone, Copy)]
pub struct Bands {
    pub coeffs: [BiquadCoeffs; 16],
    pub compensation: [f32; 16],
}

// Of these centres.
fn init_bands(centres: &[f32], sample_rate: f32) -> Bands
    requires { length centres.now ≤ max_bands }
    ensures { result ≡ band_arrays centres.now sample_rate }
{
    let zero = zero_coeffs();
    let mut coeffs = [zero; 16];
    let mut compensation = [0.0; 16];
    for (i, centre) in centres.iter().enumerate() {
        let band = init_band(*centre, sample_rate);
        coeffs[i] = band.coeffs;
        compensation[i] = band.compensation;
    }
    Bands {
        coeffs,
        compensation,
    }
}

// The bands' coefficients, five a band, put after the first four lists.
fn put_bands(mut lists: [f32; LISTS_PLACES], bands: [BiquadCoeffs; 16]) -> [f32; LISTS_PLACES]
    ensures { result ≡ take bands_at lists ++ (band_floats bands ++ drop (compensations_list * list_places) lists) }
{
    for (b, c) in bands.iter().enumerate() {
        let at = BANDS_AT + b * 5;
        lists[at..at + 5].copy_from_slice(&[c.b0, c.b1, c.b2, c.a1, c.a2]);
    }
    lists
}

// The bands and the compensations of the first j centres of the voice with these lists, put among them.
pub fn init(lists: [f32; LISTS_PLACES], j: usize, sample_rate: f32) -> [f32; LISTS_PLACES]
    ensures { result ≡ init_lists lists j sample_rate }
{
    let centres = &short_list(&lists, CENTRES)[..j.min(MAX_BANDS)];
    let bands = init_bands(centres, sample_rate);
    let with_bands = put_bands(lists, bands.coeffs);
    put_list(with_bands, COMPENSATIONS, bands.compensation)
}
