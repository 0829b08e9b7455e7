// The short lists of a voice: 16 places each, one after the other in one array.
ghost use Rattle.std.specs.Prelude.{◌≡◌, ◌<◌, length};
ghost use Rattle.voice.specs.Limits.{list_places, short_lists};
ghost use Rattle.voice.specs.Voice.{list_at, with_list};

// How many there are, and the places of all of them.
const SHORT_LISTS: usize = 11;

pub const LISTS_PLACES: usize = 176;

// Which is which: places in an array that crosses to C, and so numbers.
pub const PITCHES: usize = 0;

pub const STRETCHES: usize = 1;

pub const MAINLOBE_GAINS: usize = 2;

pub const NOISE_GAINS: usize = 3;

pub const COMPENSATIONS: usize = 9;

pub const CENTRES: usize = 10;

// Where the first band's coefficients stand. Those of the bands, five a band, take the places of lists 4 to 8.
pub const BANDS_AT: usize = 64;

// List n where it lies.
pub(crate) fn short_list(lists: &[f32; LISTS_PLACES], n: usize) -> &[f32]
    requires { n < short_lists }
    ensures list { result.now ≡ list_at lists.now n }
    ensures long { length result.now ≡ list_places }
{
    let from = n * 16;
    &lists[from..from + 16]
}

// List n by itself; where there is none, no number in any place.
pub fn list_of(lists: &[f32; LISTS_PLACES], n: usize) -> [f32; 16]
    ensures { result ≡ list_at lists.now n }
{
    let mut list = [f32::NAN; 16];
    if n < SHORT_LISTS {
        list.copy_from_slice(short_list(lists, n));
    }
    list
}

// The lists with another list n; where there is none, as they are. (And the list is 16 long: where an array comes out of a struct, a proof
// does not know it.)
pub fn put_list(mut lists: [f32; LISTS_PLACES], n: usize, list: [f32; 16]) -> [f32; LISTS_PLACES]
    ensures { (result ≡ with_list lists n list) × (length list ≡ 16) }
{
    if n < SHORT_LISTS {
        let from = n * 16;
        lists[from..from + 16].copy_from_slice(&list);
    }
    lists
}

// A live band's number as an index.
pub fn band_of(live: u8) -> usize
    ensures { result ≡ live }
{
    usize::from(live)
}
