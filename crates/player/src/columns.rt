// Columns of floats: 32 places, of which the first n are in use. One loop over a column does one thing, so that the processor can do
// several places at once where no floats are compared and no place waits for the one before it.
// Where several columns share one n, it is handed beside them: slices of what is in use would need a clause that their lengths agree.
ghost use Rattle.std.specs.Prelude.{◌≡◌, ℕ, ◌≤◌, ◌<◌, ◌+◌, ◌*◌, length, get_or, Float};
ghost use Rattle.std.specs.Float.{nan};
ghost use Rattle.std.specs.Float.Ieee.{le};
ghost use Rattle.float.specs.F32.{◌⊕◌, ◌⊗◌, quotient};
ghost use Rattle.voice.specs.Limits.{max_blended};
ghost use Rattle.voice.specs.Lists.{every, steps};
ghost use Rattle.player.specs.inner.Columns.{audible, Filled, FilledRows, GivesEach, GivesRows, GivesAll};

// These places added to y, one after the other.
pub fn sum_of(y: f32, xs: &[f32]) -> f32
    ensures { result ≡ steps (λ i y. y ⊕ get_or xs.now i nan) y (length xs.now) }
{
    let mut sum = y;
    for x in xs {
        sum += *x;
    }
    sum
}

// Whether none of these places is above the limit, or a NaN. Every place is asked, with no exit at the first that is.
pub fn all_up_to(xs: &[f32], limit: f32) -> bool
    ensures { result ≡ every (λ i. le (get_or xs.now i nan) limit) (length xs.now) }
{
    let mut ok = true;
    for x in xs {
        ok &= *x <= limit;
    }
    ok
}

// What each place adds to a sum: `term` of it, or -0, which changes no sum, where its coefficient is 0. The term is worked out at every
// place, and written over where it does not count: with a choice between the two a sample of a blend took 522 ns in the place of 503.
pub fn fill_terms<F: Fn(usize) -> f32>(terms: &mut [f32; 32], coeffs: &[f32], n: usize, term: F)
    requires { (n ≤ 32) × (n ≤ length coeffs.now) × ((i : ℕ) → i < n → F.pre term i) }
    ensures { (f : ℕ → Float) → GivesEach (F.post term) n f → Filled terms.new (λ i. audible (get_or coeffs.now i nan) (f i)) n }
{
    for i in 0..n {
        terms[i] = term(i);
        if coeffs[i] == 0.0 {
            terms[i] = -0.0;
        }
    }
}

// Row q, after the q rows before it. By index: row q lies in the middle of what is lent, and `value` is asked by index. A slice of the row
// would have to be found again in the rows, by the proof, and would be no plainer.
fn fill_row<F: Fn(usize, usize) -> f32>(rows: &mut [f32], q: usize, n: usize, value: &F)
    requires { (n ≤ 32) × (q * 32 + 32 ≤ length rows.old) × ((i : ℕ) → i < n → F.pre value.now q i) }
    ensures { (f : ℕ → ℕ → Float) → GivesRows (F.post value.now) (q + 1) n f → FilledRows rows.old f q n → FilledRows rows.new f (q + 1) n }
{
    for i in 0..n {
        rows[q * 32 + i] = value(q, i);
    }
}

// Rows of 32 places: row q, of k, is filled with `value` of q and of each of the first n places.
pub fn fill_rows<F: Fn(usize, usize) -> f32>(rows: &mut [f32], k: usize, n: usize, value: F)
    requires { (n ≤ 32) × (k * 32 ≤ length rows.old) × ((q i : ℕ) → q < k → i < n → F.pre value q i) }
    ensures { (f : ℕ → ℕ → Float) → GivesRows (F.post value) k n f → FilledRows rows.new f k n }
{
    for q in 0..k {
        fill_row(rows, q, n, &value);
    }
}

// Channel q's share of each place.
fn add_row<F: Fn(f32) -> f32>(
    xs: &mut [f32; 32],
    rows: &[f32; 128],
    q: usize,
    gain: f32,
    n: usize,
    share: &F,
)
    requires { (q < max_blended) × (n ≤ 32) × F.IsAlwaysCallable share.now }
    ensures { (f : Float → Float) → GivesAll (F.post share.now) f
        → Filled xs.new (λ i. get_or xs.old i nan ⊕ f (gain ⊗ get_or rows.now (q * 32 + i) nan)) n }
{
    for i in 0..n {
        xs[i] += share(gain * rows[q * 32 + i]);
    }
}

// A blend of k channels: at each place the sum of `share` of a gain times what stands there in the channel's row.
pub fn blend<F: Fn(f32) -> f32>(
    xs: &mut [f32; 32],
    rows: &[f32; 128],
    gains: &[f32; 4],
    k: usize,
    n: usize,
    share: F,
)
    requires { (k ≤ max_blended) × (n ≤ 32) × F.IsAlwaysCallable share }
    ensures { (f : Float → Float) → GivesAll (F.post share) f
        → Filled xs.new (λ i. steps (λ q y. y ⊕ f (get_or gains.now q nan ⊗ get_or rows.now (q * 32 + i) nan)) (quotient 0 1) k) n }
{
    xs[..n].fill(0.0);
    for q in 0..k {
        add_row(xs, rows, q, gains[q], n, &share);
    }
}
