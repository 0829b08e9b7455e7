// Question 8: at most 32 partials and 16 bands in each entry. (That there are at most 16 entries is tested before.)
ghost use Rattle.std.specs.Prelude.{◌≡◌, ℕ, List};
ghost use Rattle.table.specs.View.{entry_at};
ghost use Rattle.making.specs.Making.{all, sizes_ok};
ghost use Rattle.making.specs.inner.Views.{entries_in};

use crate::entries::Entries;
use table::entry::EntryView;
use voice::{MAX_BANDS, MAX_PARTIALS};

fn size_ok(v: EntryView) -> bool
    ensures { (s : List ℕ) → result ≡ sizes_ok (entry_at s v) }
{
    v.m_partials as usize <= MAX_PARTIALS && v.j_noise as usize <= MAX_BANDS
}

impl Entries<'_> {
    pub fn sizes_ok(&self) -> bool
        ensures { result ≡ all sizes_ok (entries_in self.now) }
    {
        self.views.iter().all(|v| size_ok(*v))
    }
}
