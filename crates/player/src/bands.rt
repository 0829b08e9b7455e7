// Which bands of a voice tick: of a single voice all of them, whatever its list of live bands says; of a blend those of the list.
ghost use Rattle.player.specs.Bands.{ticking_set};
ghost use Rattle.player.specs.inner.Passes.{LiveFit, LiveOf};

use voice::Setting;

// Every band that a voice can have.
const ALL_BANDS: [u8; 16] = [0, 1, 2, 3, 4, 5, 6, 7, 8, 9, 10, 11, 12, 13, 14, 15];

// The bands that tick, in their order.
pub fn live_of(set: &Setting) -> &[u8]
    requires { LiveFit (ticking_set set.now) }
    ensures { LiveOf set.now result.now }
{
    if set.blend != 0 {
        &set.live[..set.live_count]
    } else {
        &ALL_BANDS[..set.j]
    }
}
