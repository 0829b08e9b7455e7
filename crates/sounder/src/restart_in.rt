// Reset and reseed of a voice where it lies.
ghost use Rattle.std.specs.Prelude.{◌≡◌};
ghost use Rattle.voice.specs.Restart.{reset_of, reseed_of};

use crate::answer::number_of;
use voice::Voice;

// Phases and memories 0, and the default seed. A refusal, whose number is answered, leaves the voice as it is.
#[unsafe(no_mangle)]
pub extern "C" fn sounder_reset_in(voice: &mut Voice) -> u32
    ensures { record { number = result; voice = voice.new } ≡ reset_of voice.old }
{
    number_of(voice.reset())
}

// The seed is taken, the memories are 0, the phases kept. A refusal, whose number is answered, leaves the voice as it is.
#[unsafe(no_mangle)]
pub extern "C" fn sounder_reseed_in(voice: &mut Voice, seed: u32) -> u32
    ensures { record { number = result; voice = voice.new } ≡ reseed_of voice.old seed }
{
    number_of(voice.reseed(seed))
}
