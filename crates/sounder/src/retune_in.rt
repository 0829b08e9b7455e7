// Retune of a voice where it lies.
ghost use Rattle.std.specs.Prelude.{◌≡◌};
ghost use Rattle.voice.specs.Retuning.{retune_of};

use crate::answer::number_of;
use voice::Voice;

// Another sample rate: the rate, the bands and the compensations that `init` gives for the voice's own centres. A refusal, whose number is
// answered, leaves the voice as it is.
#[unsafe(no_mangle)]
pub extern "C" fn sounder_retune_in(voice: &mut Voice, sample_rate: f32) -> u32
    ensures { record { number = result; voice = voice.new } ≡ retune_of voice.old sample_rate }
{
    number_of(voice.retune(sample_rate))
}
