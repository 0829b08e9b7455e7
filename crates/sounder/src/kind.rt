// A voice's kind as a number.
ghost use Rattle.std.specs.Prelude.{◌≡◌};
ghost use Rattle.sounder.specs.Answer.{kind_of};

use table::desk::Kind;

// 0 is a single voice of the channel, any other number a blend.
pub fn kind_of(kind: u32, channel: u32) -> Kind
    ensures { result ≡ kind_of kind channel }
{
    if kind == 0 {
        Kind::Single(channel)
    } else {
        Kind::Blend
    }
}
