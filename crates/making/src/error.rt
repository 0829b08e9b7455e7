// Why a making is refused. The numbers are those of `make_refusal` in specs/Answer.antt.
ghost use Rattle.std.specs.Prelude.{◌≡◌};
ghost use Rattle.making.specs.declared.error.MakeError.TheVariants.{Refused};

use table::error::CoeffTableCodecError;

#[derive(Clone, Copy, Debug, PartialEq, Eq)]
pub enum MakeError {
    Refused(CoeffTableCodecError), // 1 to 7: the image is refused
    TooLarge, // 8: more than 16 entries, 32 partials or 16 bands
    BadEntry(usize), // 9: a value of the entry with this index
    NoChannel, // 10: no entry has the channel
    BadRate, // 11: the sample rate
    BadCentres, // 12: the centres
}

impl From<CoeffTableCodecError> for MakeError {
    ghost from_gives = { λ e r. r ≡ Refused e };

    fn from(e: CoeffTableCodecError) -> MakeError {
        MakeError::Refused(e)
    }
}
