//! Reading texts.

ghost use Rattle.std.specs.Prelude.{◌≡◌, Result};
ghost use Rattle.apfloat_model.specs.declared.kinds.Round.TheVariants.{NearestTiesToEven};
ghost use Rattle.apfloat_model.specs.declared.{parse_error.ParseError.ParseError, status.StatusAnd.StatusAnd};
ghost use Rattle.apfloat_model.specs.{formats.Datum.Datum, texts.Parsing.IsRead, texts.Parsing.without_status};
ghost use Rattle.apfloat_ieee.specs.FlaggedTypes.{format_of};

use crate::flagged::Flagged;
use crate::ieee_float::{IeeeFloat, shape_of};
use apfloat_base::{ParseError, Round, StatusAnd};
use std::str::FromStr;

/// The value of a text, or its refusal.
#[inline]
pub(crate) fn read<S: Flagged>(
    text: &[u8],
    round: Round,
) -> Result<StatusAnd<IeeeFloat<S>>, ParseError>
    ensures { IsRead (format_of S.Flagged) round text.now result }
{
    match apfloat_conversions::hex_texts::read(shape_of::<S>(), text, round) {
        Ok(answer) => Ok(IeeeFloat::answered(answer)),
        Err(error) => Err(error),
    }
}

impl<S: Flagged> IeeeFloat<S> {
    /// Reads a text, given by its bytes, as `from_str_r` does. A byte above 127 is refused, since it has no meaning.
    #[inline]
    pub fn from_ascii_r(text: &[u8], round: Round) -> Result<StatusAnd<Self>, ParseError>
        ensures { IsRead (format_of S.Flagged) round text.now result }
    {
        read::<S>(text, round)
    }
}

impl<S: Flagged> FromStr for IeeeFloat<S> {
    type Err = ParseError;

    ghost from_str_gives = { λ text r. (answer : Result (StatusAnd Datum) ParseError)
        × IsRead (format_of S.Flagged) NearestTiesToEven text answer
        × (r ≡ without_status answer) };

    /// Reads a text as `from_str_r` does, rounding to the nearest value, ties to even; the status is discarded.
    fn from_str(s: &str) -> Result<Self, ParseError> {
        match read::<S>(s.as_bytes(), Round::NearestTiesToEven) {
            Ok(answer) => Ok(answer.value),
            Err(error) => Err(error),
        }
    }
}
