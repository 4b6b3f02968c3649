//! The types of the kinds of values.

ghost use Rattle.rustc_apfloat.specs.declared.{Round.Round, Round.TheVariants.NearestTiesToEven, StatusAnd.StatusAnd};
ghost use Rattle.rustc_apfloat.specs.FlaggedTypes.{constants_of, format_of};
ghost use Rattle.rustc_apfloat.specs.{Flags.Gives, PairRoots.IsPairRoot, Roots.IsRoot};
ghost use Rattle.formats_at_run_time.specs.{TextReadings.ReadsTexts, TextsRead.format_reads, TextsRead.pairs_read};

use rustc_apfloat::ieee::{Flagged, IeeeFloat};
use rustc_apfloat::ppc::{DoubleDouble, FallbackS};
use rustc_apfloat::{Float, ParseError, Round, StatusAnd};

/// A type of values: those of a format, or pairs of doubles. It has the calls that both share but `Float` lacks, so
/// that code for both is written once.
pub trait ValueType: Float {
    // What the square root returns, as a relation.
    ghost takes_root: { Self → Round → StatusAnd Self → Type 0 };

    /// The product, which every type of values has, whatever its precision.
    fn wide_mul_r(self, rhs: Self, round: Round) -> StatusAnd<Self>
        ensures { Self.meaning.multiplies self rhs round result };

    /// The square root.
    fn sqrt_r(self, round: Round) -> StatusAnd<Self>
        ensures { takes_root self round result };

    /// The square root, rounded to the nearest value, ties to even.
    fn sqrt(self) -> StatusAnd<Self>
        ensures { takes_root self NearestTiesToEven result };

    /// Reads a text, given by its bytes, as `from_str_r` does. A byte above 127 is refused, since it has no meaning.
    fn from_ascii_r(text: &[u8], round: Round) -> Result<StatusAnd<Self>, ParseError>
        ensures { Self.meaning.reads text.now round result };

    // A text is refused only for a fault, which does not depend on the type.
    ghost reads_texts: { ReadsTexts Self.meaning.reads };
}

impl<S: Flagged> ValueType for IeeeFloat<S> {
    ghost takes_root = { λ x mode answer. Gives (IsRoot (format_of S.Flagged) mode x) answer };

    ghost reads_texts = { format_reads (constants_of S.Flagged) };

    #[inline(always)]
    fn wide_mul_r(self, rhs: Self, round: Round) -> StatusAnd<Self> {
        self.wide_mul_r(rhs, round)
    }

    #[inline(always)]
    fn sqrt_r(self, round: Round) -> StatusAnd<Self> {
        self.sqrt_r(round)
    }

    #[inline(always)]
    fn sqrt(self) -> StatusAnd<Self> {
        self.sqrt()
    }

    #[inline(always)]
    fn from_ascii_r(text: &[u8], round: Round) -> Result<StatusAnd<Self>, ParseError> {
        IeeeFloat::<S>::from_ascii_r(text, round)
    }
}

impl ValueType for DoubleDouble {
    ghost takes_root = { λ x mode answer. Gives (IsPairRoot mode x) answer };

    ghost reads_texts = { pairs_read };

    #[inline(always)]
    fn wide_mul_r(self, rhs: Self, round: Round) -> StatusAnd<Self> {
        self.mul_r(rhs, round)
    }

    #[inline(always)]
    fn sqrt_r(self, round: Round) -> StatusAnd<Self> {
        self.sqrt_r(round)
    }

    #[inline(always)]
    fn sqrt(self) -> StatusAnd<Self> {
        self.sqrt()
    }

    /// Reads a text in the wide format, as `from_str_r` does, and splits the value.
    #[inline(always)]
    fn from_ascii_r(text: &[u8], round: Round) -> Result<StatusAnd<Self>, ParseError> {
        match IeeeFloat::<FallbackS>::from_ascii_r(text, round) {
            Ok(answer) => Ok(answer.map(|value| DoubleDouble::from(value))),
            Err(error) => Err(error),
        }
    }
}
