//! The rules of conversions into a format of IEEE P3109.

ghost use Rattle.std.specs.Prelude.{◌≡◌};
ghost use Rattle.p3109_formats.specs.Rules.{passes, plain_rule, round_of};

use apfloat_base::Round;
use small_formats::picks::ieee_mode;
use small_formats::{ConversionRound, RandomDigits};

/// How a number is rounded.
///
/// A random number takes it to the neighbour away from zero, if that number and the parts by which the value is past
/// the other neighbour are together at least 2^digits. The distance of the neighbours has 2^digits parts. The three
/// ways differ in what a broken part counts.
#[derive(Clone, Copy, Debug)]
pub enum ProjectionRound {
    /// A mode of conversions. With random digits it is StochasticA: a broken part counts nothing.
    By(ConversionRound),
    /// Parts are rounded to nearest, ties up: the random number has a half added to it.
    StochasticB(RandomDigits),
    /// Parts are rounded to nearest, ties to even.
    StochasticC(RandomDigits),
}

/// What becomes of what is past the largest number. Flags of numbers do not depend on it.
#[derive(Clone, Copy, PartialEq, Eq, Debug)]
pub enum Saturation {
    /// A number becomes the infinity, or the NaN in its place, where its mode leads past the largest one (OvfInf).
    Overflow,
    /// A number becomes the largest one of its sign, and so does an infinity, with INEXACT (SatFinite).
    Finite,
    /// A number becomes the largest one of its sign; an infinity does not (SatPropagate).
    Propagate,
}

/// How a conversion rounds and saturates.
#[derive(Clone, Copy, Debug)]
pub struct ProjectionRule {
    pub round: ProjectionRound,
    pub saturation: Saturation,
}

/// The rule of a mode, without saturation.
pub(crate) fn plain_rule(mode: ConversionRound) -> ProjectionRule
    ensures { result ≡ plain_rule mode }
{
    ProjectionRule {
        round: ProjectionRound::By(mode),
        saturation: Saturation::Overflow,
    }
}

/// The mode of IEEE 754 that treats alike a pick past the largest number.
pub(crate) fn round_of(round: ProjectionRound) -> Round
    ensures { result ≡ round_of round }
{
    match round {
        ProjectionRound::By(mode) => ieee_mode(mode),
        ProjectionRound::StochasticB(_) => Round::NearestTiesToEven,
        ProjectionRound::StochasticC(_) => Round::NearestTiesToEven,
    }
}

/// Whether a number past the largest one becomes what is past it.
pub(crate) fn passes(saturation: Saturation, leads: bool) -> bool
    ensures { result ≡ passes saturation leads }
{
    match saturation {
        Saturation::Overflow => leads,
        Saturation::Finite => false,
        Saturation::Propagate => false,
    }
}
