//! Operations whose result is of another format than their operands (IEEE 754-2019 5.4.1, formatOf): the exact result
//! of the operands is rounded once, to the format of the result, with exactly that rounding's flags.
//!
//! The methods of `IeeeFloat<S>` take operands of one format, and the functions operands of any formats. The target,
//! which may be narrower or wider, comes first among the type parameters.
//!
//! A NaN is quieted and then converted, as `convert_r` does, with INVALID_OP if an operand is signaling; an infinity is
//! converted too, so that it raises INEXACT in a target without infinities.

ghost use Rattle.apfloat_model.specs.rounding.Flags.{Gives};
ghost use Rattle.apfloat_arithmetic.specs.other_formats.{Extended.seen, FormatOf.IsSumTo, FormatOf.IsDifferenceTo};
ghost use Rattle.apfloat_arithmetic.specs.other_formats.FormatOf.{IsProductTo, IsQuotientTo, IsFusedSumTo};
ghost use Rattle.apfloat_arithmetic.specs.other_formats.{Operands.IsOperand, Operands.StandsFor, RootsOf.IsRootTo};
ghost use Rattle.apfloat_ieee.specs.FlaggedTypes.{format_of, shape_of};

use crate::flagged::Flagged;
use crate::ieee_float::{IeeeFloat, shape_of};
use apfloat_arithmetic::other_formats::operands::{self, Operand};
use apfloat_arithmetic::other_formats::{fused, products, quotients, roots, sums};
use apfloat_base::{Round, StatusAnd};

/// A value, as an operation that delivers in the format `T` sees it.
#[inline]
fn operand_of<T: Flagged, S: Flagged>(x: IeeeFloat<S>) -> Operand
    ensures operand { IsOperand (shape_of T.Flagged) result }
    ensures is { StandsFor (shape_of T.Flagged)
        (seen (format_of S.Flagged) (format_of T.Flagged) x) result }
{
    operands::operand_of(shape_of::<S>(), shape_of::<T>(), x.unpacked())
}

/// `x + y` in the format `T`, rounded once.
pub fn add<T: Flagged, S: Flagged, R: Flagged>(
    x: IeeeFloat<S>,
    y: IeeeFloat<R>,
    round: Round,
) -> StatusAnd<IeeeFloat<T>>
    ensures { Gives (IsSumTo (format_of S.Flagged) (format_of R.Flagged) (format_of T.Flagged)
        round x y) result }
{
    IeeeFloat::answered(sums::add(
        shape_of::<T>(),
        operand_of::<T, S>(x),
        operand_of::<T, R>(y),
        round,
    ))
}

/// `x - y` in the format `T`, rounded once.
pub fn subtract<T: Flagged, S: Flagged, R: Flagged>(
    x: IeeeFloat<S>,
    y: IeeeFloat<R>,
    round: Round,
) -> StatusAnd<IeeeFloat<T>>
    ensures { Gives (IsDifferenceTo (format_of S.Flagged) (format_of R.Flagged)
        (format_of T.Flagged) round x y) result }
{
    IeeeFloat::answered(sums::subtract(
        shape_of::<T>(),
        operand_of::<T, S>(x),
        operand_of::<T, R>(y),
        round,
    ))
}

/// `x * y` in the format `T`, rounded once.
pub fn multiply<T: Flagged, S: Flagged, R: Flagged>(
    x: IeeeFloat<S>,
    y: IeeeFloat<R>,
    round: Round,
) -> StatusAnd<IeeeFloat<T>>
    ensures { Gives (IsProductTo (format_of S.Flagged) (format_of R.Flagged) (format_of T.Flagged)
        round x y) result }
{
    IeeeFloat::answered(products::multiply(
        shape_of::<T>(),
        operand_of::<T, S>(x),
        operand_of::<T, R>(y),
        round,
    ))
}

/// `x / y` in the format `T`, rounded once.
pub fn divide<T: Flagged, S: Flagged, R: Flagged>(
    x: IeeeFloat<S>,
    y: IeeeFloat<R>,
    round: Round,
) -> StatusAnd<IeeeFloat<T>>
    ensures { Gives (IsQuotientTo (format_of S.Flagged) (format_of R.Flagged) (format_of T.Flagged)
        round x y) result }
{
    IeeeFloat::answered(quotients::divide(
        shape_of::<T>(),
        operand_of::<T, S>(x),
        operand_of::<T, R>(y),
        round,
    ))
}

/// The square root of `x` in the format `T`, rounded once.
pub fn square_root<T: Flagged, S: Flagged>(x: IeeeFloat<S>, round: Round) -> StatusAnd<IeeeFloat<T>>
    ensures { Gives (IsRootTo (format_of S.Flagged) (format_of T.Flagged) round x) result }
{
    IeeeFloat::answered(roots::square_root(shape_of::<T>(), operand_of::<T, S>(x), round))
}

/// `x * y + z` in the format `T`, rounded once.
pub fn multiply_add<T: Flagged, S: Flagged, R: Flagged, Q: Flagged>(
    x: IeeeFloat<S>,
    y: IeeeFloat<R>,
    z: IeeeFloat<Q>,
    round: Round,
) -> StatusAnd<IeeeFloat<T>>
    ensures { Gives (IsFusedSumTo (format_of S.Flagged) (format_of R.Flagged) (format_of Q.Flagged)
        (format_of T.Flagged) round x y z) result }
{
    IeeeFloat::answered(fused::multiply_add(
        shape_of::<T>(),
        operand_of::<T, S>(x),
        operand_of::<T, R>(y),
        operand_of::<T, Q>(z),
        round,
    ))
}

impl<S: Flagged> IeeeFloat<S> {
    /// `self + rhs` in the format `T`, rounded once (IEEE 754-2019 5.4.1, formatOf-addition).
    pub fn add_to<T: Flagged>(self, rhs: Self, round: Round) -> StatusAnd<IeeeFloat<T>>
        ensures { Gives (IsSumTo (format_of S.Flagged) (format_of S.Flagged)
            (format_of T.Flagged) round self rhs) result }
    {
        add::<T, S, S>(self, rhs, round)
    }

    /// `self - rhs` in the format `T`, rounded once (formatOf-subtraction).
    pub fn sub_to<T: Flagged>(self, rhs: Self, round: Round) -> StatusAnd<IeeeFloat<T>>
        ensures { Gives (IsDifferenceTo (format_of S.Flagged) (format_of S.Flagged)
            (format_of T.Flagged) round self rhs) result }
    {
        subtract::<T, S, S>(self, rhs, round)
    }

    /// `self * rhs` in the format `T`, rounded once (formatOf-multiplication).
    pub fn mul_to<T: Flagged>(self, rhs: Self, round: Round) -> StatusAnd<IeeeFloat<T>>
        ensures { Gives (IsProductTo (format_of S.Flagged) (format_of S.Flagged)
            (format_of T.Flagged) round self rhs) result }
    {
        multiply::<T, S, S>(self, rhs, round)
    }

    /// `self / rhs` in the format `T`, rounded once (formatOf-division).
    pub fn div_to<T: Flagged>(self, rhs: Self, round: Round) -> StatusAnd<IeeeFloat<T>>
        ensures { Gives (IsQuotientTo (format_of S.Flagged) (format_of S.Flagged)
            (format_of T.Flagged) round self rhs) result }
    {
        divide::<T, S, S>(self, rhs, round)
    }

    /// The square root in the format `T`, rounded once (formatOf-squareRoot).
    pub fn sqrt_to<T: Flagged>(self, round: Round) -> StatusAnd<IeeeFloat<T>>
        ensures { Gives (IsRootTo (format_of S.Flagged) (format_of T.Flagged) round self) result }
    {
        square_root::<T, S>(self, round)
    }

    /// `self * multiplicand + addend` in the format `T`, rounded once (formatOf-fusedMultiplyAdd).
    pub fn mul_add_to<T: Flagged>(
        self,
        multiplicand: Self,
        addend: Self,
        round: Round,
    ) -> StatusAnd<IeeeFloat<T>>
        ensures { Gives (IsFusedSumTo (format_of S.Flagged) (format_of S.Flagged)
            (format_of S.Flagged) (format_of T.Flagged) round self multiplicand addend) result }
    {
        multiply_add::<T, S, S, S>(self, multiplicand, addend, round)
    }
}
