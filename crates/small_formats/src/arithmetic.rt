//! Arithmetic of storage formats (IEEE 754-2019 5.4.1).
//!
//! An operation is computed toward zero in `WideS`, which has more digits than each storage format, and exponents
//! enough. That result, rounded to odd, tells all that a rounding has to know, and `StoredFloat::from_value` rounds it:
//! so the exact result is rounded once.

ghost use Rattle.std.specs.Prelude.{◌≡◌, ◌+◌, ◌-◌, ◌*◌, ◌^◌, false, eqb, pos, neg_ℤ, refl};
ghost use Rattle.std.specs.Bool.{MatchBool};
ghost use Rattle.apfloat_model.specs.{declared.kinds.NonfiniteBehavior.TheVariants.IEEE754, formats.Datum.finite};
ghost use Rattle.apfloat_model.specs.order.Classes.{is_finite, is_negative, quanta_of};
ghost use Rattle.apfloat_model.specs.rounding.{Answer.IsAnswer, Flags.Gives, Flags.bits_of, Rounding.ok_bits};
ghost use Rattle.apfloat_model.specs.arithmetic.{FusedSums.fused_sum, Products.product, Quotients.quotient, Roots.root};
ghost use Rattle.apfloat_model.specs.arithmetic.Sums.{difference, sum};
ghost use Rattle.apfloat_model.proofs.formats.LawTest.{lawful_from_test};
ghost use Rattle.apfloat_ieee.specs.FlaggedTypes.{format_of as flagged_format_of};
ghost use Rattle.apfloat_ieee.specs.Types.{format_of};
ghost use Rattle.round_to_odd.specs.Odd.{IsAnswerMadeOdd};
ghost use Rattle.small_formats.specs.Arithmetic.{IsStored, stored_datum};
ghost use Rattle.small_formats.specs.Codes.{datum_of, is_negative_code, magnitude_of, point};
ghost use Rattle.small_formats.specs.{Conversions.IsSaturated, Storage.format_with, Types.constants_of};

use crate::format::StorageFormat;
use crate::stored::StoredFloat;
use apfloat_arithmetic::products::product_sign;
use apfloat_arithmetic::sums::sign_of_zero;
use apfloat_base::{ExpInt, Float, NonfiniteBehavior, Round, Status, StatusAnd};
use apfloat_ieee::{Flagged, IeeeFloat, Semantics};
use round_to_odd::to_odd;

/// A format for computing only: 53 digits, and the widest range of exponents that a format may have.
#[derive(Clone, Copy)]
pub(crate) struct WideS;

impl Semantics for WideS {
    const BITS: usize = 0;

    const EXP_BITS: usize = 0;

    const PRECISION: usize = 53;

    const NONFINITE_BEHAVIOR: NonfiniteBehavior = NonfiniteBehavior::IEEE754;

    const MAX_EXP: ExpInt = 1 << 20;

    const IEEE_MAX_EXP: ExpInt = 0;

    const MIN_EXP: ExpInt = -(1 << 20);

    const IEEE_MIN_EXP: ExpInt = 0;

    const NAN_SIGNIFICAND_BASE: u128 = 0;

    const NAN_PAYLOAD_MASK: u128 = (1 << 52) - 1;

    const QNAN_SIGNIFICAND: u128 = 1 << 51;

    const EXPLICIT_INTEGER_BIT: bool = false;

    const TINY_BEFORE_ROUNDING: bool = false;

    ghost BITS = { 0 };

    ghost EXP_BITS = { 0 };

    ghost PRECISION = { 53 };

    ghost NONFINITE_BEHAVIOR = { IEEE754 };

    ghost MAX_EXP = { pos (2 ^ 20) };

    ghost IEEE_MAX_EXP = { pos 0 };

    ghost MIN_EXP = { neg_ℤ (pos (2 ^ 20)) };

    ghost IEEE_MIN_EXP = { pos 0 };

    ghost NAN_SIGNIFICAND_BASE = { 0 };

    ghost NAN_PAYLOAD_MASK = { 2 ^ 52 - 1 };

    ghost QNAN_SIGNIFICAND = { 2 ^ 51 };

    ghost EXPLICIT_INTEGER_BIT = { false };

    ghost TINY_BEFORE_ROUNDING = { false };

    ghost lawful = { lawful_from_test _ refl };
}

/// The number in the wide format, whose quantum is 2^-(2^20 + 52).
pub(crate) fn widened<F: StorageFormat>(x: StoredFloat<F>) -> IeeeFloat<WideS>
    ensures { let c = constants_of F.StorageFormat in result ≡ finite (is_negative_code c x)
        (point c.precision (magnitude_of c x) * 2 ^ (2 ^ 20 + 52 - (format_with c).scale)) }
{
    let mut loses_info = false;
    x.convert_r(Round::TowardZero, &mut loses_info).value
}

/// A result toward zero, rounded to odd.
fn made_odd<S: Flagged>(truncated: StatusAnd<IeeeFloat<S>>) -> StatusAnd<IeeeFloat<S>>
    ensures { IsAnswerMadeOdd (flagged_format_of S.Flagged) (is_negative truncated.value) truncated
        result }
{
    to_odd(truncated, truncated.value.is_negative())
}

/// What a result that is rounded to odd becomes: a number is rounded, and other values keep their flags; `of_zero` is
/// the sign of a zero.
fn projected<S: Semantics, F: StorageFormat>(
    odd: StatusAnd<IeeeFloat<S>>,
    of_zero: bool,
    round: Round,
) -> StatusAnd<StoredFloat<F>>
    ensures { let c = constants_of F.StorageFormat in let f = format_with c in
        let x = odd.value in let value = datum_of c result.value in
        let status = bits_of result.status in MatchBool (is_finite x)
        (MatchBool (eqb (quanta_of x) 0) (IsAnswer (finite of_zero 0) ok_bits value status)
        (IsSaturated c round (is_negative x) (quanta_of x * 2 ^ f.scale)
        (2 ^ (format_of S.Semantics).scale) result.value status))
        (IsAnswer (stored_datum f x) (bits_of odd.status) value status) }
{
    if odd.value.is_zero() {
        return Status::OK.and(StoredFloat::with_sign(of_zero, 0));
    }
    let mut loses_info = false;
    let answer = StoredFloat::from_value(odd.value, round, &mut loses_info);
    if odd.value.is_finite() {
        answer
    } else {
        odd.status.and(answer.value)
    }
}

impl<F: StorageFormat> StoredFloat<F> {
    /// `self + rhs`, rounded once, with the flags of that rounding. Past the largest number the result is that number,
    /// as in `from_value`. The sum of opposite numbers is -0 only where the mode is toward negative (6.3).
    pub fn add_r(self, rhs: Self, round: Round) -> StatusAnd<Self>
        ensures { let c = constants_of F.StorageFormat in Gives (IsStored c round
            (sum (format_with c) (datum_of c self) (datum_of c rhs))) result }
    {
        let truncated = widened(self).add_r(widened(rhs), Round::TowardZero);
        let of_zero = sign_of_zero(round, self.is_negative(), rhs.is_negative());
        projected(made_odd(truncated), of_zero, round)
    }

    /// `self - rhs`, rounded once, as the sum of `self` and the number opposite to `rhs`.
    pub fn sub_r(self, rhs: Self, round: Round) -> StatusAnd<Self>
        ensures { let c = constants_of F.StorageFormat in Gives (IsStored c round
            (difference (format_with c) (datum_of c self) (datum_of c rhs))) result }
    {
        let truncated = widened(self).sub_r(widened(rhs), Round::TowardZero);
        let of_zero = sign_of_zero(round, self.is_negative(), !rhs.is_negative());
        projected(made_odd(truncated), of_zero, round)
    }

    /// `self * rhs`, rounded once, with the flags of that rounding.
    pub fn mul_r(self, rhs: Self, round: Round) -> StatusAnd<Self>
        ensures { let c = constants_of F.StorageFormat in Gives (IsStored c round
            (product (format_with c) (datum_of c self) (datum_of c rhs))) result }
    {
        let truncated = widened(self).mul_r(widened(rhs), Round::TowardZero);
        let of_zero = product_sign(self.is_negative(), rhs.is_negative());
        projected(made_odd(truncated), of_zero, round)
    }

    /// `self / rhs`, rounded once, with the flags of that rounding. A number divided by zero is the largest number with
    /// the sign of the quotient, with DIV_BY_ZERO, and zero divided by zero is +0, with INVALID_OP.
    pub fn div_r(self, rhs: Self, round: Round) -> StatusAnd<Self>
        ensures { let c = constants_of F.StorageFormat in Gives (IsStored c round
            (quotient (format_with c) (datum_of c self) (datum_of c rhs))) result }
    {
        let truncated = widened(self).div_r(widened(rhs), Round::TowardZero);
        let of_zero = product_sign(self.is_negative(), rhs.is_negative());
        projected(made_odd(truncated), of_zero, round)
    }

    /// The square root, rounded once, with the flags of that rounding. A zero is its own root, and the root of a number
    /// below zero is +0, with INVALID_OP.
    pub fn sqrt_r(self, round: Round) -> StatusAnd<Self>
        ensures { let c = constants_of F.StorageFormat in Gives (IsStored c round
            (root (format_with c) (datum_of c self))) result }
    {
        let truncated = widened(self).sqrt_r(Round::TowardZero);
        projected(made_odd(truncated), self.is_negative(), round)
    }

    /// `self * multiplicand + addend`, rounded once (fusedMultiplyAdd); an exact zero has the sign of a sum.
    pub fn mul_add_r(self, multiplicand: Self, addend: Self, round: Round) -> StatusAnd<Self>
        ensures { let c = constants_of F.StorageFormat in Gives (IsStored c round
            (fused_sum (format_with c) (datum_of c self) (datum_of c multiplicand)
            (datum_of c addend))) result }
    {
        let (factor, term) = (widened(multiplicand), widened(addend));
        let truncated = widened(self).mul_add_r(factor, term, Round::TowardZero);
        let left = product_sign(self.is_negative(), multiplicand.is_negative());
        let of_zero = sign_of_zero(round, left, addend.is_negative());
        projected(made_odd(truncated), of_zero, round)
    }
}
