//! `Float` for each format, and `Default`.

ghost use Rattle.std.specs.Prelude.{◌≡◌, ◌^◌, ◌<◌, ℕ, true, false, leb, IsTrue, refl};
ghost use Rattle.std.proofs.lemmas.Bool.{leb-true};
ghost use Rattle.apfloat_model.specs.rounding.{Flags.Gives, Flags.bits_of, Rounding.ok_bits};
ghost use Rattle.apfloat_model.specs.formats.{Nan.qnan, Nan.snan, Members.IsMember, Constants.zero_datum};
ghost use Rattle.apfloat_model.specs.arithmetic.Sums.{IsSum, IsDifference, IsMonotone, IsNearby};
ghost use Rattle.apfloat_model.specs.arithmetic.Products.{IsProduct, IsOpposite, product_limit};
ghost use Rattle.apfloat_model.specs.arithmetic.NextUp.{IsNextUp, IsNextDown};
ghost use Rattle.apfloat_model.specs.{declared.kinds.NonfiniteBehavior.TheVariants.IEEE754, order.Classes.category_of};
ghost use Rattle.apfloat_model.specs.order.Classes.{is_negative, is_denormal, is_finite_non_zero, is_integer};
ghost use Rattle.apfloat_model.specs.bits.Layout.{datum_of, IsEncodedBy, IsReadFrom};
ghost use Rattle.apfloat_model.proofs.whole_numbers.SignedNumbers.{signed_above, signed_below, largest_some};
ghost use Rattle.apfloat_model.proofs.{Determined.determined, Determined.scale_some, bits.Encodings.lawful_interchange};
ghost use Rattle.apfloat_conversions.proofs.ToSigned.{to_signed_above, to_signed_below};
ghost use Rattle.apfloat_ieee.specs.FlaggedTypes.{constants_of, format_of, layout_of};
ghost use Rattle.apfloat_ieee.specs.FormatMeaning.{format_meaning};

use crate::flagged::Flagged;
use crate::ieee_float::{IeeeFloat, decode, encode, shape_of};
use crate::products::{product, quotient};
use crate::reading::read;
use crate::remainders::truncated;
use crate::sums::{difference, sum};
use apfloat_arithmetic::classes::is_denormal;
use apfloat_arithmetic::inverses::exact_inverse;
use apfloat_arithmetic::order::{compare_magnitudes, is_same};
use apfloat_arithmetic::remainders::nearest_remainder;
use apfloat_base::{Category, ExpInt, Float, PRODUCT_LIMIT, ParseError, Round, StatusAnd};
use apfloat_conversions::integers::{from_unsigned, to_signed, to_unsigned};
use apfloat_conversions::integral::{is_integer, round_to_integral};
use apfloat_conversions::neighbours::next_up;
use apfloat_conversions::scaling::{fraction_of, ilogb, scaled};
use apfloat_rounding::nans::{is_signaling, quiet_nan, signaling_nan};
use apfloat_rounding::unpacked::{
    infinity_of, largest_of, smallest_normalized_of, smallest_of, zero_of,
};
use std::cmp::Ordering;

impl<S: Flagged> Default for IeeeFloat<S> {
    ghost is_default = { λ x. x ≡ zero_datum };

    /// +0.
    fn default() -> Self {
        IeeeFloat::packed(zero_of(shape_of::<S>(), false))
    }
}

impl<S: Flagged> Float for IeeeFloat<S> {
    const BITS: usize = S::BITS;

    const PRECISION: usize = S::PRECISION;

    const MAX_EXP: ExpInt = S::MAX_EXP;

    const MIN_EXP: ExpInt = S::MIN_EXP;

    const MULTIPLIES: bool = S::PRECISION <= PRODUCT_LIMIT;

    ghost BITS = { S.BITS };

    ghost PRECISION = { S.PRECISION };

    ghost MAX_EXP = { S.MAX_EXP };

    ghost MIN_EXP = { S.MIN_EXP };

    ghost MULTIPLIES = { leb S.PRECISION product_limit };

    ghost meaning = { format_meaning (format_of S.Flagged) (layout_of S.Flagged) };

    #[inline]
    fn zero() -> Self {
        IeeeFloat::packed(zero_of(shape_of::<S>(), false))
    }

    #[inline]
    fn infinity() -> Self {
        IeeeFloat::packed(infinity_of(shape_of::<S>(), false))
    }

    #[inline]
    fn qnan(payload: Option<u128>) -> Self {
        IeeeFloat::packed(quiet_nan(shape_of::<S>(), payload.unwrap_or(0)))
    }

    #[inline]
    fn snan(payload: Option<u128>) -> Self {
        IeeeFloat::packed(signaling_nan(shape_of::<S>(), payload.unwrap_or(0)))
    }

    #[inline]
    fn largest() -> Self {
        IeeeFloat::packed(largest_of(shape_of::<S>(), false))
    }

    #[inline]
    fn smallest() -> Self {
        IeeeFloat::packed(smallest_of(shape_of::<S>()))
    }

    #[inline]
    fn smallest_normalized() -> Self {
        IeeeFloat::packed(smallest_normalized_of(shape_of::<S>()))
    }

    #[inline(always)]
    fn add_r(self, rhs: Self, round: Round) -> StatusAnd<Self>
        ensures sum { Gives (IsSum (format_of S.Flagged) round self rhs) result }
        ensures monotone { IsMonotone (format_of S.Flagged) round self rhs result.value }
    {
        sum(self, rhs, round)
    }

    #[inline(always)]
    fn sub_r(self, rhs: Self, round: Round) -> StatusAnd<Self>
        ensures difference { Gives (IsDifference (format_of S.Flagged) round self rhs) result }
        ensures nearby { Gives (IsNearby self rhs) result }
    {
        difference(self, rhs, round)
    }

    #[inline(always)]
    fn mul_r(self, rhs: Self, round: Round) -> StatusAnd<Self>
        requires { IsTrue (leb S.PRECISION product_limit) }
        ensures product { Gives (IsProduct (format_of S.Flagged) round self rhs) result }
        ensures opposite { Gives (IsOpposite (format_of S.Flagged) round self rhs) result }
    {
        product(self, rhs, round)
    }

    #[inline(always)]
    fn div_r(self, rhs: Self, round: Round) -> StatusAnd<Self> {
        quotient(self, rhs, round)
    }

    #[inline(always)]
    fn ieee_rem(self, rhs: Self) -> StatusAnd<Self> {
        IeeeFloat::answered(nearest_remainder(shape_of::<S>(), self.unpacked(), rhs.unpacked()))
    }

    #[inline]
    fn c_fmod(self, rhs: Self) -> StatusAnd<Self> {
        truncated(self, rhs)
    }

    #[inline]
    fn round_to_integral(self, round: Round) -> StatusAnd<Self> {
        IeeeFloat::answered(round_to_integral(shape_of::<S>(), self.unpacked(), round))
    }

    #[inline]
    fn next_up(self) -> StatusAnd<Self>
        ensures next { Gives (IsNextUp (format_of S.Flagged) self) result }
        ensures back { S.NONFINITE_BEHAVIOR ≡ IEEE754 → is_finite_non_zero self ≡ true
            → IsNextDown (format_of S.Flagged) result.value self ok_bits }
    {
        IeeeFloat::answered(next_up(shape_of::<S>(), self.unpacked()))
    }

    #[inline]
    fn from_bits(bits: u128) -> Self
        requires { S.PRECISION < S.BITS }
        ensures { IsReadFrom (format_of S.Flagged) (layout_of S.Flagged) bits result }
    {
        decode::<S>(bits)
    }

    #[inline(always)]
    fn from_u128_r(input: u128, round: Round) -> StatusAnd<Self> {
        IeeeFloat::answered(from_unsigned(shape_of::<S>(), input, round))
    }

    #[inline]
    fn from_str_r(s: &str, round: Round) -> Result<StatusAnd<Self>, ParseError> {
        read::<S>(s.as_bytes(), round)
    }

    #[inline]
    fn to_bits(self) -> u128
        requires { S.PRECISION < S.BITS }
        ensures written { IsEncodedBy (format_of S.Flagged) (layout_of S.Flagged) result self }
        ensures below { result < 2 ^ S.BITS }
        ensures back { datum_of (format_of S.Flagged) (layout_of S.Flagged) result ≡ self }
        ensures only { (other : ℕ)
            → IsEncodedBy (format_of S.Flagged) (layout_of S.Flagged) other self
            → other ≡ result }
    {
        encode::<S>(self)
    }

    #[inline(always)]
    fn to_i128_r(self, width: usize, round: Round, is_exact: &mut bool) -> StatusAnd<i128> {
        let whole = to_signed(shape_of::<S>(), self.unpacked(), width as u32, round);
        *is_exact = whole.is_exact;
        // Rebuilt from its fields, as in `to_u128_r`.
        whole.answer.status.and(whole.answer.value)
    }

    #[inline(always)]
    fn to_u128_r(self, width: usize, round: Round, is_exact: &mut bool) -> StatusAnd<u128> {
        let whole = to_unsigned(shape_of::<S>(), self.unpacked(), width as u32, round);
        *is_exact = whole.is_exact;
        // Rebuilt from its fields: a struct that is returned as a whole is copied together with its padding.
        whole.answer.status.and(whole.answer.value)
    }

    #[inline]
    fn cmp_abs_normal(self, rhs: Self) -> Ordering {
        compare_magnitudes(self.unpacked(), rhs.unpacked())
    }

    #[inline]
    fn bitwise_eq(self, rhs: Self) -> bool {
        is_same(self.unpacked(), rhs.unpacked())
    }

    #[inline]
    fn is_negative(self) -> bool {
        self.unpacked().negative
    }

    #[inline]
    fn is_denormal(self) -> bool {
        is_denormal(shape_of::<S>(), self.unpacked())
    }

    #[inline]
    fn is_signaling(self) -> bool {
        is_signaling(shape_of::<S>(), self.unpacked())
    }

    #[inline]
    fn category(self) -> Category
        ensures category { result ≡ category_of self }
        ensures member { IsMember (format_of S.Flagged) self }
    {
        self.unpacked().category
    }

    #[inline]
    fn is_integer(self) -> bool {
        is_integer(shape_of::<S>(), self.unpacked())
    }

    #[inline]
    fn get_exact_inverse(self) -> Option<Self> {
        match exact_inverse(shape_of::<S>(), self.unpacked()) {
            Some(inverse) => Some(IeeeFloat::packed(inverse)),
            None => None,
        }
    }

    #[inline]
    fn ilogb(self) -> ExpInt {
        ilogb(shape_of::<S>(), self.unpacked())
    }

    #[inline]
    fn scalbn_r(self, exp: ExpInt, round: Round) -> Self {
        IeeeFloat::packed(scaled(shape_of::<S>(), self.unpacked(), exp, round))
    }

    #[inline]
    fn frexp_r(self, exp: &mut ExpInt, _round: Round) -> Self {
        let fraction = fraction_of(shape_of::<S>(), self.unpacked());
        *exp = fraction.exponent;
        IeeeFloat::packed(fraction.value)
    }

    ghost can_neg_law = { λ x. tt };

    ghost neg_law = { λ x r h. h };

    ghost can_add_law = { λ x y. tt };

    ghost add_law = { λ x y r h. h };

    ghost can_sub_law = { λ x y. tt };

    ghost sub_law = { λ x y r h. h };

    ghost can_mul_law = { λ m x y. leb-true S.PRECISION product_limit m };

    ghost mul_law = { λ x y r h. h };

    ghost can_div_law = { λ x y. tt };

    ghost div_law = { λ x y r h. h };

    ghost can_rem_law = { λ x y. tt };

    ghost rem_law = { λ x y r h. h };

    ghost can_add_assign_law = { λ x y. tt };

    ghost add_assign_law = { λ x y z h. h };

    ghost can_sub_assign_law = { λ x y. tt };

    ghost sub_assign_law = { λ x y z h. h };

    ghost can_mul_assign_law = { λ m x y. leb-true S.PRECISION product_limit m };

    ghost mul_assign_law = { λ x y z h. h };

    ghost can_div_assign_law = { λ x y. tt };

    ghost div_assign_law = { λ x y z h. h };

    ghost can_rem_assign_law = { λ x y. tt };

    ghost rem_assign_law = { λ x y z h. h };

    ghost default_law = { λ x h. h };

    ghost steps_down_law = { λ x r h.
        record { up_of_negated = r.value; is_next_up = h; is = refl } };

    ghost signed_above_law = { λ n mode r h. signed_above (format_of S.Flagged) mode n r.value
        (bits_of r.status) h };

    ghost signed_below_law = { λ n mode r p h. signed_below (format_of S.Flagged) mode n r.value
        (bits_of r.status) (largest_some (format_of S.Flagged) S.lawful.parameters.precision_low) p h };

    ghost read_law = { λ text r h. h };

    ghost to_signed_above_law = { λ x width mode number exact z h.
        to_signed_above (format_of S.Flagged) mode width x number.value (bits_of number.status)
        exact z h };

    ghost to_signed_below_law = { λ x width mode number exact answer is_exact z w h g.
        to_signed_below (format_of S.Flagged) mode width x number.value (bits_of number.status)
        exact answer.value (bits_of answer.status) is_exact z w h g };

    ghost determined = { λ mode.
        determined (format_of S.Flagged) (layout_of S.Flagged) S.PRECISION S.BITS mode
        (scale_some (constants_of S.Flagged) S.lawful)
        (lawful_interchange (constants_of S.Flagged) S.lawful) };
}
