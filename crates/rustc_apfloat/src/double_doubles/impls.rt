//! `Float` for pairs of doubles, `Default` and `FromStr`.

ghost use Rattle.std.specs.Prelude.{◌≡◌, ◌^◌, ◌<◌, pos, negsuc, true, List, ℕ, Result, refl};
ghost use Rattle.apfloat_model.specs.declared.kinds.Round.TheVariants.{NearestTiesToEven};
ghost use Rattle.apfloat_model.specs.declared.{parse_error.ParseError.ParseError, status.StatusAnd.StatusAnd};
ghost use Rattle.apfloat_model.specs.rounding.Flags.{Gives, bits_of};
ghost use Rattle.apfloat_model.specs.{formats.Members.IsMember, texts.Parsing.without_status};
ghost use Rattle.apfloat_pair_theory.specs.{PairFormats.double, Pairs.Pair, Pairs.pair_category, PairSums.IsPairSum};
ghost use Rattle.apfloat_pair_theory.specs.{PairSums.IsPairDifference, PairProducts.IsPairProduct, PairParts.pair_zero};
ghost use Rattle.apfloat_pair_theory.specs.PairAccuracy.{HasPlainStatus, IsAccurateDifference, IsAccurateProduct};
ghost use Rattle.apfloat_pair_theory.specs.PairAccuracy.{IsAccurateSum, IsErrorFreeDifference, IsErrorFreeProduct};
ghost use Rattle.apfloat_pair_theory.specs.PairAccuracy.{IsErrorFreeSum, IsExactNearestRemainder, IsExactQuotient};
ghost use Rattle.apfloat_pair_theory.specs.{PairAccuracy.IsExactTruncatedRemainder, PairCalls.IsPairNearestRemainder};
ghost use Rattle.apfloat_pair_theory.specs.PairCalls.{IsPairQuotient, IsPairRead, IsPairTruncatedRemainder};
ghost use Rattle.apfloat_pair_theory.proofs.calls.PairsDetermined.{pairs_determined};
ghost use Rattle.apfloat_pair_theory.proofs.calls.SignedPairs.{pair_signed_above, pair_signed_below};
ghost use Rattle.apfloat_pair_theory.proofs.calls.SignedPairs.{pair_to_signed_above, pair_to_signed_below};
ghost use Rattle.rustc_apfloat.specs.double_doubles.PairMeaning.{pair_meaning};

use crate::double_doubles::order::compare_magnitudes;
use crate::double_doubles::products::product;
use crate::double_doubles::sums::{difference, sum};
use crate::double_doubles::{DoubleFloat, parts, wide};
use apfloat_base::{Category, ExpInt, Float, ParseError, Round, StatusAnd};
use apfloat_ieee::built_in_formats::Double;
use std::cmp::Ordering;
use std::str::FromStr;

impl Default for DoubleFloat {
    ghost is_default = { λ x. x ≡ pair_zero };

    /// +0, in both parts.
    fn default() -> DoubleFloat {
        DoubleFloat::alone(Double::zero())
    }
}

impl FromStr for DoubleFloat {
    type Err = ParseError;

    ghost from_str_gives = { λ text r. (answer : Result (StatusAnd Pair) ParseError)
        × IsPairRead NearestTiesToEven text answer × (r ≡ without_status answer) };

    /// Reads a text as `from_str_r` does, rounding to the nearest value, ties to even; the status is discarded.
    fn from_str(s: &str) -> Result<DoubleFloat, ParseError> {
        match wide::read(s, Round::NearestTiesToEven) {
            Ok(answer) => Ok(answer.value),
            Err(error) => Err(error),
        }
    }
}

impl Float for DoubleFloat {
    const BITS: usize = 128;

    const PRECISION: usize = 106;

    const MAX_EXP: ExpInt = 1023;

    const MIN_EXP: ExpInt = -969;

    const MULTIPLIES: bool = true;

    ghost BITS = { 128 };

    ghost PRECISION = { 106 };

    ghost MAX_EXP = { pos 1023 };

    ghost MIN_EXP = { negsuc 968 };

    ghost MULTIPLIES = { true };

    ghost meaning = { pair_meaning };

    #[inline]
    fn zero() -> Self {
        DoubleFloat::alone(Double::zero())
    }

    #[inline]
    fn infinity() -> Self {
        DoubleFloat::alone(Double::infinity())
    }

    #[inline]
    fn qnan(payload: Option<u128>) -> Self {
        DoubleFloat::alone(Double::qnan(payload))
    }

    #[inline]
    fn snan(payload: Option<u128>) -> Self {
        DoubleFloat::alone(Double::snan(payload))
    }

    #[inline]
    fn largest() -> Self {
        parts::largest()
    }

    #[inline]
    fn smallest() -> Self {
        DoubleFloat::alone(Double::smallest())
    }

    #[inline]
    fn smallest_normalized() -> Self {
        parts::smallest_normalized()
    }

    /// A chain of sums of doubles in the mode, whose flags are joined. So INEXACT may be raised for an exact result,
    /// and the status may be OK for an inexact one.
    ///
    /// Rounding to nearest, ties to even, with high parts of at most 2^1022: the sum of two doubles is exact, and that
    /// of normalized pairs is normalized, with an error of at most 2^-103 of the sum of both magnitudes.
    ///
    /// An infinity or a NaN is returned unchanged, even a signaling NaN; adding infinities of opposite signs is
    /// invalid.
    #[inline]
    fn add_r(self, rhs: Self, round: Round) -> StatusAnd<Self>
        ensures sum { Gives (IsPairSum round self rhs) result }
        ensures error_free { round ≡ NearestTiesToEven → IsErrorFreeSum self rhs result.value }
        ensures accurate { round ≡ NearestTiesToEven → IsAccurateSum self rhs result.value }
        ensures plain { round ≡ NearestTiesToEven
            → HasPlainStatus self rhs (bits_of result.status) }
    {
        sum(self, rhs, round)
    }

    /// The sum with the negation of `rhs`, even if that is a NaN; with the accuracy of that sum.
    #[inline]
    fn sub_r(self, rhs: Self, round: Round) -> StatusAnd<Self>
        ensures difference { Gives (IsPairDifference round self rhs) result }
        ensures error_free { round ≡ NearestTiesToEven
            → IsErrorFreeDifference self rhs result.value }
        ensures accurate { round ≡ NearestTiesToEven
            → IsAccurateDifference self rhs result.value }
        ensures plain { round ≡ NearestTiesToEven
            → HasPlainStatus self rhs (bits_of result.status) }
    {
        difference(self, rhs, round)
    }

    /// A chain of operations on doubles in the mode, whose flags are joined. The product of the low parts is left out.
    ///
    /// Rounding to nearest, ties to even: the product of two doubles is exact if their exponents add up to -970 to
    /// 1021; that of normalized pairs, if the exponents of the high parts add up to -900 to 1021, is normalized, with
    /// an error of at most 2^-102 of the exact product.
    ///
    /// A zero times an infinity is the NaN without a payload, with no flag; a NaN is returned unchanged.
    #[inline]
    fn mul_r(self, rhs: Self, round: Round) -> StatusAnd<Self>
        ensures product { Gives (IsPairProduct round self rhs) result }
        ensures error_free { round ≡ NearestTiesToEven → IsErrorFreeProduct self rhs result.value }
        ensures accurate { round ≡ NearestTiesToEven → IsAccurateProduct self rhs result.value }
    {
        product(self, rhs, round)
    }

    /// The quotient in the wide format, split: if the high part is finite, the parts add up to that quotient exactly.
    #[inline]
    fn div_r(self, rhs: Self, round: Round) -> StatusAnd<Self>
        ensures quotient { Gives (IsPairQuotient round self rhs) result }
        ensures exact { Gives (IsExactQuotient round self rhs) result }
    {
        wide::quotient(self, rhs, round)
    }

    /// The remainder by the integer nearest to the quotient, in the wide format, split.
    #[inline]
    fn ieee_rem(self, rhs: Self) -> StatusAnd<Self>
        ensures remainder { Gives (IsPairNearestRemainder self rhs) result }
        ensures exact { Gives (IsExactNearestRemainder self rhs) result }
    {
        wide::nearest(self, rhs)
    }

    /// The remainder by the quotient truncated toward zero, in the wide format, split.
    #[inline]
    fn c_fmod(self, rhs: Self) -> StatusAnd<Self>
        ensures remainder { Gives (IsPairTruncatedRemainder self rhs) result }
        ensures exact { Gives (IsExactTruncatedRemainder self rhs) result }
    {
        wide::truncated(self, rhs)
    }

    #[inline]
    fn round_to_integral(self, round: Round) -> StatusAnd<Self> {
        wide::round_to_integral(self, round)
    }

    #[inline]
    fn next_up(self) -> StatusAnd<Self> {
        wide::next_up(self)
    }

    #[inline]
    fn from_bits(bits: u128) -> Self {
        parts::of_bits(bits)
    }

    #[inline]
    fn from_u128_r(input: u128, round: Round) -> StatusAnd<Self> {
        wide::from_unsigned(input, round)
    }

    #[inline]
    fn from_str_r(s: &str, round: Round) -> Result<StatusAnd<Self>, ParseError> {
        wide::read(s, round)
    }

    #[inline]
    fn to_bits(self) -> u128 {
        parts::bits_of(self)
    }

    #[inline]
    fn to_u128_r(self, width: usize, round: Round, is_exact: &mut bool) -> StatusAnd<u128> {
        wide::to_unsigned(self, width, round, is_exact)
    }

    #[inline]
    fn cmp_abs_normal(self, rhs: Self) -> Ordering {
        compare_magnitudes(self, rhs)
    }

    #[inline]
    fn bitwise_eq(self, rhs: Self) -> bool {
        parts::is_same(self, rhs)
    }

    #[inline]
    fn is_negative(self) -> bool {
        self.0.is_negative()
    }

    #[inline]
    fn is_denormal(self) -> bool {
        parts::is_denormal(self)
    }

    #[inline]
    fn is_signaling(self) -> bool {
        self.0.is_signaling()
    }

    #[inline]
    fn category(self) -> Category
        ensures category { result ≡ pair_category self }
        ensures high { IsMember double self.high }
        ensures low { IsMember double self.low }
    {
        parts::category(self)
    }

    #[inline]
    fn is_integer(self) -> bool {
        parts::is_integer(self)
    }

    #[inline]
    fn get_exact_inverse(self) -> Option<Self> {
        wide::exact_inverse(self)
    }

    #[inline]
    fn ilogb(self) -> ExpInt {
        self.0.ilogb()
    }

    #[inline]
    fn scalbn_r(self, exp: ExpInt, round: Round) -> Self {
        parts::scaled(self, exp, round)
    }

    #[inline]
    fn frexp_r(self, exp: &mut ExpInt, round: Round) -> Self {
        parts::fraction(self, exp, round)
    }

    ghost can_neg_law = { λ x. tt };

    ghost neg_law = { λ x r h. h };

    ghost can_add_law = { λ x y. tt };

    ghost add_law = { λ x y r h. h };

    ghost can_sub_law = { λ x y. tt };

    ghost sub_law = { λ x y r h. h };

    ghost can_mul_law = { λ m x y. tt };

    ghost mul_law = { λ x y r h. h };

    ghost can_div_law = { λ x y. tt };

    ghost div_law = { λ x y r h. h };

    ghost can_rem_law = { λ x y. tt };

    ghost rem_law = { λ x y r h. h };

    ghost can_add_assign_law = { λ x y. tt };

    ghost add_assign_law = { λ x y z h. h };

    ghost can_sub_assign_law = { λ x y. tt };

    ghost sub_assign_law = { λ x y z h. h };

    ghost can_mul_assign_law = { λ m x y. tt };

    ghost mul_assign_law = { λ x y z h. h };

    ghost can_div_assign_law = { λ x y. tt };

    ghost div_assign_law = { λ x y z h. h };

    ghost can_rem_assign_law = { λ x y. tt };

    ghost rem_assign_law = { λ x y z h. h };

    ghost default_law = { λ x h. h };

    ghost steps_down_law = { λ x r h.
        record { up_of_negated = r.value; is_next_up = h; is = refl } };

    ghost signed_above_law = { λ n mode r h. pair_signed_above mode n r.value (bits_of r.status)
        h };

    ghost signed_below_law = { λ n mode r p h. pair_signed_below mode n r.value (bits_of r.status)
        p h };

    ghost read_law = { λ text r h. h };

    ghost to_signed_above_law = { λ x width mode number exact z h.
        pair_to_signed_above mode width x number.value (bits_of number.status) exact z h };

    ghost to_signed_below_law = { λ x width mode number exact answer is_exact z w h g.
        pair_to_signed_below mode width x number.value (bits_of number.status) exact answer.value
        (bits_of answer.status) is_exact z h g };

    ghost determined = { pairs_determined };
}
