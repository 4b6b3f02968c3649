//! The trait of floating-point types.

ghost use Rattle.std.specs.Prelude.{◌≡◌, ℕ, ℤ, pos, neg_ℤ, ◌-◌, ◌^◌, ◌<◌, ◌≤◌, Bool};
ghost use Rattle.std.specs.Prelude.{true, false, IsTrue, Option, not, if◌then◌else◌, List, Result, ◌&&◌};
ghost use Rattle.std.specs.{declared.cmp.Ordering.Ordering, Option.unwrap_or};
ghost use Rattle.apfloat_model.specs.{arithmetic.Exact.same_sign, rounding.Negation.swapped, rounding.Flags.bits_of};
ghost use Rattle.apfloat_model.specs.declared.kinds.{Category.Category, Round.Round};
ghost use Rattle.apfloat_model.specs.declared.kinds.Round.TheVariants.{NearestTiesToEven, TowardZero};
ghost use Rattle.apfloat_model.specs.declared.{parse_error.ParseError.ParseError, status.StatusAnd.StatusAnd};
ghost use Rattle.apfloat_model.specs.order.Classes.{is_nan_category, is_finite_non_zero_category};
ghost use Rattle.apfloat_model.specs.order.Predicates.{is_zero_category, is_infinite_category, is_finite_category};
ghost use Rattle.apfloat_model.specs.order.Predicates.{min_by, max_by, minimum_by, maximum_by, signed_like};
ghost use Rattle.apfloat_model.specs.{texts.Parsing.without_status, whole_numbers.SignedWholes.IsNegatedWhole};
ghost use Rattle.apfloat_base.specs.Meaning.{AreDetermined, Meaning};

use apfloat_model::{Category, ExpInt, ParseError, Round, Status, StatusAnd};
use std::cmp::Ordering;
use std::ops::{
    Add, AddAssign, Div, DivAssign, Mul, MulAssign, Neg, Rem, RemAssign, Sub, SubAssign,
};
use std::str::FromStr;

/// A floating-point type.
///
/// Its ghost member `meaning` states what its functions return: some as a value or a function, the others as a
/// relation. `IeeeFloat` sets it to the definitions of the model.
///
/// The docs below describe `IeeeFloat`; the docs of pairs of doubles say where those differ.
pub trait Float: Copy
    + Default
    + PartialEq
    + PartialOrd
    + FromStr<Err = ParseError>
    + Neg<Output = Self>
    + AddAssign
    + SubAssign
    + MulAssign
    + DivAssign
    + RemAssign
    + Add<Output = StatusAnd<Self>>
    + Sub<Output = StatusAnd<Self>>
    + Mul<Output = StatusAnd<Self>>
    + Div<Output = StatusAnd<Self>>
    + Rem<Output = StatusAnd<Self>> {
    /// The width of an encoding in bits; 0 if the type is for computing only and its values have no encoding.
    const BITS: usize;

    /// The number of binary digits in a significand, including the integer bit.
    const PRECISION: usize;

    /// The greatest exponent of a finite value, counted from its integer bit.
    const MAX_EXP: ExpInt;

    /// The least exponent of a normal value, counted from its integer bit.
    const MIN_EXP: ExpInt;

    /// Whether the type has products (`mul_r`, `*`): the exact product, of twice the precision, has to fit in a `u128`.
    const MULTIPLIES: bool;

    // The constants, for contracts.
    ghost BITS: { ℕ };

    ghost PRECISION: { ℕ };

    ghost MAX_EXP: { ℤ };

    ghost MIN_EXP: { ℤ };

    ghost MULTIPLIES: { Bool };

    // What the functions return.
    ghost meaning: { Meaning Self };

    /// +0.
    fn zero() -> Self
        ensures { result ≡ meaning.the_zero };

    /// Positive infinity; in a format without infinities, its positive NaN.
    fn infinity() -> Self
        ensures { result ≡ meaning.the_infinity };

    /// The positive quiet NaN without a payload (IEEE 754-2019 6.2).
    fn nan() -> Self
        ensures { result ≡ meaning.quiet_nan_of 0 }
    {
        Self::qnan(None)
    }

    /// The positive quiet NaN with this payload, truncated to the bits that the format has room for (IEEE 754-2019
    /// 6.2.1).
    fn qnan(payload: Option<u128>) -> Self
        ensures { result ≡ meaning.quiet_nan_of (unwrap_or payload 0) };

    /// The positive signaling NaN with this payload, truncated to the bits that the format has room for. If no bit is
    /// left set, the bit below the quiet bit is set, since a signaling NaN needs a payload; in a format with a single
    /// NaN, the result is that NaN (IEEE 754-2019 6.2.1).
    fn snan(payload: Option<u128>) -> Self
        ensures { result ≡ meaning.signaling_nan_of (unwrap_or payload 0) };

    /// The largest finite value.
    fn largest() -> Self
        ensures { result ≡ meaning.the_largest };

    /// The smallest positive value, which is denormal.
    fn smallest() -> Self
        ensures { result ≡ meaning.the_smallest };

    /// The smallest positive normal value, 2 to the power of `MIN_EXP`.
    fn smallest_normalized() -> Self
        ensures { result ≡ meaning.the_smallest_normalized };

    /// `self + rhs`, rounded once (IEEE 754-2019 5.4.1, addition).
    ///
    /// If an operand is a NaN, returns it quieted (the left one if both are); `INVALID_OP` is raised if any operand is
    /// signaling (6.2.3). Adding infinities of opposite signs is invalid (7.2): the result is the quiet NaN without a
    /// payload, with `INVALID_OP`. An exact zero has the sign of the operands if their signs are equal; otherwise it is
    /// +0, or, when rounding toward negative, -0 if the format has that zero (6.3).
    fn add_r(self, rhs: Self, round: Round) -> StatusAnd<Self>
        ensures { meaning.adds self rhs round result };

    /// `self - rhs`, rounded once (IEEE 754-2019 5.4.1, subtraction), computed as the sum of `self` and `-rhs`; so
    /// subtracting infinities of equal signs is invalid.
    ///
    /// A NaN operand is treated as in `add_r`; a NaN on the right is not negated.
    fn sub_r(self, rhs: Self, round: Round) -> StatusAnd<Self>
        ensures { meaning.subtracts self rhs round result };

    /// The product, rounded once (IEEE 754-2019 5.4.1, multiplication), for a type whose `MULTIPLIES` holds: for
    /// `IeeeFloat`, the precision must be at most `PRODUCT_LIMIT`.
    ///
    /// An infinity times a zero is invalid (7.2): the result is the quiet NaN without a payload, with `INVALID_OP`. A
    /// NaN operand is returned quieted (6.2.3).
    fn mul_r(self, rhs: Self, round: Round) -> StatusAnd<Self>
        requires { IsTrue MULTIPLIES }
        ensures { meaning.multiplies self rhs round result };

    /// The quotient, rounded once (IEEE 754-2019 5.4.1, division).
    ///
    /// A nonzero number divided by a zero gives the infinity with the sign of the quotient, or the NaN in its place,
    /// with `DIV_BY_ZERO` (7.3). Zero divided by zero and infinity divided by infinity are invalid (7.2): the result is
    /// the quiet NaN without a payload, with `INVALID_OP`. A NaN operand is returned quieted (6.2.3).
    fn div_r(self, rhs: Self, round: Round) -> StatusAnd<Self>
        ensures { meaning.divides self rhs round result };

    /// The remainder `self - rhs * n`, where `n` is the integer nearest to the quotient, ties to even (IEEE 754-2019
    /// 5.3.1, remainder). It is exact.
    ///
    /// A zero remainder has the sign of `self` if the format has that zero, and an infinite `rhs` leaves a finite value
    /// unchanged. The remainder of an infinity and the remainder by a zero are invalid (7.2): the result is the quiet
    /// NaN without a payload, with `INVALID_OP`. A NaN operand is returned quieted (6.2.3).
    fn ieee_rem(self, rhs: Self) -> StatusAnd<Self>
        ensures { meaning.leaves_nearest self rhs result };

    /// The remainder `self - rhs * t`, where `t` is the quotient truncated toward zero, as in C's `fmod`. It is exact,
    /// and has the sign of `self`.
    ///
    /// Zeros, infinities and NaNs are treated as in `ieee_rem`.
    fn c_fmod(self, rhs: Self) -> StatusAnd<Self>
        ensures { meaning.leaves self rhs result };

    /// The value rounded to an integral value of the same type, with its sign (IEEE 754-2019 5.9,
    /// roundToIntegralExact). `INEXACT` is raised if the result differs from the value. Infinities and zeros are
    /// unchanged; a NaN is quieted, with `INVALID_OP` if it was signaling.
    fn round_to_integral(self, round: Round) -> StatusAnd<Self>
        ensures { meaning.rounds_to_integral self round result };

    /// The least value that compares greater (IEEE 754-2019 5.3.1, nextUp), always exact. The value after the largest
    /// is the infinity, or the NaN in its place. Positive infinity and quiet NaNs are unchanged; for a signaling NaN,
    /// the result is the quiet NaN of its sign without a payload, with `INVALID_OP`.
    fn next_up(self) -> StatusAnd<Self>
        ensures { meaning.steps_up self result };

    /// The greatest value that compares less (IEEE 754-2019 5.3.1, nextDown), computed as the negation of `next_up` of
    /// the negated value.
    final fn next_down(self) -> StatusAnd<Self>
        ensures { meaning.steps_down self result }
    {
        (-self).next_up().map(|value| -value)
    }

    /// The value without its sign (IEEE 754-2019 5.5.1, abs). A NaN loses its sign too, and no flag is raised.
    fn abs(self) -> Self
        ensures { result ≡ (if meaning.sign_of self then meaning.negated self else self) }
    {
        if self.is_negative() { -self } else { self }
    }

    /// The value with the sign of `rhs` (IEEE 754-2019 5.5.1, copySign). Either may be a NaN; no flag is raised.
    final fn copy_sign(self, rhs: Self) -> Self
        ensures { result
            ≡ (if not (same_sign (meaning.sign_of self) (meaning.sign_of rhs))
            then meaning.negated self else self) }
    {
        if self.is_negative() != rhs.is_negative() {
            -self
        } else {
            self
        }
    }

    /// The value whose encoding is `bits` (IEEE 754-2019 3.4), for a type with bits, with `PRECISION` below `BITS`.
    /// Bits at and above `BITS` are ignored.
    fn from_bits(bits: u128) -> Self
        requires { PRECISION < BITS }
        ensures { result ≡ meaning.value_of_bits bits };

    /// The value of a signed integer, rounded once (IEEE 754-2019 5.4.1, convertFromInt).
    final fn from_i128_r(input: i128, round: Round) -> StatusAnd<Self>
        ensures { meaning.converts_signed input round result }
    {
        if input < 0 {
            Self::from_u128_r(input.unsigned_abs(), -round).map(|value| -value)
        } else {
            Self::from_u128_r(input as u128, round)
        }
    }

    /// The value of a signed integer, rounded once to the nearest value, ties to even.
    final fn from_i128(input: i128) -> StatusAnd<Self>
        ensures { meaning.converts_signed input NearestTiesToEven result }
    {
        Self::from_i128_r(input, Round::NearestTiesToEven)
    }

    /// The value of an unsigned integer, rounded once (IEEE 754-2019 5.4.1, convertFromInt).
    fn from_u128_r(input: u128, round: Round) -> StatusAnd<Self>
        ensures { meaning.converts_unsigned input round result };

    /// The value of an unsigned integer, rounded once to the nearest value, ties to even.
    final fn from_u128(input: u128) -> StatusAnd<Self>
        ensures { meaning.converts_unsigned input NearestTiesToEven result }
    {
        Self::from_u128_r(input, Round::NearestTiesToEven)
    }

    /// The value of a text, rounded once, or an error for a malformed text (IEEE 754-2019 5.12,
    /// convertFromHexCharacter).
    ///
    /// A text is an optional sign followed by one of: an infinity, `inf`, `Inf` or `INFINITY`; a NaN, `nan` or `NaN`,
    /// preceded by an `s` if it is signaling, with an optional payload after it, plain or in parentheses; or a
    /// hexadecimal number such as `-0x1.8p-1`, of any length and with any exponent. Decimal numbers are refused.
    fn from_str_r(s: &str, round: Round) -> Result<StatusAnd<Self>, ParseError>
        ensures { meaning.reads s.now round result };

    /// The bits of the canonical encoding of the value (IEEE 754-2019 3.4), for a type with bits, with `PRECISION`
    /// below `BITS`. `from_bits` of them returns the value.
    fn to_bits(self) -> u128
        requires { PRECISION < BITS }
        ensures written { meaning.writes_bits self result }
        ensures below { result < 2 ^ BITS }
        ensures back { meaning.value_of_bits result ≡ self };

    /// The value rounded to a signed integer of `width` bits, 2 to 128, in two's complement (IEEE 754-2019 5.4.1,
    /// convertToInteger).
    ///
    /// A value out of range, infinities included, gives the nearer end of the range, and a NaN gives 0, each with
    /// `INVALID_OP`. `INEXACT` is raised if a value in range is not an integer. `is_exact` says whether the integer
    /// equals the value; for -0 it is false.
    fn to_i128_r(self, width: usize, round: Round, is_exact: &mut bool) -> StatusAnd<i128>
        requires low { 2 ≤ width }
        requires high { width ≤ 128 }
        ensures { meaning.converts_to_signed self width round result is_exact.new }
    {
        let answer = if self.is_negative() {
            let is_zero = self.is_zero();
            let magnitude = (-self).to_u128_r(width, -round, is_exact);
            negated_whole(width, magnitude, is_zero, is_exact)
        } else {
            let magnitude = self.to_u128_r(width - 1, round, is_exact);
            magnitude.status.and(signed(width - 1, magnitude.value))
        };
        // Rebuilt from its fields: a struct that leaves a branch as a whole is copied together with its padding.
        answer.status.and(answer.value)
    }

    /// The value as a signed integer of `width` bits, 2 to 128, in two's complement, truncated toward zero.
    final fn to_i128(self, width: usize) -> StatusAnd<i128>
        requires low { 2 ≤ width }
        requires high { width ≤ 128 }
        ensures { (exact : Bool) × meaning.converts_to_signed self width TowardZero result exact }
    {
        let mut is_exact = true;
        self.to_i128_r(width, Round::TowardZero, &mut is_exact)
    }

    /// The value rounded to an unsigned integer of `width` bits, 1 to 128 (IEEE 754-2019 5.4.1, convertToInteger).
    ///
    /// A value out of range, infinities included, gives the nearer end of the range, and a NaN gives 0, each with
    /// `INVALID_OP`. `INEXACT` is raised if a value in range is not an integer. `is_exact` says whether the integer
    /// equals the value; for -0 it is false.
    fn to_u128_r(self, width: usize, round: Round, is_exact: &mut bool) -> StatusAnd<u128>
        requires low { 1 ≤ width }
        requires high { width ≤ 128 }
        ensures answer { meaning.converts_to_unsigned self width round result is_exact.new }
        ensures fits { result.value < 2 ^ width };

    /// The value as an unsigned integer of `width` bits, 1 to 128, truncated toward zero.
    final fn to_u128(self, width: usize) -> StatusAnd<u128>
        requires low { 1 ≤ width }
        requires high { width ≤ 128 }
        ensures answer { (exact : Bool)
            × meaning.converts_to_unsigned self width TowardZero result exact }
        ensures fits { result.value < 2 ^ width }
    {
        let mut is_exact = true;
        self.to_u128_r(width, Round::TowardZero, &mut is_exact)
    }

    /// The order of the magnitudes of two values for which `can_compare_magnitudes` holds. For `IeeeFloat` these are
    /// the nonzero finite values.
    fn cmp_abs_normal(self, rhs: Self) -> Ordering
        requires { meaning.can_compare_magnitudes self rhs }
        ensures { result ≡ meaning.magnitude_order self rhs };

    /// Whether the values are identical: the same category, the same sign and the same number, or for NaNs the same
    /// significand. So a NaN is identical to itself, and -0 is not identical to +0.
    fn bitwise_eq(self, rhs: Self) -> bool
        ensures { result ≡ meaning.same self rhs };

    /// The lesser value (minNum of IEEE 754-2008 5.3.1, but a signaling NaN counts as a quiet one). If one operand is a
    /// NaN, returns the other; if neither is less, returns `self`.
    final fn min(self, other: Self) -> Self
        ensures { result ≡ min_by meaning.category_of Self.partial_cmp self other }
    {
        if self.is_nan() {
            other
        } else if other.is_nan() {
            self
        } else if other < self {
            other
        } else {
            self
        }
    }

    /// The greater value (maxNum of IEEE 754-2008 5.3.1, but a signaling NaN counts as a quiet one). If one operand is
    /// a NaN, returns the other; if neither is greater, returns `self`.
    final fn max(self, other: Self) -> Self
        ensures { result ≡ max_by meaning.category_of Self.partial_cmp self other }
    {
        if self.is_nan() {
            other
        } else if other.is_nan() {
            self
        } else if self < other {
            other
        } else {
            self
        }
    }

    /// The lesser value; -0 is below +0. This is minimum of IEEE 754-2019 9.6, except that the first NaN is returned
    /// unchanged, even a signaling one.
    final fn minimum(self, other: Self) -> Self
        ensures { result
            ≡ minimum_by meaning.category_of meaning.sign_of Self.partial_cmp self other }
    {
        if self.is_nan() {
            self
        } else if other.is_nan() {
            other
        } else if self.is_zero() && other.is_zero() && self.is_negative() != other.is_negative() {
            if self.is_negative() { self } else { other }
        } else {
            self.min(other)
        }
    }

    /// The greater value; -0 is below +0. This is maximum of IEEE 754-2019 9.6, except that the first NaN is returned
    /// unchanged, even a signaling one.
    final fn maximum(self, other: Self) -> Self
        ensures { result
            ≡ maximum_by meaning.category_of meaning.sign_of Self.partial_cmp self other }
    {
        if self.is_nan() {
            self
        } else if other.is_nan() {
            other
        } else if self.is_zero() && other.is_zero() && self.is_negative() != other.is_negative() {
            if self.is_negative() { other } else { self }
        } else {
            self.max(other)
        }
    }

    /// Whether the sign is minus, for zeros and NaNs too (IEEE 754-2019 5.7.2, isSignMinus).
    fn is_negative(self) -> bool
        ensures { result ≡ meaning.sign_of self };

    /// Whether the value is finite, nonzero and not denormal (IEEE 754-2019 5.7.2, isNormal).
    final fn is_normal(self) -> bool
        ensures { result ≡ (is_finite_non_zero_category (meaning.category_of self)
            && not (meaning.denormal self)) }
    {
        self.is_finite_non_zero() && !self.is_denormal()
    }

    /// Whether the value is finite (IEEE 754-2019 5.7.2, isFinite).
    fn is_finite(self) -> bool
        ensures { result ≡ is_finite_category (meaning.category_of self) }
    {
        !self.is_nan() && !self.is_infinite()
    }

    /// Whether the value is +0 or -0 (IEEE 754-2019 5.7.2, isZero).
    fn is_zero(self) -> bool
        ensures { result ≡ is_zero_category (meaning.category_of self) }
    {
        self.category() == Category::Zero
    }

    /// Whether the value is nonzero and smaller in magnitude than the smallest normal value (IEEE 754-2019 5.7.2,
    /// isSubnormal).
    fn is_denormal(self) -> bool
        ensures { result ≡ meaning.denormal self };

    /// Whether the value is an infinity (IEEE 754-2019 5.7.2, isInfinite).
    fn is_infinite(self) -> bool
        ensures { result ≡ is_infinite_category (meaning.category_of self) }
    {
        self.category() == Category::Infinity
    }

    /// Whether the value is a NaN, quiet or signaling (IEEE 754-2019 5.7.2, isNaN).
    fn is_nan(self) -> bool
        ensures { result ≡ is_nan_category (meaning.category_of self) }
    {
        self.category() == Category::NaN
    }

    /// Whether the value is a signaling NaN (IEEE 754-2019 5.7.2, isSignaling). Never true in a format with a single
    /// NaN.
    fn is_signaling(self) -> bool
        ensures { result ≡ meaning.signals self };

    /// The category of the value.
    fn category(self) -> Category
        ensures { result ≡ meaning.category_of self };

    /// Whether the value is neither +0 nor -0; true for a NaN.
    final fn is_non_zero(self) -> bool
        ensures { result ≡ not (is_zero_category (meaning.category_of self)) }
    {
        !self.is_zero()
    }

    /// Whether the value is a nonzero number.
    fn is_finite_non_zero(self) -> bool
        ensures { result ≡ is_finite_non_zero_category (meaning.category_of self) }
    {
        match self.category() {
            Category::Normal => true,
            Category::Zero => false,
            Category::Infinity => false,
            Category::NaN => false,
        }
    }

    /// Whether the value is +0.
    final fn is_pos_zero(self) -> bool
        ensures { result
            ≡ (is_zero_category (meaning.category_of self) && not (meaning.sign_of self)) }
    {
        self.is_zero() && !self.is_negative()
    }

    /// Whether the value is -0.
    final fn is_neg_zero(self) -> bool
        ensures { result ≡ (is_zero_category (meaning.category_of self) && meaning.sign_of self) }
    {
        self.is_zero() && self.is_negative()
    }

    /// Whether the value is positive infinity.
    final fn is_pos_infinity(self) -> bool
        ensures { result
            ≡ (is_infinite_category (meaning.category_of self) && not (meaning.sign_of self)) }
    {
        self.is_infinite() && !self.is_negative()
    }

    /// Whether the value is negative infinity.
    final fn is_neg_infinity(self) -> bool
        ensures { result
            ≡ (is_infinite_category (meaning.category_of self) && meaning.sign_of self) }
    {
        self.is_infinite() && self.is_negative()
    }

    /// Whether the magnitude is one quantum, the smallest nonzero one.
    final fn is_smallest(self) -> bool
        ensures { result ≡ meaning.same self
            (signed_like meaning.sign_of meaning.negated meaning.the_smallest self) }
    {
        self.bitwise_eq(Self::smallest().copy_sign(self))
    }

    /// Whether the magnitude is that of the smallest normal value.
    final fn is_smallest_normalized(self) -> bool
        ensures { result ≡ meaning.same self
            (signed_like meaning.sign_of meaning.negated meaning.the_smallest_normalized self) }
    {
        self.bitwise_eq(Self::smallest_normalized().copy_sign(self))
    }

    /// Whether the magnitude is that of the largest finite value.
    final fn is_largest(self) -> bool
        ensures { result ≡ meaning.same self
            (signed_like meaning.sign_of meaning.negated meaning.the_largest self) }
    {
        self.bitwise_eq(Self::largest().copy_sign(self))
    }

    /// Whether the value is finite and an integer; true for zeros.
    fn is_integer(self) -> bool
        ensures { result ≡ meaning.is_whole self };

    /// The inverse of a power of two of either sign, if the type has the inverse and neither value is denormal;
    /// otherwise `None`.
    fn get_exact_inverse(self) -> Option<Self>
        ensures { meaning.inverts self result };

    /// The exponent of the highest binary digit, for denormal values too (IEEE 754-2019 5.3.3, logB): the floor of the
    /// binary logarithm of the magnitude. For a zero, an infinity or a NaN it is `IEK_ZERO`, `IEK_INF` or `IEK_NAN`.
    fn ilogb(self) -> ExpInt
        ensures { meaning.has_exponent self result };

    /// The value times 2 to the power of `exp`, rounded once (IEEE 754-2019 5.3.3, scaleB). Infinities and zeros are
    /// unchanged, and a NaN is quieted. No status is returned.
    fn scalbn_r(self, exp: ExpInt, round: Round) -> Self
        ensures { meaning.scales self exp round result };

    /// The value times 2 to the power of `exp`, rounded once to the nearest value, ties to even.
    fn scalbn(self, exp: ExpInt) -> Self
        ensures { meaning.scales self exp NearestTiesToEven result }
    {
        self.scalbn_r(exp, Round::NearestTiesToEven)
    }

    /// The fraction of the value, with magnitude from 0.5 to below 1, and its exponent in `exp`: the value is exactly
    /// the fraction times 2 to the power of `exp`, which is one more than `ilogb`. For a zero, the result is that zero,
    /// with exponent 0; for an infinity, that infinity, with `IEK_INF`; for a NaN, the quieted NaN, with `IEK_NAN`.
    fn frexp_r(self, exp: &mut ExpInt, round: Round) -> Self
        ensures { meaning.has_fraction self round result exp.new };

    /// The fraction of the value and its exponent, one more than `ilogb`, rounding to nearest, ties to even.
    final fn frexp(self, exp: &mut ExpInt) -> Self
        ensures { meaning.has_fraction self NearestTiesToEven result exp.new }
    {
        self.frexp_r(exp, Round::NearestTiesToEven)
    }

    // `-x` is the negated value.

    ghost can_neg_law: { (x : Self) → Self.can_neg x };

    ghost neg_law: { (x r : Self) → Self.neg_gives x r → r ≡ meaning.negated x };

    // The binary operators are the calls, rounded to nearest, ties to even; a remainder is exact.

    ghost can_add_law: { (x y : Self) → Self.can_add x y };

    ghost add_law: { (x y : Self) (r : StatusAnd Self) → Self.add_gives x y r
        → meaning.adds x y NearestTiesToEven r };

    ghost can_sub_law: { (x y : Self) → Self.can_sub x y };

    ghost sub_law: { (x y : Self) (r : StatusAnd Self) → Self.sub_gives x y r
        → meaning.subtracts x y NearestTiesToEven r };

    ghost can_mul_law: { IsTrue MULTIPLIES → (x y : Self) → Self.can_mul x y };

    ghost mul_law: { (x y : Self) (r : StatusAnd Self) → Self.mul_gives x y r
        → meaning.multiplies x y NearestTiesToEven r };

    ghost can_div_law: { (x y : Self) → Self.can_div x y };

    ghost div_law: { (x y : Self) (r : StatusAnd Self) → Self.div_gives x y r
        → meaning.divides x y NearestTiesToEven r };

    ghost can_rem_law: { (x y : Self) → Self.can_rem x y };

    ghost rem_law: { (x y : Self) (r : StatusAnd Self) → Self.rem_gives x y r
        → meaning.leaves x y r };

    // The assigning operators store the value of that result and discard its status.

    ghost can_add_assign_law: { (x y : Self) → Self.can_add_assign x y };

    ghost add_assign_law: { (x y z : Self) → Self.add_assign_gives x y z
        → (r : StatusAnd Self) × meaning.adds x y NearestTiesToEven r × (z ≡ r.value) };

    ghost can_sub_assign_law: { (x y : Self) → Self.can_sub_assign x y };

    ghost sub_assign_law: { (x y z : Self) → Self.sub_assign_gives x y z
        → (r : StatusAnd Self) × meaning.subtracts x y NearestTiesToEven r × (z ≡ r.value) };

    ghost can_mul_assign_law: { IsTrue MULTIPLIES → (x y : Self) → Self.can_mul_assign x y };

    ghost mul_assign_law: { (x y z : Self) → Self.mul_assign_gives x y z
        → (r : StatusAnd Self) × meaning.multiplies x y NearestTiesToEven r × (z ≡ r.value) };

    ghost can_div_assign_law: { (x y : Self) → Self.can_div_assign x y };

    ghost div_assign_law: { (x y z : Self) → Self.div_assign_gives x y z
        → (r : StatusAnd Self) × meaning.divides x y NearestTiesToEven r × (z ≡ r.value) };

    ghost can_rem_assign_law: { (x y : Self) → Self.can_rem_assign x y };

    ghost rem_assign_law: { (x y z : Self) → Self.rem_assign_gives x y z
        → (r : StatusAnd Self) × meaning.leaves x y r × (z ≡ r.value) };

    // The default is +0.

    ghost default_law: { (x : Self) → Self.is_default x → x ≡ meaning.the_zero };

    // The next value down is the negated next value up of the negated value.

    ghost steps_down_law: { (x : Self) (r : StatusAnd Self) → meaning.steps_up (meaning.negated x) r
        → meaning.steps_down x (record { status = r.status; value = meaning.negated r.value }) };

    // A signed integer is converted from its magnitude, which is rounded in the opposite mode if the integer is
    // negative.

    ghost signed_above_law: { (n : ℕ) (mode : Round) (r : StatusAnd Self)
        → meaning.converts_unsigned n mode r → meaning.converts_signed (pos n) mode r };

    ghost signed_below_law: { (n : ℕ) (mode : Round) (r : StatusAnd Self) → 0 < n
        → meaning.converts_unsigned n (swapped mode) r
        → meaning.converts_signed (neg_ℤ (pos n)) mode
        (record { status = r.status; value = meaning.negated r.value }) };

    // `FromStr` rounds to the nearest value and discards the status.

    ghost read_law: { (text : List ℕ) (r : Result Self ParseError) → Self.from_str_gives text r
        → (answer : Result (StatusAnd Self) ParseError)
        × meaning.reads text NearestTiesToEven answer × (r ≡ without_status answer) };

    // A value is converted to a signed integer from the unsigned integer of its magnitude.

    ghost to_signed_above_law: { (x : Self) (width : ℕ) (mode : Round) (number : StatusAnd ℕ)
        (exact : Bool) → meaning.sign_of x ≡ false
        → meaning.converts_to_unsigned x (width - 1) mode number exact
        → meaning.converts_to_signed x width mode
        (record { status = number.status; value = pos number.value }) exact };

    ghost to_signed_below_law: { (x : Self) (width : ℕ) (mode : Round) (number : StatusAnd ℕ)
        (exact : Bool) (answer : StatusAnd ℤ) (is_exact : Bool) → meaning.sign_of x ≡ true
        → 2 ≤ width
        → meaning.converts_to_unsigned (meaning.negated x) width (swapped mode) number exact
        → IsNegatedWhole (is_zero_category (meaning.category_of x)) width number.value
        (bits_of number.status) exact answer.value (bits_of answer.status) is_exact
        → meaning.converts_to_signed x width mode answer is_exact };

    // Each relation determines its result, so an operator and the corresponding call have the same result. The facts
    // are given for one mode, so that the search does not try all of them in proofs that do not cite them.

    ghost determined: { (mode : Round) → AreDetermined meaning mode PRECISION BITS };
}

/// The signed integer with the magnitude of an unsigned one of `width` bits.
#[inline]
fn signed(width: usize, magnitude: u128) -> i128
    requires narrow { width ≤ 127 }
    requires fits { magnitude < 2 ^ width }
    ensures { result ≡ pos magnitude }
{
    magnitude as i128
}

/// The negation of an integer of at most 2 to the power of 127.
#[inline]
fn minus(magnitude: u128) -> i128
    requires { magnitude ≤ 2 ^ 127 }
    ensures { result ≡ neg_ℤ (pos magnitude) }
{
    if magnitude == 1 << 127 {
        i128::MIN
    } else {
        -(magnitude as i128)
    }
}

/// The signed integer for a value with a minus sign, from the unsigned integer of its magnitude.
#[inline]
fn negated_whole(
    width: usize,
    magnitude: StatusAnd<u128>,
    is_zero: bool,
    is_exact: &mut bool,
) -> StatusAnd<i128>
    requires low { 2 ≤ width }
    requires high { width ≤ 128 }
    ensures { IsNegatedWhole is_zero width magnitude.value (bits_of magnitude.status) is_exact.old
        result.value (bits_of result.status) is_exact.new }
{
    if is_zero {
        *is_exact = false;
    }
    let limit = 1u128 << (width - 1);
    if magnitude.value > limit {
        *is_exact = false;
        Status::INVALID_OP.and(minus(limit))
    } else {
        magnitude.status.and(minus(magnitude.value))
    }
}
