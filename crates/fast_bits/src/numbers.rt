//! Normal numbers, read from their encodings.

ghost use Rattle.std.specs.Prelude.{◌≡◌, ◌+◌, ◌-◌, ◌%◌, ◌^◌, ◌<◌, ◌≤◌, false, not, if◌then◌else◌, IsTrue, IfSome};
ghost use Rattle.apfloat_model.specs.bits.Layout.{fields_of};
ghost use Rattle.apfloat_ieee.specs.FlaggedTypes.{constants_of, format_of, layout_of};
ghost use Rattle.fast_bits.specs.{Encoded.value_in, Numbers.AreOrderedNumbers, Numbers.FitsWord, Numbers.IsNumberOf};
ghost use mathlib.Core.Bool.{beq};

use apfloat_ieee::Flagged;
use apfloat_words::low_digits;

/// `significand * 2^place` quanta with a sign. The significand has all digits of the format.
#[derive(Clone, Copy)]
pub(crate) struct Number {
    pub negative: bool,
    pub place: u32,
    pub significand: u64,
}

/// Whether the encodings of the format fit in a word, with an implied integer bit, and its significands leave room for
/// the digits that a result is rounded by.
#[inline(always)]
pub fn fits_word<S: Flagged>() -> bool
    ensures { IsTrue result → FitsWord (constants_of S.Flagged) }
{
    !S::EXPLICIT_INTEGER_BIT & (S::PRECISION <= 59) & (S::BITS <= 64)
}

/// How many digits a significand has.
#[inline(always)]
pub(crate) fn precision_of<S: Flagged>() -> u32
    requires { S.PRECISION ≤ 59 }
    ensures { result ≡ S.PRECISION }
{
    S::PRECISION as u32
}

/// The low word of an encoding in a format that fits in one. It encodes the same value, and takes half the registers
/// until a call that is seldom made. In other formats it is the encoding itself.
#[inline(always)]
pub fn word_of<S: Flagged>(bits: u128) -> u128
    requires { S.PRECISION < S.BITS }
    ensures { value_in (constants_of S.Flagged) result ≡ value_in (constants_of S.Flagged) bits }
{
    if fits_word::<S>() {
        low_digits(bits, 64)
    } else {
        bits
    }
}

/// Whether the sign bit is set.
#[inline(always)]
pub fn is_minus<S: Flagged>(bits: u128) -> bool
    requires { S.PRECISION < S.BITS }
    ensures { result ≡ (fields_of (format_of S.Flagged) (layout_of S.Flagged) bits).negative }
{
    low_digits(bits >> (S::BITS - 1), 1) == 1
}

/// The biased exponent, in a format whose integer bit is implied.
#[inline(always)]
pub fn biased_exponent<S: Flagged>(bits: u128) -> u32
    requires bits { S.PRECISION < S.BITS }
    requires implied { S.EXPLICIT_INTEGER_BIT ≡ false }
    ensures value { result
        ≡ (fields_of (format_of S.Flagged) (layout_of S.Flagged) bits).biased_exponent }
    ensures bound { result < 2 ^ 22 }
{
    low_digits(bits >> (S::PRECISION - 1), S::EXP_BITS as u32) as u32
}

/// The number of biased exponents.
#[inline(always)]
pub(crate) fn exponents<S: Flagged>() -> u32
    requires { S.PRECISION < S.BITS }
    ensures { result ≡ 2 ^ S.EXP_BITS }
{
    1 << S::EXP_BITS
}

/// Whether this is neither the biased exponent of zeros and denormal numbers nor the greatest one.
#[inline(always)]
fn is_of_number<S: Flagged>(biased: u32) -> bool
    requires bits { S.PRECISION < S.BITS }
    requires bound { biased < 2 ^ 22 }
    ensures { IsTrue result → (0 < biased) × (biased + 1 < 2 ^ S.EXP_BITS) }
{
    (biased != 0) & (biased + 1 < exponents::<S>())
}

/// The significand of a normal number.
#[inline(always)]
pub(crate) fn significand_of<S: Flagged>(bits: u128) -> u64
    requires implied { S.EXPLICIT_INTEGER_BIT ≡ false }
    requires short { S.PRECISION ≤ 59 }
    ensures value { result ≡ 2 ^ (S.PRECISION - 1)
        + (fields_of (format_of S.Flagged) (layout_of S.Flagged) bits).trailing }
    ensures fits { result < 2 ^ S.PRECISION }
{
    let width = S::PRECISION as u32 - 1;
    (1_u64 << width) + low_digits(bits, width) as u64
}

/// The number that these bits encode, if it is normal and does not have the greatest exponent.
#[inline(always)]
pub(crate) fn normal_number<S: Flagged>(bits: u128) -> Option<Number>
    requires bits { S.PRECISION < S.BITS }
    requires word { FitsWord (constants_of S.Flagged) }
    ensures { IfSome result (IsNumberOf (constants_of S.Flagged) bits) }
{
    let biased = biased_exponent::<S>(bits);
    if is_of_number::<S>(biased) {
        Some(Number {
            negative: is_minus::<S>(bits),
            place: biased - 1,
            significand: significand_of::<S>(bits),
        })
    } else {
        None
    }
}

/// The bits of a value without the sign bit. Those of numbers are in the order of their magnitudes.
#[inline(always)]
pub(crate) fn magnitude_of<S: Flagged>(bits: u128) -> u64
    requires some { 0 < S.BITS }
    requires word { S.BITS ≤ 64 }
    ensures { result ≡ bits % 2 ^ (S.BITS - 1) }
{
    low_digits(bits, S::BITS as u32 - 1) as u64
}

/// Whether two magnitudes in this order are those of normal numbers without the greatest exponent.
#[inline(always)]
fn are_normal<S: Flagged>(high: u32, low: u32) -> bool
    requires bits { S.PRECISION < S.BITS }
    requires bound { high < 2 ^ 22 }
    ensures { IsTrue result → (0 < low) × (high + 1 < 2 ^ S.EXP_BITS) }
{
    (low != 0) & (high + 1 < exponents::<S>())
}

/// The first if `is_first`, otherwise the second.
#[inline(always)]
pub(crate) fn either<T: Copy>(is_first: bool, first: T, second: T) -> T
    ensures { result ≡ (if is_first then first else second) }
{
    if is_first { first } else { second }
}

/// Two numbers, the first of which does not have the smaller magnitude.
#[derive(Clone, Copy)]
pub(crate) struct Ordered {
    pub high: Number,
    pub low: Number,
    /// Whether their signs differ.
    pub unlike: bool,
}

/// The numbers that these bits encode in the order of their magnitudes, with the sign of the second changed if it is
/// asked for, if both are normal. The magnitudes are selected before anything depends on them, so that no branch does.
#[inline(always)]
pub(crate) fn ordered_numbers<S: Flagged>(x: u128, y: u128, changed: bool) -> Option<Ordered>
    requires bits { S.PRECISION < S.BITS }
    requires word { FitsWord (constants_of S.Flagged) }
    ensures { IfSome result (λ o. AreOrderedNumbers (constants_of S.Flagged) x y changed o
        × (o.unlike ≡ not (beq o.high.negative o.low.negative))) }
{
    let left = magnitude_of::<S>(x);
    let right = magnitude_of::<S>(y);
    let is_ordered = left >= right;
    let high = either(is_ordered, left, right) as u128;
    let low = either(is_ordered, right, left) as u128;
    let above = biased_exponent::<S>(high);
    let below = biased_exponent::<S>(low);
    if are_normal::<S>(above, below) {
        let left_sign = is_minus::<S>(x);
        let right_sign = is_minus::<S>(y) != changed;
        Some(Ordered {
            high: Number {
                negative: either(is_ordered, left_sign, right_sign),
                place: above - 1,
                significand: significand_of::<S>(high),
            },
            low: Number {
                negative: either(is_ordered, right_sign, left_sign),
                place: below - 1,
                significand: significand_of::<S>(low),
            },
            unlike: left_sign != right_sign,
        })
    } else {
        None
    }
}

/// Two operands.
#[derive(Clone, Copy)]
pub(crate) struct Operands {
    pub left: Number,
    pub right: Number,
}

/// The numbers that these bits encode, if both are normal.
#[inline(always)]
pub(crate) fn normal_operands<S: Flagged>(x: u128, y: u128) -> Option<Operands>
    requires bits { S.PRECISION < S.BITS }
    requires word { FitsWord (constants_of S.Flagged) }
    ensures { IfSome result (λ o. IsNumberOf (constants_of S.Flagged) x o.left
        × IsNumberOf (constants_of S.Flagged) y o.right) }
{
    if let Some(left) = normal_number::<S>(x) {
        if let Some(right) = normal_number::<S>(y) {
            return Some(Operands { left, right });
        }
    }
    None
}
