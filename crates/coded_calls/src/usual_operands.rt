//! Tests of the operands of machines by their bits: whether they fit in their format, and whether every machine gives
//! the plain result of them. That is tested before the plain call, so that nothing has to be kept for after it.

ghost use Rattle.std.specs.Prelude.{◌≡◌, ◌+◌, ◌^◌, ◌%◌, ◌&&◌, ◌<◌, true, IsTrue, IfSome};
ghost use Rattle.rustc_apfloat.specs.FlaggedTypes.{constants_of};
ghost use Rattle.coded_calls.specs.MachineCalls.{are_usual, are_usual_of_three, divides, fits, is_divisor, is_number};
ghost use Rattle.coded_calls.specs.MachineCalls.{is_root_of};

use fast_bits::biased_exponent;
use formats_at_run_time::Arithmetic;
use rustc_apfloat::Float;
use rustc_apfloat::ieee::{Flagged, IeeeFloat};

/// Whether the bits are those of a value of the format, with nothing above them.
#[inline(always)]
pub fn fits<S: Flagged>(bits: u128) -> bool
    requires { S.PRECISION < S.BITS }
    ensures { result ≡ fits (constants_of S.Flagged).bits bits }
{
    if S::BITS < 128 {
        bits < 1 << S::BITS
    } else {
        true
    }
}

/// Whether neither has bits at or above the width of the format.
#[inline(always)]
pub fn both_fit<S: Flagged>(x: u128, y: u128) -> bool
    requires { S.PRECISION < S.BITS }
    ensures { result ≡ (fits (constants_of S.Flagged).bits x
        && fits (constants_of S.Flagged).bits y) }
{
    fits::<S>(x) && fits::<S>(y)
}

/// An operand as a word, or none if it has more bits: the general way is then as good.
#[inline(always)]
pub fn one_word(x: u128) -> Option<u64>
    ensures { IfSome result (λ word. word ≡ x) }
{
    if x < 1 << 64 { Some(x as u64) } else { None }
}

/// Two operands as words, or none if one has more bits: the general way is then as good.
#[inline(always)]
pub fn two_words(x: u128, y: u128) -> Option<(u64, u64)>
    ensures { IfSome result (λ words. (words.0 ≡ x) × (words.1 ≡ y)) }
{
    if x < 1 << 64 && y < 1 << 64 {
        Some((x as u64, y as u64))
    } else {
        None
    }
}

/// Three operands as words, or none if one has more bits: the general way is then as good.
#[inline(always)]
pub fn three_words(x: u128, y: u128, z: u128) -> Option<(u64, u64, u64)>
    ensures { IfSome result (λ words. (words.0 ≡ x) × (words.1 ≡ y) × (words.2 ≡ z)) }
{
    if x < 1 << 64 && y < 1 << 64 && z < 1 << 64 {
        Some((x as u64, y as u64, z as u64))
    } else {
        None
    }
}

/// Whether the bits are those of a number.
#[inline(always)]
pub fn is_number<S: Flagged>(bits: u128) -> bool
    requires { S.PRECISION < S.BITS }
    ensures { result ≡ is_number (constants_of S.Flagged) bits }
{
    fits::<S>(bits) && IeeeFloat::<S>::from_bits(bits).is_finite()
}

/// The number of biased exponents.
#[inline(always)]
fn exponents<S: Flagged>() -> u32
    requires { S.PRECISION < S.BITS }
    ensures { result ≡ 2 ^ S.EXP_BITS }
{
    1 << S::EXP_BITS
}

/// Whether this is neither the biased exponent of zeros and denormal numbers nor the greatest one.
#[inline(always)]
fn is_inner<S: Flagged>(biased: u32) -> bool
    requires bits { S.PRECISION < S.BITS }
    requires bound { biased < 2 ^ 22 }
    ensures { IsTrue result → (0 < biased) × (biased + 1 < 2 ^ S.EXP_BITS) }
{
    (biased != 0) & (biased + 1 < exponents::<S>())
}

/// Two to this power.
#[inline(always)]
fn power_of_two(places: usize) -> u128
    requires { places < 128 }
    ensures { result ≡ 2 ^ places }
{
    1 << places
}

/// So many of the lowest digits of a number, by a mask, as the plain call has them.
#[inline(always)]
fn lowest(number: u128, places: usize) -> u128
    requires { places < 128 }
    ensures { result ≡ number % 2 ^ places }
{
    number & (power_of_two(places) - 1)
}

/// Whether the bits are those of a normal number, in a format with an explicit integer bit: it is set.
#[inline(always)]
fn is_written_normal<S: Flagged>(bits: u128) -> bool
    requires bits { S.PRECISION < S.BITS }
    requires explicit { S.EXPLICIT_INTEGER_BIT ≡ true }
    requires fitting { fits (constants_of S.Flagged).bits bits ≡ true }
    ensures { IsTrue result → is_divisor (constants_of S.Flagged) bits ≡ true }
{
    let above = power_of_two(S::PRECISION);
    let biased = lowest(bits / above, S::EXP_BITS);
    let integer_bit = power_of_two(S::PRECISION - 1);
    is_inner::<S>(biased as u32) && integer_bit <= bits % above
}

/// Whether the bits are those of a normal number, whose exponent is not the greatest. Plain calls begin with the same
/// test, which they then need not repeat.
#[inline(always)]
pub fn is_normal<S: Flagged>(bits: u128) -> bool
    requires { S.PRECISION < S.BITS }
    ensures { IsTrue result → is_divisor (constants_of S.Flagged) bits ≡ true }
{
    if !fits::<S>(bits) {
        return false;
    }
    if S::EXPLICIT_INTEGER_BIT {
        is_written_normal::<S>(bits)
    } else {
        is_inner::<S>(biased_exponent::<S>(bits))
    }
}

/// Whether both are normal numbers, of which every machine gives the plain result.
#[inline(always)]
pub fn are_normal<S: Flagged>(x: u128, y: u128) -> bool
    requires { S.PRECISION < S.BITS }
    ensures { IsTrue result → (arithmetic : Arithmetic)
        → are_usual (constants_of S.Flagged) arithmetic x y ≡ true }
{
    is_normal::<S>(x) && is_normal::<S>(y)
}

/// Whether all three are normal numbers.
#[inline(always)]
pub fn are_normal_of_three<S: Flagged>(x: u128, y: u128, z: u128) -> bool
    requires { S.PRECISION < S.BITS }
    ensures { IsTrue result → are_usual_of_three (constants_of S.Flagged) x y z ≡ true }
{
    is_normal::<S>(x) && (is_normal::<S>(y) && is_normal::<S>(z))
}

/// Whether the bits are those of a normal number that is converted from or to a format with more than 64 bits. Between
/// shorter formats normal numbers go from bits to bits.
#[inline(always)]
pub fn is_normal_beyond_words<S: Flagged, T: Flagged>(bits: u128) -> bool
    requires { S.PRECISION < S.BITS }
    ensures { IsTrue result → is_number (constants_of S.Flagged) bits ≡ true }
{
    (S::BITS > 64 || T::BITS > 64) && is_normal::<S>(bits)
}

/// Whether the bits are those of a positive number or of +0, so that the root is no NaN.
#[inline(always)]
pub fn is_root_of<S: Flagged>(bits: u128) -> bool
    requires { S.PRECISION < S.BITS }
    ensures { result ≡ is_root_of (constants_of S.Flagged) bits }
{
    is_number::<S>(bits) && !IeeeFloat::<S>::from_bits(bits).is_negative()
}

/// Whether the bits are those of a number other than zero.
#[inline(always)]
pub fn is_divisor<S: Flagged>(bits: u128) -> bool
    requires { S.PRECISION < S.BITS }
    ensures { result ≡ is_divisor (constants_of S.Flagged) bits }
{
    is_number::<S>(bits) && !IeeeFloat::<S>::from_bits(bits).is_zero()
}

/// Whether an operation divides by its second operand.
#[inline(always)]
fn divides(arithmetic: Arithmetic) -> bool
    ensures { result ≡ divides arithmetic }
{
    match arithmetic {
        Arithmetic::Sum => false,
        Arithmetic::Difference => false,
        Arithmetic::Product => false,
        Arithmetic::Quotient => true,
        Arithmetic::NearestRemainder => true,
        Arithmetic::TruncatedRemainder => true,
    }
}

/// Whether an operation on two values is on numbers, and does not divide by zero.
#[inline(always)]
pub fn are_usual<S: Flagged>(arithmetic: Arithmetic, x: u128, y: u128) -> bool
    requires { S.PRECISION < S.BITS }
    ensures { result ≡ are_usual (constants_of S.Flagged) arithmetic x y }
{
    is_number::<S>(x)
        && if divides(arithmetic) {
            is_divisor::<S>(y)
        } else {
            is_number::<S>(y)
        }
}

/// Whether all three are numbers.
#[inline(always)]
pub fn are_usual_of_three<S: Flagged>(x: u128, y: u128, z: u128) -> bool
    requires { S.PRECISION < S.BITS }
    ensures { result ≡ are_usual_of_three (constants_of S.Flagged) x y z }
{
    is_number::<S>(x) && (is_number::<S>(y) && is_number::<S>(z))
}
