//! The results of calls in a kind of values. Each of these functions writes one into its place. The place is the first
//! argument, so that the operands stay in the registers in which C passes them.

ghost use Rattle.std.specs.Prelude.{◌≡◌, ◌<◌, eqb, not, pos};
ghost use Rattle.rustc_apfloat.specs.{Flags.bits_of, FlaggedTypes.constants_of};
ghost use Rattle.formats_at_run_time.specs.declared.Arithmetic.TheVariants.{Sum, Difference, Product, Quotient};
ghost use Rattle.formats_at_run_time.specs.declared.Arithmetic.TheVariants.{NearestRemainder, TruncatedRemainder};
ghost use Rattle.formats_at_run_time.specs.{Relations.relations_of, ValueKinds.of_format, ValueKinds.value_of};
ghost use Rattle.coded_calls.specs.declared.exported_call.ExportedCall.TheVariants.{OfTwo, FusedSum, SquareRoot};
ghost use Rattle.coded_calls.specs.declared.exported_call.ExportedCall.TheVariants.{FromUnsigned, FromSigned};
ghost use Rattle.coded_calls.specs.declared.exported_call.ExportedCall.TheVariants.{ToUnsigned, ToSigned};
ghost use Rattle.coded_calls.specs.declared.exported_call.ExportedCall.TheVariants.{RoundToIntegral, Scaling, Fraction};
ghost use Rattle.coded_calls.specs.declared.exported_call.ExportedCall.TheVariants.{Comparison, Conversion, Text};
ghost use Rattle.coded_calls.specs.Answers.{FractionFits, IsConvertedInto, IsKindAnswer, IsLeft, IsNumberAlone};
ghost use Rattle.coded_calls.specs.Answers.{IsTypeAnswer, IsTypeLeft, IsValue, IsValueWritten, class_of, one_if};
ghost use Rattle.coded_calls.specs.Answers.{order_code, whole};

use crate::codes::{
    ANSWERED, NO_SUCH_OPERATION, REFUSED_TEXT, UNKNOWN_FORMAT, WRONG_WIDTH, class_code, is_width,
    one_if, order_code,
};
use crate::data::Answer;
use fast_bits::{
    Encoded, add_normal, compare_bits, convert_normal, divide_normal, has_ordered_words,
    multiply_add_normal, multiply_bits, root_bits, round_number, signed_of_bits, subtract_normal,
    unsigned_of_bits, word_of,
};
use formats_at_run_time::{FillsInFormat, FlaggedKind, ValueType};
use rustc_apfloat::ieee::{Flagged, IeeeFloat};
use rustc_apfloat::{FUSED_LIMIT, Flags, Float, FloatConvert, Round, Status, StatusAnd};
use std::marker::PhantomData;

/// A result that was computed from bits to bits.
#[inline(always)]
pub fn with_bits(encoded: Encoded) -> Answer
    ensures bits { whole result.bits ≡ encoded.bits }
    ensures status { result.status ≡ bits_of encoded.status }
    ensures number { result.number ≡ pos 0 }
{
    Answer::of(encoded.bits, encoded.status, 0)
}

/// A sum in a format, from bits to bits.
#[inline(never)]
pub fn sum_in<S: Flagged>(answer: &mut Answer, round: Round, x: u128, y: u128)
    requires { S.PRECISION < S.BITS }
    ensures { let kind = of_format (constants_of S.Flagged) in
        IsKindAnswer kind round (OfTwo Sum x y) answer.new }
{
    if let Some(sum) = add_normal::<S>(x, y, round) {
        *answer = with_bits(sum);
    } else {
        let (x, y) = (word_of::<S>(x), word_of::<S>(y));
        sum::<IeeeFloat<S>>(answer, round, x, y);
    }
}

/// A difference in a format, from bits to bits.
#[inline(never)]
pub fn difference_in<S: Flagged>(answer: &mut Answer, round: Round, x: u128, y: u128)
    requires { S.PRECISION < S.BITS }
    ensures { let kind = of_format (constants_of S.Flagged) in
        IsKindAnswer kind round (OfTwo Difference x y) answer.new }
{
    if let Some(difference) = subtract_normal::<S>(x, y, round) {
        *answer = with_bits(difference);
    } else {
        let (x, y) = (word_of::<S>(x), word_of::<S>(y));
        difference::<IeeeFloat<S>>(answer, round, x, y);
    }
}

/// A product in a format, in line: from bits to bits, if they fit in a word.
#[inline(always)]
pub fn product_here<S: Flagged>(answer: &mut Answer, round: Round, x: u128, y: u128)
    requires { S.PRECISION < S.BITS }
    ensures { let kind = of_format (constants_of S.Flagged) in
        IsKindAnswer kind round (OfTwo Product x y) answer.new }
{
    if S::BITS <= 64 {
        *answer = with_bits(multiply_bits::<S>(x, y, round));
    } else {
        product_of_type_here::<IeeeFloat<S>>(answer, round, x, y);
    }
}

/// A product in a format.
#[inline(never)]
pub fn product_in<S: Flagged>(answer: &mut Answer, round: Round, x: u128, y: u128)
    requires { S.PRECISION < S.BITS }
    ensures { let kind = of_format (constants_of S.Flagged) in
        IsKindAnswer kind round (OfTwo Product x y) answer.new }
{
    product_here::<S>(answer, round, x, y)
}

/// A sum, in line.
#[inline(always)]
pub fn sum_of_type_here<F: ValueType>(answer: &mut Answer, round: Round, x: u128, y: u128)
    requires { F.PRECISION < F.BITS }
    ensures { let of_type = relations_of F.Float.own F.partial_cmp F.takes_root in
        IsTypeAnswer of_type round (OfTwo Sum x y) answer.new }
{
    let (x, y) = (F::from_bits(x), F::from_bits(y));
    *answer = written(x.add_r(y, round));
}

/// A sum.
#[inline(never)]
pub fn sum<F: ValueType>(answer: &mut Answer, round: Round, x: u128, y: u128)
    requires { F.PRECISION < F.BITS }
    ensures { let of_type = relations_of F.Float.own F.partial_cmp F.takes_root in
        IsTypeAnswer of_type round (OfTwo Sum x y) answer.new }
{
    sum_of_type_here::<F>(answer, round, x, y)
}

/// A difference, in line.
#[inline(always)]
pub fn difference_of_type_here<F: ValueType>(answer: &mut Answer, round: Round, x: u128, y: u128)
    requires { F.PRECISION < F.BITS }
    ensures { let of_type = relations_of F.Float.own F.partial_cmp F.takes_root in
        IsTypeAnswer of_type round (OfTwo Difference x y) answer.new }
{
    let (x, y) = (F::from_bits(x), F::from_bits(y));
    *answer = written(x.sub_r(y, round));
}

/// A difference.
#[inline(never)]
pub fn difference<F: ValueType>(answer: &mut Answer, round: Round, x: u128, y: u128)
    requires { F.PRECISION < F.BITS }
    ensures { let of_type = relations_of F.Float.own F.partial_cmp F.takes_root in
        IsTypeAnswer of_type round (OfTwo Difference x y) answer.new }
{
    difference_of_type_here::<F>(answer, round, x, y)
}

/// A product, however many digits the type has, in line.
#[inline(always)]
pub fn product_of_type_here<F: ValueType>(answer: &mut Answer, round: Round, x: u128, y: u128)
    requires { F.PRECISION < F.BITS }
    ensures { let of_type = relations_of F.Float.own F.partial_cmp F.takes_root in
        IsTypeAnswer of_type round (OfTwo Product x y) answer.new }
{
    let (x, y) = (F::from_bits(x), F::from_bits(y));
    *answer = written(x.wide_mul_r(y, round));
}

/// A product, however many digits the type has.
#[inline(never)]
pub fn product<F: ValueType>(answer: &mut Answer, round: Round, x: u128, y: u128)
    requires { F.PRECISION < F.BITS }
    ensures { let of_type = relations_of F.Float.own F.partial_cmp F.takes_root in
        IsTypeAnswer of_type round (OfTwo Product x y) answer.new }
{
    product_of_type_here::<F>(answer, round, x, y)
}

/// A quotient in a format, in line: from bits to bits, if these are of normal numbers that fit in a word.
#[inline(always)]
pub fn quotient_here<S: Flagged>(answer: &mut Answer, round: Round, x: u128, y: u128)
    requires { S.PRECISION < S.BITS }
    ensures { let kind = of_format (constants_of S.Flagged) in
        IsKindAnswer kind round (OfTwo Quotient x y) answer.new }
{
    let left = word_of::<S>(x);
    let right = word_of::<S>(y);
    if let Some(quotient) = divide_normal::<S>(left, right, round) {
        *answer = with_bits(quotient);
    } else {
        quotient_of_type_here::<IeeeFloat<S>>(answer, round, left, right);
    }
}

/// A quotient in a format.
#[inline(never)]
pub fn quotient_in<S: Flagged>(answer: &mut Answer, round: Round, x: u128, y: u128)
    requires { S.PRECISION < S.BITS }
    ensures { let kind = of_format (constants_of S.Flagged) in
        IsKindAnswer kind round (OfTwo Quotient x y) answer.new }
{
    quotient_here::<S>(answer, round, x, y)
}

/// A quotient, in line.
#[inline(always)]
pub fn quotient_of_type_here<F: ValueType>(answer: &mut Answer, round: Round, x: u128, y: u128)
    requires { F.PRECISION < F.BITS }
    ensures { let of_type = relations_of F.Float.own F.partial_cmp F.takes_root in
        IsTypeAnswer of_type round (OfTwo Quotient x y) answer.new }
{
    let (x, y) = (F::from_bits(x), F::from_bits(y));
    *answer = written(x.div_r(y, round));
}

/// A quotient.
#[inline(never)]
pub fn quotient<F: ValueType>(answer: &mut Answer, round: Round, x: u128, y: u128)
    requires { F.PRECISION < F.BITS }
    ensures { let of_type = relations_of F.Float.own F.partial_cmp F.takes_root in
        IsTypeAnswer of_type round (OfTwo Quotient x y) answer.new }
{
    quotient_of_type_here::<F>(answer, round, x, y)
}

/// The remainder by the integer nearest to the quotient.
#[inline(never)]
pub fn nearest_remainder<F: ValueType>(answer: &mut Answer, round: Round, x: u128, y: u128)
    requires { F.PRECISION < F.BITS }
    ensures { let of_type = relations_of F.Float.own F.partial_cmp F.takes_root in
        IsTypeAnswer of_type round (OfTwo NearestRemainder x y) answer.new }
{
    let (x, y) = (F::from_bits(x), F::from_bits(y));
    *answer = written(x.ieee_rem(y));
}

/// The remainder by the quotient truncated to an integer.
#[inline(never)]
pub fn truncated_remainder<F: ValueType>(answer: &mut Answer, round: Round, x: u128, y: u128)
    requires { F.PRECISION < F.BITS }
    ensures { let of_type = relations_of F.Float.own F.partial_cmp F.takes_root in
        IsTypeAnswer of_type round (OfTwo TruncatedRemainder x y) answer.new }
{
    let (x, y) = (F::from_bits(x), F::from_bits(y));
    *answer = written(x.c_fmod(y));
}

/// A product plus a third value of any kind, rounded once, in line.
#[inline(always)]
fn fused_sum_of_values_here<S: Flagged>(
    answer: &mut Answer,
    round: Round,
    x: u128,
    y: u128,
    z: u128,
)
    requires { S.PRECISION < S.BITS }
    ensures { let kind = of_format (constants_of S.Flagged) in
        IsKindAnswer kind round (FusedSum x y z) answer.new }
{
    let (x, y, z) = (
        IeeeFloat::<S>::from_bits(x),
        IeeeFloat::<S>::from_bits(y),
        IeeeFloat::<S>::from_bits(z),
    );
    *answer = written(if S::PRECISION <= FUSED_LIMIT {
        x.mul_add_r(y, z, round)
    } else {
        x.wide_mul_add_r(y, z, round)
    });
}

/// A product plus a third value, rounded once, in line: from bits to bits, if these are of normal numbers that fit in a
/// word.
#[inline(always)]
pub fn fused_sum_here<S: Flagged>(answer: &mut Answer, round: Round, x: u128, y: u128, z: u128)
    requires { S.PRECISION < S.BITS }
    ensures { let kind = of_format (constants_of S.Flagged) in
        IsKindAnswer kind round (FusedSum x y z) answer.new }
{
    let left = word_of::<S>(x);
    let right = word_of::<S>(y);
    let addend = word_of::<S>(z);
    if let Some(sum) = multiply_add_normal::<S>(left, right, addend, round) {
        *answer = with_bits(sum);
    } else {
        fused_sum_of_values_here::<S>(answer, round, left, right, addend);
    }
}

/// A product plus a third value, rounded once.
#[inline(never)]
pub fn fused_sum<S: Flagged>(answer: &mut Answer, round: Round, x: u128, y: u128, z: u128)
    requires { S.PRECISION < S.BITS }
    ensures { let kind = of_format (constants_of S.Flagged) in
        IsKindAnswer kind round (FusedSum x y z) answer.new }
{
    fused_sum_here::<S>(answer, round, x, y, z)
}

/// A square root in a format: from bits to bits in line, if they fit in a word.
#[inline(always)]
pub fn root_here<S: Flagged>(answer: &mut Answer, round: Round, x: u128)
    requires { S.PRECISION < S.BITS }
    ensures { let kind = of_format (constants_of S.Flagged) in
        IsKindAnswer kind round (SquareRoot x) answer.new }
{
    if S::BITS <= 64 {
        *answer = with_bits(root_bits::<S>(x, round));
    } else {
        root::<IeeeFloat<S>>(answer, round, x);
    }
}

/// A square root in a format.
#[inline(never)]
pub fn root_in<S: Flagged>(answer: &mut Answer, round: Round, x: u128)
    requires { S.PRECISION < S.BITS }
    ensures { let kind = of_format (constants_of S.Flagged) in
        IsKindAnswer kind round (SquareRoot x) answer.new }
{
    root_here::<S>(answer, round, x)
}

/// The square root of a value.
#[inline(never)]
pub fn root<F: ValueType>(answer: &mut Answer, round: Round, x: u128)
    requires { F.PRECISION < F.BITS }
    ensures { let of_type = relations_of F.Float.own F.partial_cmp F.takes_root in
        IsTypeAnswer of_type round (SquareRoot x) answer.new }
{
    *answer = written(F::from_bits(x).sqrt_r(round));
}

/// An integer.
#[inline(never)]
pub fn from_unsigned<F: ValueType>(answer: &mut Answer, round: Round, number: u128)
    requires { F.PRECISION < F.BITS }
    ensures { let of_type = relations_of F.Float.own F.partial_cmp F.takes_root in
        IsTypeAnswer of_type round (FromUnsigned number) answer.new }
{
    *answer = written(F::from_u128_r(number, round));
}

/// A signed integer.
#[inline(never)]
pub fn from_signed<F: ValueType>(answer: &mut Answer, round: Round, number: i128)
    requires { F.PRECISION < F.BITS }
    ensures { let of_type = relations_of F.Float.own F.partial_cmp F.takes_root in
        IsTypeAnswer of_type round (FromSigned number) answer.new }
{
    *answer = written(F::from_i128_r(number, round));
}

/// A value as an integer.
#[inline(never)]
pub fn to_unsigned<F: ValueType>(answer: &mut Answer, round: Round, x: u128, width: u32) -> u32
    requires { F.PRECISION < F.BITS }
    ensures { let of_type = relations_of F.Float.own F.partial_cmp F.takes_root in
        IsTypeLeft of_type round (ToUnsigned x width) answer.old answer.new result }
{
    if !is_width(1, width) {
        return WRONG_WIDTH;
    }
    let mut is_exact = false;
    let whole = F::from_bits(x).to_u128_r(width as usize, round, &mut is_exact);
    *answer = Answer::of(whole.value, whole.status, one_if(is_exact));
    ANSWERED
}

/// A value as a signed integer.
#[inline(never)]
pub fn to_signed<F: ValueType>(answer: &mut Answer, round: Round, x: u128, width: u32) -> u32
    requires { F.PRECISION < F.BITS }
    ensures { let of_type = relations_of F.Float.own F.partial_cmp F.takes_root in
        IsTypeLeft of_type round (ToSigned x width) answer.old answer.new result }
{
    if !is_width(2, width) {
        return WRONG_WIDTH;
    }
    let mut is_exact = false;
    let whole = F::from_bits(x).to_i128_r(width as usize, round, &mut is_exact);
    *answer = Answer::of(whole.value.cast_unsigned(), whole.status, one_if(is_exact));
    ANSWERED
}

/// A value in a format as an integer: from bits, if it is a number in range of a word, in line.
#[inline(always)]
fn to_unsigned_here<S: Flagged>(answer: &mut Answer, round: Round, x: u128, width: u32) -> u32
    requires { S.PRECISION < S.BITS }
    ensures { IsLeft (of_format (constants_of S.Flagged)) round (ToUnsigned x width)
        answer.old answer.new result }
{
    if let Some(whole) = unsigned_of_bits::<S>(x, width, round) {
        *answer = Answer::of(
            whole.answer.value,
            whole.answer.status,
            one_if(whole.is_exact),
        );
        ANSWERED
    } else {
        to_unsigned::<IeeeFloat<S>>(answer, round, word_of::<S>(x), width)
    }
}

/// The same by any mode.
#[inline(never)]
fn to_unsigned_by_mode<S: Flagged>(answer: &mut Answer, round: Round, x: u128, width: u32) -> u32
    requires { S.PRECISION < S.BITS }
    ensures { IsLeft (of_format (constants_of S.Flagged)) round (ToUnsigned x width)
        answer.old answer.new result }
{
    to_unsigned_here::<S>(answer, round, x, width)
}

/// A value in a format as an integer. The usual mode is a constant, which leaves more registers.
#[inline(never)]
pub fn to_unsigned_in<S: Flagged>(answer: &mut Answer, round: Round, x: u128, width: u32) -> u32
    requires { S.PRECISION < S.BITS }
    ensures { IsLeft (of_format (constants_of S.Flagged)) round (ToUnsigned x width)
        answer.old answer.new result }
{
    match round {
        Round::NearestTiesToEven => {
            to_unsigned_here::<S>(answer, Round::NearestTiesToEven, x, width)
        }
        _ => to_unsigned_by_mode::<S>(answer, round, x, width),
    }
}

/// A value in a format as a signed integer: from bits, if it is a number in range of a word, in line.
#[inline(always)]
fn to_signed_here<S: Flagged>(answer: &mut Answer, round: Round, x: u128, width: u32) -> u32
    requires { S.PRECISION < S.BITS }
    ensures { IsLeft (of_format (constants_of S.Flagged)) round (ToSigned x width)
        answer.old answer.new result }
{
    if let Some(whole) = signed_of_bits::<S>(x, width, round) {
        let integer = whole.answer.value.cast_unsigned();
        *answer = Answer::of(integer, whole.answer.status, one_if(whole.is_exact));
        ANSWERED
    } else {
        to_signed::<IeeeFloat<S>>(answer, round, word_of::<S>(x), width)
    }
}

/// The same by any mode.
#[inline(never)]
fn to_signed_by_mode<S: Flagged>(answer: &mut Answer, round: Round, x: u128, width: u32) -> u32
    requires { S.PRECISION < S.BITS }
    ensures { IsLeft (of_format (constants_of S.Flagged)) round (ToSigned x width)
        answer.old answer.new result }
{
    to_signed_here::<S>(answer, round, x, width)
}

/// A value in a format as a signed integer. The usual mode is a constant, which leaves more registers.
#[inline(never)]
pub fn to_signed_in<S: Flagged>(answer: &mut Answer, round: Round, x: u128, width: u32) -> u32
    requires { S.PRECISION < S.BITS }
    ensures { IsLeft (of_format (constants_of S.Flagged)) round (ToSigned x width)
        answer.old answer.new result }
{
    match round {
        Round::NearestTiesToEven => {
            to_signed_here::<S>(answer, Round::NearestTiesToEven, x, width)
        }
        _ => to_signed_by_mode::<S>(answer, round, x, width),
    }
}

/// A value rounded to an integral value, in line.
#[inline(always)]
pub fn round_to_integral_here<F: ValueType>(answer: &mut Answer, round: Round, x: u128)
    requires { F.PRECISION < F.BITS }
    ensures { let of_type = relations_of F.Float.own F.partial_cmp F.takes_root in
        IsTypeAnswer of_type round (RoundToIntegral x) answer.new }
{
    *answer = written(F::from_bits(x).round_to_integral(round));
}

/// A value rounded to an integral value by its mode as a constant: with that the call is short enough to be in line in
/// each format, where the call for all modes is too long in `x87`.
#[inline(never)]
fn round_to_integral_by_mode<F: ValueType>(answer: &mut Answer, round: Round, x: u128)
    requires { F.PRECISION < F.BITS }
    ensures { let of_type = relations_of F.Float.own F.partial_cmp F.takes_root in
        IsTypeAnswer of_type round (RoundToIntegral x) answer.new }
{
    match round {
        Round::NearestTiesToEven => {
            round_to_integral_here::<F>(answer, Round::NearestTiesToEven, x)
        }
        Round::TowardPositive => { round_to_integral_here::<F>(answer, Round::TowardPositive, x) }
        Round::TowardNegative => { round_to_integral_here::<F>(answer, Round::TowardNegative, x) }
        Round::TowardZero => round_to_integral_here::<F>(answer, Round::TowardZero, x),
        Round::NearestTiesToAway => {
            round_to_integral_here::<F>(answer, Round::NearestTiesToAway, x)
        }
    }
}

/// A value rounded to an integral value.
#[inline(never)]
pub fn round_to_integral<F: ValueType>(answer: &mut Answer, round: Round, x: u128)
    requires { F.PRECISION < F.BITS }
    ensures { let of_type = relations_of F.Float.own F.partial_cmp F.takes_root in
        IsTypeAnswer of_type round (RoundToIntegral x) answer.new }
{
    // `x87` alone has so many bits. The usual mode needs no table of jumps.
    if F::BITS == 80 {
        match round {
            Round::NearestTiesToEven => {
                round_to_integral_here::<F>(answer, Round::NearestTiesToEven, x)
            }
            _ => round_to_integral_by_mode::<F>(answer, round, x),
        }
    } else {
        round_to_integral_here::<F>(answer, round, x)
    }
}

/// A value rounded to an integral value in a format, in line: from bits to bits, if it is a number that may have digits
/// below the binary point.
#[inline(always)]
fn round_to_integral_in_line<S: Flagged>(answer: &mut Answer, round: Round, x: u128) -> u32
    requires { S.PRECISION < S.BITS }
    ensures { IsLeft (of_format (constants_of S.Flagged)) round (RoundToIntegral x)
        answer.old answer.new result }
{
    if let Some(number) = round_number::<S>(x, round) {
        *answer = with_bits(number);
    } else {
        round_to_integral::<IeeeFloat<S>>(answer, round, word_of::<S>(x));
    }
    ANSWERED
}

/// The same by any mode.
#[inline(never)]
fn round_to_integral_in_mode<S: Flagged>(answer: &mut Answer, round: Round, x: u128) -> u32
    requires { S.PRECISION < S.BITS }
    ensures { IsLeft (of_format (constants_of S.Flagged)) round (RoundToIntegral x)
        answer.old answer.new result }
{
    round_to_integral_in_line::<S>(answer, round, x)
}

/// A value rounded to an integral value in a format whose words are ordered. The usual mode is a constant, which leaves
/// more registers.
#[inline(never)]
fn round_word_to_integral<S: Flagged>(answer: &mut Answer, round: Round, x: u128) -> u32
    requires { S.PRECISION < S.BITS }
    ensures { IsLeft (of_format (constants_of S.Flagged)) round (RoundToIntegral x)
        answer.old answer.new result }
{
    match round {
        Round::NearestTiesToEven => {
            round_to_integral_in_line::<S>(answer, Round::NearestTiesToEven, x)
        }
        _ => round_to_integral_in_mode::<S>(answer, round, x),
    }
}

/// A value rounded to an integral value in a format.
#[inline(always)]
pub fn round_to_integral_in<S: Flagged>(answer: &mut Answer, round: Round, x: u128) -> u32
    requires { S.PRECISION < S.BITS }
    ensures { IsLeft (of_format (constants_of S.Flagged)) round (RoundToIntegral x)
        answer.old answer.new result }
{
    if has_ordered_words::<S>() {
        round_word_to_integral::<S>(answer, round, x)
    } else {
        round_to_integral::<IeeeFloat<S>>(answer, round, x);
        ANSWERED
    }
}

/// A value times a power of two.
#[inline(never)]
pub fn scaled<F: ValueType>(answer: &mut Answer, round: Round, x: u128, power: i32)
    requires { F.PRECISION < F.BITS }
    ensures { let of_type = relations_of F.Float.own F.partial_cmp F.takes_root in
        IsTypeAnswer of_type round (Scaling x power) answer.new }
{
    let scaled = F::from_bits(x).scalbn_r(power, round);
    *answer = written(Status::OK.and(scaled));
}

/// The fraction of a value and its exponent.
#[inline(never)]
pub fn fraction<F: ValueType>(answer: &mut Answer, round: Round, x: u128)
    requires written { F.PRECISION < F.BITS }
    requires fits { let of_type = relations_of F.Float.own F.partial_cmp F.takes_root in
        FractionFits of_type (Fraction x) }
    ensures { let of_type = relations_of F.Float.own F.partial_cmp F.takes_root in
        IsTypeAnswer of_type round (Fraction x) answer.new }
{
    let mut exponent = 0;
    let fraction = F::from_bits(x).frexp_r(&mut exponent, round);
    *answer = shown(Status::OK.and(fraction), exponent);
}

/// The exponent of a value.
#[inline(never)]
pub fn exponent<F: Float>(answer: &mut Answer, x: u128)
    requires { F.PRECISION < F.BITS }
    ensures { IsNumberAlone (F.meaning.has_exponent (F.meaning.value_of_bits x)) answer.new }
{
    *answer = Answer::number(F::from_bits(x).ilogb());
}

/// The least value above.
#[inline(never)]
pub fn next_up<F: ValueType>(answer: &mut Answer, x: u128)
    requires { F.PRECISION < F.BITS }
    ensures { let of_type = relations_of F.Float.own F.partial_cmp F.takes_root in
        IsValue of_type (F.meaning.steps_up (F.meaning.value_of_bits x)) answer.new }
{
    *answer = written(F::from_bits(x).next_up());
}

/// The greatest value below.
#[inline(never)]
pub fn next_down<F: ValueType>(answer: &mut Answer, x: u128)
    requires { F.PRECISION < F.BITS }
    ensures { let of_type = relations_of F.Float.own F.partial_cmp F.takes_root in
        IsValue of_type (F.meaning.steps_down (F.meaning.value_of_bits x)) answer.new }
{
    *answer = written(F::from_bits(x).next_down());
}

/// The order of two values.
#[inline(never)]
pub fn comparison<F: Float>(answer: &mut Answer, x: u128, y: u128)
    requires { F.PRECISION < F.BITS }
    ensures { IsNumberAlone
        (λ n. n
        ≡ order_code (F.partial_cmp (F.meaning.value_of_bits x) (F.meaning.value_of_bits y)))
        answer.new }
{
    let (x, y) = (F::from_bits(x), F::from_bits(y));
    *answer = Answer::number(order_code(x.partial_cmp(&y)));
}

/// The order of two values in a format: from their bits, where these are in order.
#[inline(never)]
pub fn comparison_in<S: Flagged>(answer: &mut Answer, round: Round, x: u128, y: u128)
    requires { S.PRECISION < S.BITS }
    ensures { let kind = of_format (constants_of S.Flagged) in
        IsKindAnswer kind round (Comparison x y) answer.new }
{
    if has_ordered_words::<S>() {
        *answer = Answer::number(order_code(compare_bits::<S>(x, y)));
    } else {
        comparison::<IeeeFloat<S>>(answer, x, y);
    }
}

/// The class of a value.
#[inline(never)]
pub fn class<F: ValueType>(answer: &mut Answer, x: u128)
    requires { F.PRECISION < F.BITS }
    ensures { let of_type = relations_of F.Float.own F.partial_cmp F.takes_root in
        IsNumberAlone (λ n. n ≡ class_of of_type (F.meaning.value_of_bits x)) answer.new }
{
    let x = F::from_bits(x);
    let code = class_code(
        x.category(),
        x.is_negative(),
        x.is_denormal(),
        x.is_signaling(),
    );
    *answer = Answer::number(code);
}

/// A value in another kind.
#[inline(always)]
pub fn converted<S: Flagged>(
    round: Round,
    x: u128,
    target: Option<FlaggedKind>,
    answer: &mut Answer,
) -> u32
    requires { S.PRECISION < S.BITS }
    ensures { let kind = of_format (constants_of S.Flagged) in
        IsLeft kind round (Conversion x target) answer.old answer.new result }
{
    match target {
        None => UNKNOWN_FORMAT,
        Some(FlaggedKind::Pairs) => NO_SUCH_OPERATION,
        Some(FlaggedKind::OfFormat(target)) => {
            let source = PhantomData;
            target.fill(ConversionFrom::<S> { source, round, x }, answer);
            ANSWERED
        }
    }
}

/// The conversion of a value of the format `S`.
#[derive(Drop)]
struct ConversionFrom<S: Flagged> {
    source: PhantomData<S>,
    round: Round,
    x: u128,
    ghost has_bits: { S.PRECISION < S.BITS },
}

impl<S: Flagged> FillsInFormat for ConversionFrom<S> {
    type Place = Answer;

    type Output = ();

    ghost gives = { λ it kind old new _.
        let c = constants_of S.Flagged in IsConvertedInto c it.round (value_of c it.x) kind new };

    #[inline(always)]
    fn fill_in_format<T: Flagged>(self, answer: &mut Answer) {
        converted_to::<S, T>(answer, self.round, self.x)
    }
}

/// A value of the format `S` in the format `T`: from bits to bits, if it is a normal number in both.
#[inline(never)]
fn converted_to<S: Flagged, T: Flagged>(answer: &mut Answer, round: Round, x: u128)
    requires source { S.PRECISION < S.BITS }
    requires target { T.PRECISION < T.BITS }
    ensures { let c = constants_of S.Flagged in
        IsConvertedInto c round (value_of c x) (of_format (constants_of T.Flagged)) answer.new }
{
    if let Some(number) = convert_normal::<S, T>(x, round) {
        *answer = converted_number(number);
    } else {
        any_converted_to::<S, T>(answer, round, x);
    }
}

/// A number that was converted from bits to bits: it is not exact if it has a flag.
#[inline(always)]
fn converted_number(number: Encoded) -> Answer
    ensures bits { whole result.bits ≡ number.bits }
    ensures status { result.status ≡ bits_of number.status }
    ensures number { result.number ≡ one_if (not (eqb (bits_of number.status) 0)) }
{
    let Encoded { bits, status } = number;
    Answer::of(bits, status, one_if(status.bits() != 0))
}

/// Any value of the format `S` in the format `T`.
#[inline(never)]
fn any_converted_to<S: Flagged, T: Flagged>(answer: &mut Answer, round: Round, x: u128)
    requires source { S.PRECISION < S.BITS }
    requires target { T.PRECISION < T.BITS }
    ensures { let c = constants_of S.Flagged in
        IsConvertedInto c round (value_of c x) (of_format (constants_of T.Flagged)) answer.new }
{
    let mut loses_info = false;
    let x = IeeeFloat::<S>::from_bits(x);
    let given: StatusAnd<IeeeFloat<T>> = x.convert_r(round, &mut loses_info);
    *answer = shown(given, one_if(loses_info));
}

/// The value of a text. A text that has a value is ASCII, so its bytes are not checked before they are read.
#[inline(never)]
pub fn read<F: ValueType>(answer: &mut Answer, round: Round, bytes: &[u8]) -> u32
    requires { F.PRECISION < F.BITS }
    ensures { let of_type = relations_of F.Float.own F.partial_cmp F.takes_root in
        IsTypeLeft of_type round (Text bytes.entry) answer.old answer.new result }
{
    match F::from_ascii_r(bytes, round) {
        Ok(read) => {
            *answer = written(read);
            ANSWERED
        }
        Err(_) => REFUSED_TEXT,
    }
}

/// A value with its flags.
#[inline(always)]
fn written<F: ValueType>(answer: StatusAnd<F>) -> Answer
    requires { F.PRECISION < F.BITS }
    ensures { let of_type = relations_of F.Float.own F.partial_cmp F.takes_root in
        IsValueWritten of_type answer (pos 0) result }
{
    shown(answer, 0)
}

/// A value with its flags and an extra number.
#[inline(always)]
fn shown<F: ValueType>(answer: StatusAnd<F>, number: i32) -> Answer
    requires { F.PRECISION < F.BITS }
    ensures { let of_type = relations_of F.Float.own F.partial_cmp F.takes_root in
        IsValueWritten of_type answer number result }
{
    Answer::of(answer.value.to_bits(), answer.status, number)
}
