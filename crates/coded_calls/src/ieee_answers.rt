//! The results of the operations of IEEE 754-2019 that `Float` lacks, in a format.

ghost use Rattle.std.specs.Prelude.{◌≡◌, ◌<◌, pos};
ghost use Rattle.rustc_apfloat.specs.{Flags.bits_of, FlaggedTypes.constants_of};
ghost use Rattle.formats_at_run_time.specs.{Relations.in_format, ValueKinds.value_of};
ghost use Rattle.coded_calls.specs.declared.ieee_call.IeeeCall.TheVariants.{Predicated, TotalOrder, ExtremumOf, LogB};
ghost use Rattle.coded_calls.specs.declared.ieee_call.IeeeCall.TheVariants.{ScaleB, Integral};
ghost use Rattle.coded_calls.specs.declared.ieee_call.InAnotherCall.TheVariants.{SumTo, DifferenceTo, ProductTo};
ghost use Rattle.coded_calls.specs.declared.ieee_call.InAnotherCall.TheVariants.{QuotientTo, FusedSumTo, RootTo};
ghost use Rattle.coded_calls.specs.Answers.{IsValueWritten, one_if, whole};
ghost use Rattle.coded_calls.specs.IeeeCalls.{IsExtremumBy, IsIeeeAnswer, IsInAnotherFormat};

use crate::codes::{one_if, order_code};
use crate::data::Answer;
use fast_bits::{compare_bits, has_ordered_words, round_number};
use ieee_operations::{
    Extremum, OnNan, Predicate, compare, extremum_number_of, extremum_of, log_b, lower_flags,
    round_to_integral_in, total_cmp,
};
use rustc_apfloat::ieee::{Flagged, IeeeFloat};
use rustc_apfloat::{Float, Round, Status, StatusAnd};

/// Whether a predicate holds of two values, in any mode. Two values that are in an order raise no flag.
pub fn predicated<S: Flagged>(
    round: Round,
    predicate: Predicate,
    on_nan: OnNan,
    x: u128,
    y: u128,
) -> Answer
    requires { S.PRECISION < S.BITS }
    ensures { IsIeeeAnswer (constants_of S.Flagged) round (Predicated predicate on_nan x y)
        result }
{
    if has_ordered_words::<S>() {
        if let Some(order) = compare_bits::<S>(x, y) {
            return told(Status::OK.and(predicate.relations().has(Some(order))));
        }
    }
    let (x, y) = (value::<S>(x), value::<S>(y));
    told(compare(predicate, on_nan, x, y))
}

/// The place of a value beside another in the total order, in any mode.
pub fn in_total_order<S: Flagged>(round: Round, x: u128, y: u128) -> Answer
    requires { S.PRECISION < S.BITS }
    ensures { IsIeeeAnswer (constants_of S.Flagged) round (TotalOrder x y) result }
{
    let (x, y) = (value::<S>(x), value::<S>(y));
    Answer::number(order_code(Some(total_cmp(x, y))))
}

/// A minimum or a maximum of two values, in any mode.
pub fn extreme<S: Flagged>(
    round: Round,
    which: Extremum,
    prefers_number: bool,
    x: u128,
    y: u128,
) -> Answer
    requires { S.PRECISION < S.BITS }
    ensures { IsIeeeAnswer (constants_of S.Flagged) round (ExtremumOf which prefers_number x y)
        result }
{
    let (x, y) = (value::<S>(x), value::<S>(y));
    written(extremum(which, prefers_number, x, y))
}

/// A minimum or a maximum.
fn extremum<S: Flagged>(
    which: Extremum,
    prefers_number: bool,
    x: IeeeFloat<S>,
    y: IeeeFloat<S>,
) -> StatusAnd<IeeeFloat<S>>
    ensures { IsExtremumBy prefers_number (constants_of S.Flagged) which x y result }
{
    if prefers_number {
        extremum_number_of(which, x, y)
    } else {
        extremum_of(which, x, y)
    }
}

/// The exponent of a value.
pub fn logarithm<S: Flagged>(round: Round, x: u128) -> Answer
    requires { S.PRECISION < S.BITS }
    ensures { IsIeeeAnswer (constants_of S.Flagged) round (LogB x) result }
{
    let x = value::<S>(x);
    written(log_b(x, round))
}

/// A value times a power of two.
pub fn scaled_by<S: Flagged>(round: Round, x: u128, power: i32) -> Answer
    requires { S.PRECISION < S.BITS }
    ensures { IsIeeeAnswer (constants_of S.Flagged) round (ScaleB x power) result }
{
    let x = value::<S>(x);
    written(x.scale_b(power, round))
}

/// A value rounded to an integral value, without INEXACT.
pub fn integral<S: Flagged>(round: Round, x: u128) -> Answer
    requires { S.PRECISION < S.BITS }
    ensures { IsIeeeAnswer (constants_of S.Flagged) round (Integral x) result }
{
    if let Some(number) = round_number::<S>(x, round) {
        let status = lower_flags(number.status, Status::INEXACT);
        return Answer::of(number.bits, status, 0);
    }
    let x = value::<S>(x);
    written(round_to_integral_in(x, round))
}

/// A sum in the format `T`.
pub fn sum_to<S: Flagged, T: Flagged>(round: Round, x: u128, y: u128) -> Answer
    requires source { S.PRECISION < S.BITS }
    requires target { T.PRECISION < T.BITS }
    ensures { IsInAnotherFormat (constants_of S.Flagged) (constants_of T.Flagged) round
        (SumTo x y) result }
{
    let (x, y) = (value::<S>(x), value::<S>(y));
    written(x.add_to::<T>(y, round))
}

/// A difference in the format `T`.
pub fn difference_to<S: Flagged, T: Flagged>(round: Round, x: u128, y: u128) -> Answer
    requires source { S.PRECISION < S.BITS }
    requires target { T.PRECISION < T.BITS }
    ensures { IsInAnotherFormat (constants_of S.Flagged) (constants_of T.Flagged) round
        (DifferenceTo x y) result }
{
    let (x, y) = (value::<S>(x), value::<S>(y));
    written(x.sub_to::<T>(y, round))
}

/// A product in the format `T`.
pub fn product_to<S: Flagged, T: Flagged>(round: Round, x: u128, y: u128) -> Answer
    requires source { S.PRECISION < S.BITS }
    requires target { T.PRECISION < T.BITS }
    ensures { IsInAnotherFormat (constants_of S.Flagged) (constants_of T.Flagged) round
        (ProductTo x y) result }
{
    let (x, y) = (value::<S>(x), value::<S>(y));
    written(x.mul_to::<T>(y, round))
}

/// A quotient in the format `T`.
pub fn quotient_to<S: Flagged, T: Flagged>(round: Round, x: u128, y: u128) -> Answer
    requires source { S.PRECISION < S.BITS }
    requires target { T.PRECISION < T.BITS }
    ensures { IsInAnotherFormat (constants_of S.Flagged) (constants_of T.Flagged) round
        (QuotientTo x y) result }
{
    let (x, y) = (value::<S>(x), value::<S>(y));
    written(x.div_to::<T>(y, round))
}

/// A product plus a third value, in the format `T`.
pub fn fused_sum_to<S: Flagged, T: Flagged>(round: Round, x: u128, y: u128, z: u128) -> Answer
    requires source { S.PRECISION < S.BITS }
    requires target { T.PRECISION < T.BITS }
    ensures { IsInAnotherFormat (constants_of S.Flagged) (constants_of T.Flagged) round
        (FusedSumTo x y z) result }
{
    let (x, y, z) = (value::<S>(x), value::<S>(y), value::<S>(z));
    written(x.mul_add_to::<T>(y, z, round))
}

/// A square root in the format `T`.
pub fn root_to<S: Flagged, T: Flagged>(round: Round, x: u128) -> Answer
    requires source { S.PRECISION < S.BITS }
    requires target { T.PRECISION < T.BITS }
    ensures { IsInAnotherFormat (constants_of S.Flagged) (constants_of T.Flagged) round
        (RootTo x) result }
{
    let x = value::<S>(x);
    written(x.sqrt_to::<T>(round))
}

/// The value of bits.
pub fn value<S: Flagged>(bits: u128) -> IeeeFloat<S>
    requires { S.PRECISION < S.BITS }
    ensures { result ≡ value_of (constants_of S.Flagged) bits }
{
    IeeeFloat::from_bits(bits)
}

/// A truth value with its flags.
fn told(answer: StatusAnd<bool>) -> Answer
    ensures bits { whole result.bits ≡ 0 }
    ensures status { result.status ≡ bits_of answer.status }
    ensures number { result.number ≡ one_if answer.value }
{
    Answer::of(0, answer.status, one_if(answer.value))
}

/// A value with its flags.
pub fn written<S: Flagged>(answer: StatusAnd<IeeeFloat<S>>) -> Answer
    requires { S.PRECISION < S.BITS }
    ensures { IsValueWritten (in_format (constants_of S.Flagged)) answer (pos 0) result }
{
    Answer::of(answer.value.to_bits(), answer.status, 0)
}
