//! The exports, declared for C programs in `include/apfloat.h`.

ghost use Rattle.std.specs.{Prelude.Some, Int.cast_signed, Int.w128};
ghost use Rattle.rustc_apfloat.specs.declared.Round.TheVariants.{NearestTiesToEven};
ghost use Rattle.formats_at_run_time.specs.declared.Arithmetic.TheVariants.{Sum, Difference, Product, Quotient};
ghost use Rattle.formats_at_run_time.specs.declared.Arithmetic.TheVariants.{NearestRemainder, TruncatedRemainder};
ghost use Rattle.formats_at_run_time.specs.{FlaggedKinds.flagged_kind_coded, Modes.mode_coded};
ghost use Rattle.coded_calls.specs.declared.exported_call.ExportedCall.TheVariants.{OfTwo, FusedSum, SquareRoot};
ghost use Rattle.coded_calls.specs.declared.exported_call.ExportedCall.TheVariants.{FromUnsigned, FromSigned};
ghost use Rattle.coded_calls.specs.declared.exported_call.ExportedCall.TheVariants.{ToUnsigned, ToSigned};
ghost use Rattle.coded_calls.specs.declared.exported_call.ExportedCall.TheVariants.{RoundToIntegral, Scaling, Fraction};
ghost use Rattle.coded_calls.specs.declared.exported_call.ExportedCall.TheVariants.{Exponent, NextUp, NextDown};
ghost use Rattle.coded_calls.specs.declared.exported_call.ExportedCall.TheVariants.{Comparison, Class, Conversion};
ghost use Rattle.coded_calls.specs.{declared.exported_call.ExportedCall.TheVariants.Text, KnownCalls.known_call};
ghost use Rattle.coded_calls.specs.Answers.{IsReturned, whole};

use coded_calls::by_code::{reply, reply_converted, reply_in_kind};
use coded_calls::codes::NEAREST_EVEN;
use coded_calls::data::{Answer, Halves};
use coded_calls::operations::{
    ClassCall, ComparisonCall, ConversionCall, DifferenceCall, ExponentCall, FractionCall,
    FromSignedCall, FromUnsignedCall, FusedSumCall, NearestRemainderCall, NextDownCall, NextUpCall,
    ProductCall, QuotientCall, RoundToIntegralCall, ScalingCall, SquareRootCall, SumCall, TextCall,
    ToSignedCall, ToUnsignedCall, TruncatedRemainderCall,
};

/// The sum of two values, rounded once.
#[unsafe(no_mangle)]
pub extern "C" fn apfloat_add(
    format: u32,
    mode: u32,
    x: Halves,
    y: Halves,
    answer: &mut Answer,
) -> u32
    ensures { IsReturned (known_call (flagged_kind_coded format) (mode_coded mode)
        (OfTwo Sum (whole x) (whole y))) answer.old answer.new result }
{
    let (x, y) = (x.number(), y.number());
    reply_in_kind(format, mode, SumCall { x, y }, answer)
}

/// The difference of two values, rounded once.
#[unsafe(no_mangle)]
pub extern "C" fn apfloat_sub(
    format: u32,
    mode: u32,
    x: Halves,
    y: Halves,
    answer: &mut Answer,
) -> u32
    ensures { IsReturned (known_call (flagged_kind_coded format) (mode_coded mode)
        (OfTwo Difference (whole x) (whole y))) answer.old answer.new result }
{
    let (x, y) = (x.number(), y.number());
    reply_in_kind(format, mode, DifferenceCall { x, y }, answer)
}

/// The product of two values, rounded once.
#[unsafe(no_mangle)]
pub extern "C" fn apfloat_mul(
    format: u32,
    mode: u32,
    x: Halves,
    y: Halves,
    answer: &mut Answer,
) -> u32
    ensures { IsReturned (known_call (flagged_kind_coded format) (mode_coded mode)
        (OfTwo Product (whole x) (whole y))) answer.old answer.new result }
{
    let (x, y) = (x.number(), y.number());
    reply_in_kind(format, mode, ProductCall { x, y }, answer)
}

/// The quotient of two values, rounded once.
#[unsafe(no_mangle)]
pub extern "C" fn apfloat_div(
    format: u32,
    mode: u32,
    x: Halves,
    y: Halves,
    answer: &mut Answer,
) -> u32
    ensures { IsReturned (known_call (flagged_kind_coded format) (mode_coded mode)
        (OfTwo Quotient (whole x) (whole y))) answer.old answer.new result }
{
    let (x, y) = (x.number(), y.number());
    reply_in_kind(format, mode, QuotientCall { x, y }, answer)
}

/// The remainder by the integer nearest to the quotient, ties to even.
#[unsafe(no_mangle)]
pub extern "C" fn apfloat_rem(format: u32, x: Halves, y: Halves, answer: &mut Answer) -> u32
    ensures { IsReturned (known_call (flagged_kind_coded format) (Some NearestTiesToEven)
        (OfTwo NearestRemainder (whole x) (whole y))) answer.old answer.new result }
{
    let (x, y) = (x.number(), y.number());
    reply(format, NEAREST_EVEN, NearestRemainderCall { x, y }, answer)
}

/// The remainder by the quotient truncated to an integer, like `fmod` in C.
#[unsafe(no_mangle)]
pub extern "C" fn apfloat_mod(format: u32, x: Halves, y: Halves, answer: &mut Answer) -> u32
    ensures { IsReturned (known_call (flagged_kind_coded format) (Some NearestTiesToEven)
        (OfTwo TruncatedRemainder (whole x) (whole y))) answer.old answer.new result }
{
    let (x, y) = (x.number(), y.number());
    reply(
        format,
        NEAREST_EVEN,
        TruncatedRemainderCall { x, y },
        answer,
    )
}

/// The product of two values plus a third, rounded once. Pairs of doubles do not have it.
#[unsafe(no_mangle)]
pub extern "C" fn apfloat_fma(
    format: u32,
    mode: u32,
    x: Halves,
    y: Halves,
    z: Halves,
    answer: &mut Answer,
) -> u32
    ensures { IsReturned (known_call (flagged_kind_coded format) (mode_coded mode)
        (FusedSum (whole x) (whole y) (whole z))) answer.old answer.new result }
{
    let (x, y, z) = (x.number(), y.number(), z.number());
    reply_in_kind(format, mode, FusedSumCall { x, y, z }, answer)
}

/// The square root of a value, rounded once.
#[unsafe(no_mangle)]
pub extern "C" fn apfloat_sqrt(format: u32, mode: u32, x: Halves, answer: &mut Answer) -> u32
    ensures { IsReturned (known_call (flagged_kind_coded format) (mode_coded mode)
        (SquareRoot (whole x))) answer.old answer.new result }
{
    reply_in_kind(format, mode, SquareRootCall { x: x.number() }, answer)
}

/// A value in another format; `number` says whether information was lost. Pairs of doubles have no conversion.
#[unsafe(no_mangle)]
pub extern "C" fn apfloat_convert(
    format: u32,
    mode: u32,
    to: u32,
    x: Halves,
    answer: &mut Answer,
) -> u32
    ensures { IsReturned (known_call (flagged_kind_coded format) (mode_coded mode)
        (Conversion (whole x) (flagged_kind_coded to))) answer.old answer.new result }
{
    reply_converted(format, mode, ConversionCall { x: x.number(), to }, answer)
}

/// An integer as a value, rounded once.
#[unsafe(no_mangle)]
pub extern "C" fn apfloat_from_u128(
    format: u32,
    mode: u32,
    number: Halves,
    answer: &mut Answer,
) -> u32
    ensures { IsReturned (known_call (flagged_kind_coded format) (mode_coded mode)
        (FromUnsigned (whole number))) answer.old answer.new result }
{
    let number = number.number();
    reply(format, mode, FromUnsignedCall { number }, answer)
}

/// An integer in two's complement as a value, rounded once.
#[unsafe(no_mangle)]
pub extern "C" fn apfloat_from_i128(
    format: u32,
    mode: u32,
    number: Halves,
    answer: &mut Answer,
) -> u32
    ensures { IsReturned (known_call (flagged_kind_coded format) (mode_coded mode)
        (FromSigned (cast_signed w128 (whole number)))) answer.old answer.new result }
{
    let number = number.number().cast_signed();
    reply(format, mode, FromSignedCall { number }, answer)
}

/// A value as an integer of `width` binary digits, 1 to 128, in `bits`; `number` says whether that equals the
/// value.
#[unsafe(no_mangle)]
pub extern "C" fn apfloat_to_u128(
    format: u32,
    mode: u32,
    x: Halves,
    width: u32,
    answer: &mut Answer,
) -> u32
    ensures { IsReturned (known_call (flagged_kind_coded format) (mode_coded mode)
        (ToUnsigned (whole x) width)) answer.old answer.new result }
{
    let x = x.number();
    reply_in_kind(format, mode, ToUnsignedCall { x, width }, answer)
}

/// A value as an integer of `width` binary digits, 2 to 128, in 128-bit two's complement, in `bits`; `number` says
/// whether that equals the value.
#[unsafe(no_mangle)]
pub extern "C" fn apfloat_to_i128(
    format: u32,
    mode: u32,
    x: Halves,
    width: u32,
    answer: &mut Answer,
) -> u32
    ensures { IsReturned (known_call (flagged_kind_coded format) (mode_coded mode)
        (ToSigned (whole x) width)) answer.old answer.new result }
{
    let x = x.number();
    reply_in_kind(format, mode, ToSignedCall { x, width }, answer)
}

/// A value rounded to an integer, as a value.
#[unsafe(no_mangle)]
pub extern "C" fn apfloat_round_to_integral(
    format: u32,
    mode: u32,
    x: Halves,
    answer: &mut Answer,
) -> u32
    ensures { IsReturned (known_call (flagged_kind_coded format) (mode_coded mode)
        (RoundToIntegral (whole x))) answer.old answer.new result }
{
    reply_in_kind(format, mode, RoundToIntegralCall { x: x.number() }, answer)
}

/// A value times 2 to the power of `power`, rounded once, without flags.
#[unsafe(no_mangle)]
pub extern "C" fn apfloat_scalbn(
    format: u32,
    mode: u32,
    x: Halves,
    power: i32,
    answer: &mut Answer,
) -> u32
    ensures { IsReturned (known_call (flagged_kind_coded format) (mode_coded mode)
        (Scaling (whole x) power)) answer.old answer.new result }
{
    let x = x.number();
    reply(format, mode, ScalingCall { x, power }, answer)
}

/// The exponent of the highest binary digit, in `number`.
#[unsafe(no_mangle)]
pub extern "C" fn apfloat_ilogb(format: u32, x: Halves, answer: &mut Answer) -> u32
    ensures { IsReturned (known_call (flagged_kind_coded format) (Some NearestTiesToEven)
        (Exponent (whole x))) answer.old answer.new result }
{
    reply(format, NEAREST_EVEN, ExponentCall { x: x.number() }, answer)
}

/// The fraction of a value, from a half to below 1, and its exponent in `number`. Only pairs of doubles use the mode.
#[unsafe(no_mangle)]
pub extern "C" fn apfloat_frexp(format: u32, mode: u32, x: Halves, answer: &mut Answer) -> u32
    ensures { IsReturned (known_call (flagged_kind_coded format) (mode_coded mode)
        (Fraction (whole x))) answer.old answer.new result }
{
    reply_in_kind(format, mode, FractionCall { x: x.number() }, answer)
}

/// The least value above the operand.
#[unsafe(no_mangle)]
pub extern "C" fn apfloat_next_up(format: u32, x: Halves, answer: &mut Answer) -> u32
    ensures { IsReturned (known_call (flagged_kind_coded format) (Some NearestTiesToEven)
        (NextUp (whole x))) answer.old answer.new result }
{
    reply(format, NEAREST_EVEN, NextUpCall { x: x.number() }, answer)
}

/// The greatest value below the operand.
#[unsafe(no_mangle)]
pub extern "C" fn apfloat_next_down(format: u32, x: Halves, answer: &mut Answer) -> u32
    ensures { IsReturned (known_call (flagged_kind_coded format) (Some NearestTiesToEven)
        (NextDown (whole x))) answer.old answer.new result }
{
    reply(format, NEAREST_EVEN, NextDownCall { x: x.number() }, answer)
}

/// The order of two values in `number`: -1, 0 or 1, and 2 if they are unordered.
#[unsafe(no_mangle)]
pub extern "C" fn apfloat_compare(format: u32, x: Halves, y: Halves, answer: &mut Answer) -> u32
    ensures { IsReturned (known_call (flagged_kind_coded format) (Some NearestTiesToEven)
        (Comparison (whole x) (whole y))) answer.old answer.new result }
{
    let (x, y) = (x.number(), y.number());
    reply_in_kind(format, NEAREST_EVEN, ComparisonCall { x, y }, answer)
}

/// The class of a value in `number` (IEEE 754-2019 5.7.2).
#[unsafe(no_mangle)]
pub extern "C" fn apfloat_classify(format: u32, x: Halves, answer: &mut Answer) -> u32
    ensures { IsReturned (known_call (flagged_kind_coded format) (Some NearestTiesToEven)
        (Class (whole x))) answer.old answer.new result }
{
    reply(format, NEAREST_EVEN, ClassCall { x: x.number() }, answer)
}

/// The value of a text, rounded once; a text with a byte above 127 is refused.
#[unsafe(no_mangle)]
pub extern "C" fn apfloat_parse(format: u32, mode: u32, text: &[u8], answer: &mut Answer) -> u32
    ensures { IsReturned (known_call (flagged_kind_coded format) (mode_coded mode)
        (Text text.entry)) answer.old answer.new result }
{
    reply(format, mode, TextCall { text }, answer)
}
