//! The calls of the exports. Each of them is a type, so that each export has its own choice of a format.

ghost use Rattle.std.specs.Prelude.{◌<◌};
ghost use Rattle.rustc_apfloat.specs.FlaggedTypes.{constants_of};
ghost use Rattle.formats_at_run_time.specs.{FlaggedKinds.flagged_kind_coded, Modes.mode_coded, Relations.relations_of};
ghost use Rattle.formats_at_run_time.specs.ValueKinds.{of_format, of_pairs};
ghost use Rattle.formats_at_run_time.specs.declared.Arithmetic.TheVariants.{Sum, Difference, Product, Quotient};
ghost use Rattle.formats_at_run_time.specs.declared.Arithmetic.TheVariants.{NearestRemainder, TruncatedRemainder};
ghost use Rattle.coded_calls.specs.declared.exported_call.ExportedCall.{ExportedCall, TheVariants.OfTwo};
ghost use Rattle.coded_calls.specs.declared.exported_call.ExportedCall.TheVariants.{FusedSum, SquareRoot, FromUnsigned};
ghost use Rattle.coded_calls.specs.declared.exported_call.ExportedCall.TheVariants.{FromSigned, ToUnsigned, ToSigned};
ghost use Rattle.coded_calls.specs.declared.exported_call.ExportedCall.TheVariants.{RoundToIntegral, Scaling, Fraction};
ghost use Rattle.coded_calls.specs.declared.exported_call.ExportedCall.TheVariants.{Exponent, NextUp, NextDown};
ghost use Rattle.coded_calls.specs.declared.exported_call.ExportedCall.TheVariants.{Comparison, Class, Conversion};
ghost use Rattle.coded_calls.specs.{declared.exported_call.ExportedCall.TheVariants.Text, Answers.IsLeft};
ghost use Rattle.coded_calls.specs.{Answers.IsReturned, Answers.IsTypeLeft, KnownCalls.known_in};

use crate::answers::{
    class, comparison, comparison_in, converted, difference, difference_in, exponent, fraction,
    from_signed, from_unsigned, fused_sum, nearest_remainder, next_down, next_up, product,
    product_in, quotient, quotient_in, read, root, root_in, round_to_integral,
    round_to_integral_in, scaled, sum, sum_in, to_signed, to_signed_in, to_unsigned,
    to_unsigned_in, truncated_remainder,
};
use crate::codes::{ANSWERED, NO_SUCH_OPERATION, UNKNOWN_FORMAT, UNKNOWN_MODE};
use crate::data::Answer;
use formats_at_run_time::{FillsInFormat, FillsInKind, FlaggedKind, ValueType, mode_coded};
use rustc_apfloat::ieee::{Flagged, IeeeFloat};
use rustc_apfloat::ppc::DoubleDouble;
use rustc_apfloat::{Float, Round};

/// A call with its operands, which every type of values has.
pub trait Operation: Copy {
    // Which call it is.
    ghost call: { Self → ExportedCall };

    /// Makes the call in the values of a type.
    fn made_in<V: ValueType>(self, round: Round, answer: &mut Answer) -> u32
        requires { V.PRECISION < V.BITS }
        ensures { let of_type = relations_of V.Float.own V.partial_cmp V.takes_root in
            IsTypeLeft of_type round (call self) answer.old answer.new result };
}

/// A call with its operands, which formats and pairs of doubles have separately.
pub trait KindOperation: Copy {
    // Which call it is.
    ghost call: { Self → ExportedCall };

    /// Makes the call in the format `S`.
    fn in_format<S: Flagged>(self, round: Round, answer: &mut Answer) -> u32
        requires { S.PRECISION < S.BITS }
        ensures { IsLeft (of_format (constants_of S.Flagged)) round (call self)
            answer.old answer.new result };

    /// Makes the call in pairs of doubles.
    fn in_pairs(self, round: Round, answer: &mut Answer) -> u32
        ensures { IsLeft of_pairs round (call self) answer.old answer.new result };
}

/// A call of every type of values, in the type that a kind of values has.
#[derive(Clone, Copy)]
pub struct InType<O> {
    /// The call.
    pub operation: O,
}

impl<O: Operation> KindOperation for InType<O> {
    ghost call = { λ it. O.call it.operation };

    #[inline(always)]
    fn in_format<S: Flagged>(self, round: Round, answer: &mut Answer) -> u32 {
        self.operation.made_in::<IeeeFloat<S>>(round, answer)
    }

    #[inline(always)]
    fn in_pairs(self, round: Round, answer: &mut Answer) -> u32 {
        self.operation.made_in::<DoubleDouble>(round, answer)
    }
}

/// A call with the code of its rounding mode.
#[derive(Clone, Copy)]
pub struct InMode<O> {
    /// The code of the rounding mode.
    pub mode: u32,
    /// The call.
    pub operation: O,
}

impl<O: KindOperation> FillsInFormat for InMode<O> {
    type Place = Answer;

    type Output = u32;

    ghost gives = { λ it kind old new code.
        IsReturned (known_in kind (mode_coded it.mode) (O.call it.operation)) old new code };

    #[inline(always)]
    fn fill_in_format<S: Flagged>(self, answer: &mut Answer) -> u32 {
        match mode_coded(self.mode) {
            None => UNKNOWN_MODE,
            Some(round) => self.operation.in_format::<S>(round, answer),
        }
    }
}

impl<O: KindOperation> FillsInKind for InMode<O> {
    #[inline(always)]
    fn fill_in_pairs(self, answer: &mut Answer) -> u32 {
        match mode_coded(self.mode) {
            None => UNKNOWN_MODE,
            Some(round) => self.operation.in_pairs(round, answer),
        }
    }
}

/// The sum of two values.
#[derive(Clone, Copy)]
pub struct SumCall {
    /// The first value.
    pub x: u128,
    /// The second value.
    pub y: u128,
}

impl KindOperation for SumCall {
    ghost call = { λ it. OfTwo Sum it.x it.y };

    #[inline(always)]
    fn in_format<S: Flagged>(self, round: Round, answer: &mut Answer) -> u32 {
        sum_in::<S>(answer, round, self.x, self.y);
        ANSWERED
    }

    #[inline(always)]
    fn in_pairs(self, round: Round, answer: &mut Answer) -> u32 {
        sum::<DoubleDouble>(answer, round, self.x, self.y);
        ANSWERED
    }
}

/// The difference of two values.
#[derive(Clone, Copy)]
pub struct DifferenceCall {
    /// The first value.
    pub x: u128,
    /// The second value.
    pub y: u128,
}

impl KindOperation for DifferenceCall {
    ghost call = { λ it. OfTwo Difference it.x it.y };

    #[inline(always)]
    fn in_format<S: Flagged>(self, round: Round, answer: &mut Answer) -> u32 {
        difference_in::<S>(answer, round, self.x, self.y);
        ANSWERED
    }

    #[inline(always)]
    fn in_pairs(self, round: Round, answer: &mut Answer) -> u32 {
        difference::<DoubleDouble>(answer, round, self.x, self.y);
        ANSWERED
    }
}

/// The product of two values.
#[derive(Clone, Copy)]
pub struct ProductCall {
    /// The first value.
    pub x: u128,
    /// The second value.
    pub y: u128,
}

impl KindOperation for ProductCall {
    ghost call = { λ it. OfTwo Product it.x it.y };

    #[inline(always)]
    fn in_format<S: Flagged>(self, round: Round, answer: &mut Answer) -> u32 {
        product_in::<S>(answer, round, self.x, self.y);
        ANSWERED
    }

    #[inline(always)]
    fn in_pairs(self, round: Round, answer: &mut Answer) -> u32 {
        product::<DoubleDouble>(answer, round, self.x, self.y);
        ANSWERED
    }
}

/// The quotient of two values.
#[derive(Clone, Copy)]
pub struct QuotientCall {
    /// The first value.
    pub x: u128,
    /// The second value.
    pub y: u128,
}

impl KindOperation for QuotientCall {
    ghost call = { λ it. OfTwo Quotient it.x it.y };

    #[inline(always)]
    fn in_format<S: Flagged>(self, round: Round, answer: &mut Answer) -> u32 {
        quotient_in::<S>(answer, round, self.x, self.y);
        ANSWERED
    }

    #[inline(always)]
    fn in_pairs(self, round: Round, answer: &mut Answer) -> u32 {
        quotient::<DoubleDouble>(answer, round, self.x, self.y);
        ANSWERED
    }
}

/// The remainder by the integer nearest to the quotient.
#[derive(Clone, Copy)]
pub struct NearestRemainderCall {
    /// The first value.
    pub x: u128,
    /// The second value.
    pub y: u128,
}

impl Operation for NearestRemainderCall {
    ghost call = { λ it. OfTwo NearestRemainder it.x it.y };

    #[inline(always)]
    fn made_in<V: ValueType>(self, round: Round, answer: &mut Answer) -> u32 {
        nearest_remainder::<V>(answer, round, self.x, self.y);
        ANSWERED
    }
}

/// The remainder by the quotient truncated to an integer.
#[derive(Clone, Copy)]
pub struct TruncatedRemainderCall {
    /// The first value.
    pub x: u128,
    /// The second value.
    pub y: u128,
}

impl Operation for TruncatedRemainderCall {
    ghost call = { λ it. OfTwo TruncatedRemainder it.x it.y };

    #[inline(always)]
    fn made_in<V: ValueType>(self, round: Round, answer: &mut Answer) -> u32 {
        truncated_remainder::<V>(answer, round, self.x, self.y);
        ANSWERED
    }
}

/// The product of two values plus a third.
#[derive(Clone, Copy)]
pub struct FusedSumCall {
    /// The first value.
    pub x: u128,
    /// The second value.
    pub y: u128,
    /// The third value.
    pub z: u128,
}

impl KindOperation for FusedSumCall {
    ghost call = { λ it. FusedSum it.x it.y it.z };

    #[inline(always)]
    fn in_format<S: Flagged>(self, round: Round, answer: &mut Answer) -> u32 {
        fused_sum::<S>(answer, round, self.x, self.y, self.z);
        ANSWERED
    }

    #[inline(always)]
    fn in_pairs(self, round: Round, answer: &mut Answer) -> u32 {
        NO_SUCH_OPERATION
    }
}

/// The square root of a value.
#[derive(Clone, Copy)]
pub struct SquareRootCall {
    /// The value.
    pub x: u128,
}

impl KindOperation for SquareRootCall {
    ghost call = { λ it. SquareRoot it.x };

    #[inline(always)]
    fn in_format<S: Flagged>(self, round: Round, answer: &mut Answer) -> u32 {
        root_in::<S>(answer, round, self.x);
        ANSWERED
    }

    #[inline(always)]
    fn in_pairs(self, round: Round, answer: &mut Answer) -> u32 {
        root::<DoubleDouble>(answer, round, self.x);
        ANSWERED
    }
}

/// An integer as a value.
#[derive(Clone, Copy)]
pub struct FromUnsignedCall {
    /// The number.
    pub number: u128,
}

impl Operation for FromUnsignedCall {
    ghost call = { λ it. FromUnsigned it.number };

    #[inline(always)]
    fn made_in<V: ValueType>(self, round: Round, answer: &mut Answer) -> u32 {
        from_unsigned::<V>(answer, round, self.number);
        ANSWERED
    }
}

/// A signed integer as a value.
#[derive(Clone, Copy)]
pub struct FromSignedCall {
    /// The number.
    pub number: i128,
}

impl Operation for FromSignedCall {
    ghost call = { λ it. FromSigned it.number };

    #[inline(always)]
    fn made_in<V: ValueType>(self, round: Round, answer: &mut Answer) -> u32 {
        from_signed::<V>(answer, round, self.number);
        ANSWERED
    }
}

/// A value as an integer.
#[derive(Clone, Copy)]
pub struct ToUnsignedCall {
    /// The value.
    pub x: u128,
    /// The binary digits of the integer.
    pub width: u32,
}

impl KindOperation for ToUnsignedCall {
    ghost call = { λ it. ToUnsigned it.x it.width };

    #[inline(always)]
    fn in_format<S: Flagged>(self, round: Round, answer: &mut Answer) -> u32 {
        to_unsigned_in::<S>(answer, round, self.x, self.width)
    }

    #[inline(always)]
    fn in_pairs(self, round: Round, answer: &mut Answer) -> u32 {
        to_unsigned::<DoubleDouble>(answer, round, self.x, self.width)
    }
}

/// A value as a signed integer.
#[derive(Clone, Copy)]
pub struct ToSignedCall {
    /// The value.
    pub x: u128,
    /// The binary digits of the integer.
    pub width: u32,
}

impl KindOperation for ToSignedCall {
    ghost call = { λ it. ToSigned it.x it.width };

    #[inline(always)]
    fn in_format<S: Flagged>(self, round: Round, answer: &mut Answer) -> u32 {
        to_signed_in::<S>(answer, round, self.x, self.width)
    }

    #[inline(always)]
    fn in_pairs(self, round: Round, answer: &mut Answer) -> u32 {
        to_signed::<DoubleDouble>(answer, round, self.x, self.width)
    }
}

/// A value rounded to an integral value.
#[derive(Clone, Copy)]
pub struct RoundToIntegralCall {
    /// The value.
    pub x: u128,
}

impl KindOperation for RoundToIntegralCall {
    ghost call = { λ it. RoundToIntegral it.x };

    #[inline(always)]
    fn in_format<S: Flagged>(self, round: Round, answer: &mut Answer) -> u32 {
        round_to_integral_in::<S>(answer, round, self.x)
    }

    #[inline(always)]
    fn in_pairs(self, round: Round, answer: &mut Answer) -> u32 {
        round_to_integral::<DoubleDouble>(answer, round, self.x);
        ANSWERED
    }
}

/// A value times a power of two.
#[derive(Clone, Copy)]
pub struct ScalingCall {
    /// The value.
    pub x: u128,
    /// The exponent of the power.
    pub power: i32,
}

impl Operation for ScalingCall {
    ghost call = { λ it. Scaling it.x it.power };

    #[inline(always)]
    fn made_in<V: ValueType>(self, round: Round, answer: &mut Answer) -> u32 {
        scaled::<V>(answer, round, self.x, self.power);
        ANSWERED
    }
}

/// The fraction of a value, with its exponent.
#[derive(Clone, Copy)]
pub struct FractionCall {
    /// The value.
    pub x: u128,
}

impl KindOperation for FractionCall {
    ghost call = { λ it. Fraction it.x };

    #[inline(always)]
    fn in_format<S: Flagged>(self, round: Round, answer: &mut Answer) -> u32 {
        // That `x` belongs to the format bounds its exponent, which therefore fits 32 bits.
        let _ = IeeeFloat::<S>::from_bits(self.x).category();
        fraction::<IeeeFloat<S>>(answer, round, self.x);
        ANSWERED
    }

    #[inline(always)]
    fn in_pairs(self, round: Round, answer: &mut Answer) -> u32 {
        // That both parts are doubles bounds the exponent, which therefore fits 32 bits.
        let _ = DoubleDouble::from_bits(self.x).category();
        fraction::<DoubleDouble>(answer, round, self.x);
        ANSWERED
    }
}

/// The exponent of the highest digit.
#[derive(Clone, Copy)]
pub struct ExponentCall {
    /// The value.
    pub x: u128,
}

impl Operation for ExponentCall {
    ghost call = { λ it. Exponent it.x };

    #[inline(always)]
    fn made_in<V: ValueType>(self, round: Round, answer: &mut Answer) -> u32 {
        exponent::<V>(answer, self.x);
        ANSWERED
    }
}

/// The least value above.
#[derive(Clone, Copy)]
pub struct NextUpCall {
    /// The value.
    pub x: u128,
}

impl Operation for NextUpCall {
    ghost call = { λ it. NextUp it.x };

    #[inline(always)]
    fn made_in<V: ValueType>(self, round: Round, answer: &mut Answer) -> u32 {
        next_up::<V>(answer, self.x);
        ANSWERED
    }
}

/// The greatest value below.
#[derive(Clone, Copy)]
pub struct NextDownCall {
    /// The value.
    pub x: u128,
}

impl Operation for NextDownCall {
    ghost call = { λ it. NextDown it.x };

    #[inline(always)]
    fn made_in<V: ValueType>(self, round: Round, answer: &mut Answer) -> u32 {
        next_down::<V>(answer, self.x);
        ANSWERED
    }
}

/// The order of two values.
#[derive(Clone, Copy)]
pub struct ComparisonCall {
    /// The first value.
    pub x: u128,
    /// The second value.
    pub y: u128,
}

impl KindOperation for ComparisonCall {
    ghost call = { λ it. Comparison it.x it.y };

    #[inline(always)]
    fn in_format<S: Flagged>(self, round: Round, answer: &mut Answer) -> u32 {
        comparison_in::<S>(answer, round, self.x, self.y);
        ANSWERED
    }

    #[inline(always)]
    fn in_pairs(self, round: Round, answer: &mut Answer) -> u32 {
        comparison::<DoubleDouble>(answer, self.x, self.y);
        ANSWERED
    }
}

/// The class of a value.
#[derive(Clone, Copy)]
pub struct ClassCall {
    /// The value.
    pub x: u128,
}

impl Operation for ClassCall {
    ghost call = { λ it. Class it.x };

    #[inline(always)]
    fn made_in<V: ValueType>(self, round: Round, answer: &mut Answer) -> u32 {
        class::<V>(answer, self.x);
        ANSWERED
    }
}

/// The value in another kind.
#[derive(Clone, Copy)]
pub struct ConversionCall {
    /// The value.
    pub x: u128,
    /// The code of the kind.
    pub to: u32,
}

impl KindOperation for ConversionCall {
    ghost call = { λ it. Conversion it.x (flagged_kind_coded it.to) };

    #[inline(always)]
    fn in_format<S: Flagged>(self, round: Round, answer: &mut Answer) -> u32 {
        converted::<S>(round, self.x, FlaggedKind::coded(self.to), answer)
    }

    #[inline(always)]
    fn in_pairs(self, round: Round, answer: &mut Answer) -> u32 {
        match FlaggedKind::coded(self.to) {
            None => UNKNOWN_FORMAT,
            Some(_) => NO_SUCH_OPERATION,
        }
    }
}

/// The value of a text.
#[derive(Clone, Copy)]
pub struct TextCall<'a> {
    /// The text.
    pub text: &'a [u8],
}

impl Operation for TextCall<'_> {
    ghost call = { λ it. Text it.text };

    #[inline(always)]
    fn made_in<V: ValueType>(self, round: Round, answer: &mut Answer) -> u32 {
        read::<V>(answer, round, self.text)
    }
}
