//! What machines deliver.

ghost use Rattle.std.specs.Prelude.{◌≡◌, ◌<◌, ◌≤◌, true, Ok};
ghost use Rattle.apfloat_model.specs.declared.kinds.NonfiniteBehavior.TheVariants.{IEEE754};
ghost use Rattle.rustc_apfloat.specs.{Flags.Gives, FlaggedTypes.constants_of, FlaggedTypes.format_of};
ghost use Rattle.rustc_apfloat.specs.Lawful.{format_with};
ghost use Rattle.apfloat_machines.specs.{Modulo.IsSignedModulo, Operations.IsOffered};
ghost use Rattle.apfloat_machines.specs.WholeNumbers.{IsMachineSigned, IsMachineUnsigned};
ghost use Rattle.formats_at_run_time.specs.declared.Arithmetic.{Arithmetic};
ghost use Rattle.formats_at_run_time.specs.declared.Arithmetic.TheVariants.{Sum, Difference, Product, Quotient};
ghost use Rattle.formats_at_run_time.specs.FlaggedKinds.{flagged_constants, flagged_kind_coded, after_rounding};
ghost use Rattle.formats_at_run_time.specs.{FlaggedKinds.before_rounding, Modes.mode_coded};
ghost use Rattle.formats_at_run_time.specs.ValueKinds.{of_format, value_of};
ghost use Rattle.coded_calls.specs.declared.machine_call.MachineCall.TheVariants.{Operation};
ghost use Rattle.coded_calls.specs.declared.machine_call.MachineOperation.TheVariants.{OfTwo, FusedSum, SquareRoot};
ghost use Rattle.coded_calls.specs.declared.machine_call.MachineOperation.TheVariants.{IntegralExact, Integral};
ghost use Rattle.coded_calls.specs.declared.machine_call.MachineOperation.TheVariants.{ToUnsigned, ToSigned, Least};
ghost use Rattle.coded_calls.specs.declared.machine_call.MachineOperation.TheVariants.{Greatest, ToSignedModulo};
ghost use Rattle.coded_calls.specs.declared.machine_call.MachineOperation.TheVariants.{ExtendedProduct, Range};
ghost use Rattle.coded_calls.specs.declared.machine_call.MachineOperation.TheVariants.{ToAlternativeHalf};
ghost use Rattle.coded_calls.specs.declared.machine_call.MachineOperation.TheVariants.{FromAlternativeHalf};
ghost use Rattle.coded_calls.specs.declared.exported_call.ExportedCall.TheVariants.{OfTwo as PlainOfTwo};
ghost use Rattle.coded_calls.specs.declared.exported_call.ExportedCall.TheVariants.{RoundToIntegral as PlainIntegral};
ghost use Rattle.coded_calls.specs.Answers.{IsKindAnswer, IsLeftBy, whole};
ghost use Rattle.coded_calls.specs.MachineCalls.{IsMachineAnswer, IsMachineCallAnswer, IsMachineConverted, IsFilledIn};
ghost use Rattle.coded_calls.specs.MachineCalls.{IsMachineConversionLeft, IsMachineLeft, ieee_format_coded};
ghost use Rattle.coded_calls.specs.MachineCalls.{IsMachineLeftIn, is_number, kind_on, machine_format_coded};
ghost use Rattle.coded_calls.specs.MachineCalls.{conversion_call, machine_fault, IsMachineReply, choices, format_on};
ghost use Rattle.coded_calls.specs.MachineCalls.{known_machine_call, machine_call, machine_coded, of_one};

use crate::answers;
use crate::coded_formats::{
    fill_coded_without_rule, fill_short_coded, fill_wide_coded, tiny_before_coded,
};
use crate::codes::{
    ANSWERED, LACKING_OPERATION, NO_SUCH_OPERATION, UNKNOWN_FORMAT, UNKNOWN_MACHINE, UNKNOWN_MODE,
    WIDE_OPERAND, WRONG_WIDTH, is_width,
};
use crate::data::{Answer, Halves};
use crate::ieee_answers::{value, written};
use crate::machine_call::{
    CodedMachine, MachineCall, MachineFormat, MachineOperation, OneOperation, known_setting,
    machine_call, machine_coded, one_code, two_code,
};
use crate::usual_operands::{
    are_normal, are_normal_of_three, are_usual, are_usual_of_three, both_fit, fits, is_divisor,
    is_normal, is_normal_beyond_words, is_number, is_root_of, one_word, three_words, two_words,
};
use apfloat_machines::{
    MinimumRule, RangeRule, default_nan, extended_product, from_alternative_half, greatest, least,
    range, settled, settled_conversion, settled_fused, settled_signed, settled_unary,
    settled_unsigned, to_alternative_half, to_signed_modulo,
};
use fast_bits::{add_normal, convert_normal, subtract_normal};
use formats_at_run_time::{Arithmetic, FillsInFormat, FlaggedKind, mode_coded};
use ieee_operations::round_to_integral_in;
use rustc_apfloat::ieee::{
    BFloatS, DoubleS, Flagged, Float8E5M2S, HalfS, IeeeFlags, IeeeFloat, QuadS, SingleS,
    TinyBefore, X87DoubleExtendedS,
};
use rustc_apfloat::{Float, FloatConvert, Round, Status, StatusAnd};
use std::marker::PhantomData;

/// An operation of a machine.
#[derive(Clone, Copy)]
struct OnMachine {
    machine: CodedMachine,
    round: Round,
    operation: MachineOperation,
}

impl FillsInFormat for OnMachine {
    type Place = Answer;

    type Output = u32;

    ghost gives = { λ it kind old new code.
        IsMachineLeftIn kind it.machine it.round it.operation old new code };

    #[inline(always)]
    fn fill_in_format<S: Flagged>(self, answer: &mut Answer) -> u32 {
        let OnMachine {
            machine,
            round,
            operation,
        } = self;
        match operation {
            MachineOperation::OfTwo(arithmetic, x, y) => {
                two_in::<S>(answer, machine, round, arithmetic, x, y)
            }
            MachineOperation::FusedSum(x, y, z) => {
                fused_sum_in::<S>(answer, machine, round, x, y, z)
            }
            MachineOperation::SquareRoot(x) => root_in::<S>(answer, machine, round, x),
            MachineOperation::IntegralExact(x) => {
                integral_exact_in::<S>(answer, machine, round, x)
            }
            MachineOperation::Integral(x) => integral_in::<S>(answer, machine, round, x),
            MachineOperation::ToUnsigned(x, width) => {
                to_unsigned_in::<S>(answer, machine, round, x, width)
            }
            MachineOperation::ToSigned(x, width) => {
                to_signed_in::<S>(answer, machine, round, x, width)
            }
            MachineOperation::Least(rule, x, y) => {
                lesser_in::<S>(answer, machine, round, rule, x, y)
            }
            MachineOperation::Greatest(rule, x, y) => {
                greater_in::<S>(answer, machine, round, rule, x, y)
            }
            MachineOperation::ToSignedModulo(x, width) => {
                modulo_in::<S>(answer, machine, round, x, width)
            }
            MachineOperation::ExtendedProduct(x, y) => {
                extended_in::<S>(answer, machine, round, x, y)
            }
            MachineOperation::Range(rule, x, y) => {
                range_in::<S>(answer, machine, round, rule, x, y)
            }
            MachineOperation::ToAlternativeHalf(x) => {
                to_alternative_half_in::<S>(answer, machine, round, x)
            }
            MachineOperation::FromAlternativeHalf(x) => {
                from_alternative_half_in::<S>(answer, machine, round, x)
            }
        }
    }
}

/// An operation of a machine on two words.
#[derive(Clone, Copy)]
struct TwoWordsOnMachine {
    machine: CodedMachine,
    round: Round,
    arithmetic: Arithmetic,
    x: u64,
    y: u64,
}

impl FillsInFormat for TwoWordsOnMachine {
    type Place = Answer;

    type Output = u32;

    ghost gives = { λ it kind old new code.
        IsMachineLeftIn kind it.machine it.round (OfTwo it.arithmetic it.x it.y) old new code };

    #[inline(always)]
    fn fill_in_format<S: Flagged>(self, answer: &mut Answer) -> u32 {
        two_of_words::<S>(
            answer,
            self.machine,
            self.round,
            self.arithmetic,
            self.x,
            self.y,
        )
    }
}

/// An operation of a machine on two values of more than 64 bits.
#[derive(Clone, Copy)]
struct TwoOnMachine {
    machine: CodedMachine,
    round: Round,
    arithmetic: Arithmetic,
    x: u128,
    y: u128,
}

impl FillsInFormat for TwoOnMachine {
    type Place = Answer;

    type Output = u32;

    ghost gives = { λ it kind old new code.
        IsMachineLeftIn kind it.machine it.round (OfTwo it.arithmetic it.x it.y) old new code };

    #[inline(always)]
    fn fill_in_format<S: Flagged>(self, answer: &mut Answer) -> u32 {
        two_of_values::<S>(
            answer,
            self.machine,
            self.round,
            self.arithmetic,
            self.x,
            self.y,
        )
    }
}

/// The fused sum of a machine, of words.
#[derive(Clone, Copy)]
struct FusedWordsOnMachine {
    machine: CodedMachine,
    round: Round,
    x: u64,
    y: u64,
    z: u64,
}

impl FillsInFormat for FusedWordsOnMachine {
    type Place = Answer;

    type Output = u32;

    ghost gives = { λ it kind old new code.
        IsMachineLeftIn kind it.machine it.round (FusedSum it.x it.y it.z) old new code };

    #[inline(always)]
    fn fill_in_format<S: Flagged>(self, answer: &mut Answer) -> u32 {
        fused_sum_of_words::<S>(answer, self.machine, self.round, self.x, self.y, self.z)
    }
}

/// The fused sum of a machine, of values of more than 64 bits.
#[derive(Clone, Copy)]
struct FusedOnMachine {
    machine: CodedMachine,
    round: Round,
    x: u128,
    y: u128,
    z: u128,
}

impl FillsInFormat for FusedOnMachine {
    type Place = Answer;

    type Output = u32;

    ghost gives = { λ it kind old new code.
        IsMachineLeftIn kind it.machine it.round (FusedSum it.x it.y it.z) old new code };

    #[inline(always)]
    fn fill_in_format<S: Flagged>(self, answer: &mut Answer) -> u32 {
        fused_sum_of_values::<S>(answer, self.machine, self.round, self.x, self.y, self.z)
    }
}

/// An operation of a machine on one word.
#[derive(Clone, Copy)]
struct OneWordOnMachine {
    machine: CodedMachine,
    round: Round,
    operation: OneOperation,
    to: u32,
    x: u64,
}

impl FillsInFormat for OneWordOnMachine {
    type Place = Answer;

    type Output = u32;

    ghost gives = { λ it kind old new code.
        IsMachineLeftIn kind it.machine it.round (of_one it.operation it.to it.x) old new code };

    #[inline(always)]
    fn fill_in_format<S: Flagged>(self, answer: &mut Answer) -> u32 {
        let OneWordOnMachine {
            machine,
            round,
            operation,
            to,
            x,
        } = self;
        match operation {
            OneOperation::SquareRoot => root_in::<S>(answer, machine, round, x as u128),
            OneOperation::IntegralExact => {
                integral_exact_of_word::<S>(answer, machine, round, x)
            }
            OneOperation::Integral => integral_in::<S>(answer, machine, round, x as u128),
            OneOperation::ToUnsigned => { to_unsigned_of_word::<S>(answer, machine, round, x, to) }
            OneOperation::ToSigned => { to_signed_of_word::<S>(answer, machine, round, x, to) }
        }
    }
}

/// An operation of a machine on one value of more than 64 bits.
#[derive(Clone, Copy)]
struct OneOnMachine {
    machine: CodedMachine,
    round: Round,
    operation: OneOperation,
    to: u32,
    x: u128,
}

impl FillsInFormat for OneOnMachine {
    type Place = Answer;

    type Output = u32;

    ghost gives = { λ it kind old new code.
        IsMachineLeftIn kind it.machine it.round (of_one it.operation it.to it.x) old new code };

    #[inline(always)]
    fn fill_in_format<S: Flagged>(self, answer: &mut Answer) -> u32 {
        let OneOnMachine {
            machine,
            round,
            operation,
            to,
            x,
        } = self;
        match operation {
            OneOperation::SquareRoot => root_in::<S>(answer, machine, round, x),
            OneOperation::IntegralExact => {
                integral_exact_of_value::<S>(answer, machine, round, x)
            }
            OneOperation::Integral => integral_in::<S>(answer, machine, round, x),
            OneOperation::ToUnsigned => { to_unsigned_of_value::<S>(answer, machine, round, x, to) }
            OneOperation::ToSigned => { to_signed_of_value::<S>(machine, x, round, to, answer) }
        }
    }
}

/// An operation on two values. In a format of at most 64 bits they are passed as words, so that all arguments of the
/// call are in registers.
#[inline(always)]
fn two_in<S: Flagged>(
    answer: &mut Answer,
    machine: CodedMachine,
    round: Round,
    arithmetic: Arithmetic,
    x: u128,
    y: u128,
) -> u32
    requires { S.PRECISION < S.BITS }
    ensures { IsMachineLeftIn (of_format (constants_of S.Flagged)) machine round
        (OfTwo arithmetic x y) answer.old answer.new result }
{
    if S::BITS <= 64 {
        if let Some((x, y)) = two_words(x, y) {
            two_of_words::<S>(answer, machine, round, arithmetic, x, y)
        } else {
            of_two::<S>(answer, machine, round, arithmetic, x, y)
        }
    } else {
        two_of_values::<S>(answer, machine, round, arithmetic, x, y)
    }
}

/// An operation on two words. Those that are frequent have a function of their own.
#[inline(always)]
fn two_of_words<S: Flagged>(
    answer: &mut Answer,
    machine: CodedMachine,
    round: Round,
    arithmetic: Arithmetic,
    x: u64,
    y: u64,
) -> u32
    requires { S.PRECISION < S.BITS }
    ensures { IsMachineLeftIn (of_format (constants_of S.Flagged)) machine round
        (OfTwo arithmetic x y) answer.old answer.new result }
{
    match arithmetic {
        Arithmetic::Sum => sum_of_words::<S>(answer, machine, round, x, y),
        Arithmetic::Difference => difference_of_words::<S>(answer, machine, round, x, y),
        Arithmetic::Product => product_of_words::<S>(answer, machine, round, x, y),
        Arithmetic::Quotient => quotient_of_words::<S>(answer, machine, round, x, y),
        Arithmetic::NearestRemainder => {
            of_two_in::<S>(answer, machine, round, arithmetic, x as u128, y as u128)
        }
        Arithmetic::TruncatedRemainder => {
            of_two_in::<S>(answer, machine, round, arithmetic, x as u128, y as u128)
        }
    }
}

/// An operation on two values. Those that are frequent have a function of their own.
#[inline(always)]
fn two_of_values<S: Flagged>(
    answer: &mut Answer,
    machine: CodedMachine,
    round: Round,
    arithmetic: Arithmetic,
    x: u128,
    y: u128,
) -> u32
    requires { S.PRECISION < S.BITS }
    ensures { IsMachineLeftIn (of_format (constants_of S.Flagged)) machine round
        (OfTwo arithmetic x y) answer.old answer.new result }
{
    match arithmetic {
        Arithmetic::Sum => sum_of_values::<S>(answer, machine, round, x, y),
        Arithmetic::Difference => difference_of_values::<S>(answer, machine, round, x, y),
        Arithmetic::Product => product_of_values::<S>(answer, machine, round, x, y),
        Arithmetic::Quotient => quotient_of_values::<S>(answer, machine, round, x, y),
        Arithmetic::NearestRemainder => of_two_in::<S>(answer, machine, round, arithmetic, x, y),
        Arithmetic::TruncatedRemainder => of_two_in::<S>(answer, machine, round, arithmetic, x, y),
    }
}

/// A sum of words: the plain one from bits to bits, if it and they are normal numbers. That is every machine's.
#[inline(never)]
fn sum_of_words<S: Flagged>(
    answer: &mut Answer,
    machine: CodedMachine,
    round: Round,
    x: u64,
    y: u64,
) -> u32
    requires { S.PRECISION < S.BITS }
    ensures { IsMachineLeftIn (of_format (constants_of S.Flagged)) machine round
        (OfTwo Sum x y) answer.old answer.new result }
{
    let (x, y) = (x as u128, y as u128);
    if both_fit::<S>(x, y) {
        if let Some(sum) = add_normal::<S>(x, y, round) {
            *answer = answers::with_bits(sum);
            return ANSWERED;
        }
    }
    of_two_in::<S>(answer, machine, round, Arithmetic::Sum, x, y)
}

/// A difference of words: the plain one from bits to bits, if it and they are normal numbers.
#[inline(never)]
fn difference_of_words<S: Flagged>(
    answer: &mut Answer,
    machine: CodedMachine,
    round: Round,
    x: u64,
    y: u64,
) -> u32
    requires { S.PRECISION < S.BITS }
    ensures { IsMachineLeftIn (of_format (constants_of S.Flagged)) machine round
        (OfTwo Difference x y) answer.old answer.new result }
{
    let (x, y) = (x as u128, y as u128);
    if both_fit::<S>(x, y) {
        if let Some(difference) = subtract_normal::<S>(x, y, round) {
            *answer = answers::with_bits(difference);
            return ANSWERED;
        }
    }
    of_two_in::<S>(answer, machine, round, Arithmetic::Difference, x, y)
}

/// A product of words.
#[inline(never)]
fn product_of_words<S: Flagged>(
    answer: &mut Answer,
    machine: CodedMachine,
    round: Round,
    x: u64,
    y: u64,
) -> u32
    requires { S.PRECISION < S.BITS }
    ensures { IsMachineLeftIn (of_format (constants_of S.Flagged)) machine round
        (OfTwo Product x y) answer.old answer.new result }
{
    normal_of_two::<S, ProductInLine>(ProductInLine, answer, machine, round, x as u128, y as u128)
}

/// A quotient of words.
#[inline(never)]
fn quotient_of_words<S: Flagged>(
    answer: &mut Answer,
    machine: CodedMachine,
    round: Round,
    x: u64,
    y: u64,
) -> u32
    requires { S.PRECISION < S.BITS }
    ensures { IsMachineLeftIn (of_format (constants_of S.Flagged)) machine round
        (OfTwo Quotient x y) answer.old answer.new result }
{
    normal_of_two::<S, QuotientInLine>(QuotientInLine, answer, machine, round, x as u128, y as u128)
}

/// A sum of values.
#[inline(never)]
fn sum_of_values<S: Flagged>(
    answer: &mut Answer,
    machine: CodedMachine,
    round: Round,
    x: u128,
    y: u128,
) -> u32
    requires { S.PRECISION < S.BITS }
    ensures { IsMachineLeftIn (of_format (constants_of S.Flagged)) machine round
        (OfTwo Sum x y) answer.old answer.new result }
{
    normal_of_two::<S, SumInLine>(SumInLine, answer, machine, round, x, y)
}

/// A difference of values.
#[inline(never)]
fn difference_of_values<S: Flagged>(
    answer: &mut Answer,
    machine: CodedMachine,
    round: Round,
    x: u128,
    y: u128,
) -> u32
    requires { S.PRECISION < S.BITS }
    ensures { IsMachineLeftIn (of_format (constants_of S.Flagged)) machine round
        (OfTwo Difference x y) answer.old answer.new result }
{
    normal_of_two::<S, DifferenceInLine>(DifferenceInLine, answer, machine, round, x, y)
}

/// A product of values.
#[inline(never)]
fn product_of_values<S: Flagged>(
    answer: &mut Answer,
    machine: CodedMachine,
    round: Round,
    x: u128,
    y: u128,
) -> u32
    requires { S.PRECISION < S.BITS }
    ensures { IsMachineLeftIn (of_format (constants_of S.Flagged)) machine round
        (OfTwo Product x y) answer.old answer.new result }
{
    normal_of_two::<S, ProductInLine>(ProductInLine, answer, machine, round, x, y)
}

/// A quotient of values.
#[inline(never)]
fn quotient_of_values<S: Flagged>(
    answer: &mut Answer,
    machine: CodedMachine,
    round: Round,
    x: u128,
    y: u128,
) -> u32
    requires { S.PRECISION < S.BITS }
    ensures { IsMachineLeftIn (of_format (constants_of S.Flagged)) machine round
        (OfTwo Quotient x y) answer.old answer.new result }
{
    normal_of_two::<S, QuotientInLine>(QuotientInLine, answer, machine, round, x, y)
}

/// An operation on two values whose plain call is made in line. As one match of all, these would be too long for that.
trait InLine: Copy {
    // Which operation it is.
    ghost arithmetic: { Self → Arithmetic };

    /// Which operation it is.
    fn arithmetic(self) -> Arithmetic
        ensures { result ≡ arithmetic self };

    /// The plain call, in line.
    fn plain_here<S: Flagged>(self, answer: &mut Answer, round: Round, x: u128, y: u128)
        requires { S.PRECISION < S.BITS }
        ensures { let kind = of_format (constants_of S.Flagged) in
            IsKindAnswer kind round (PlainOfTwo (arithmetic self) x y) answer.new };
}

/// The sum of two values.
#[derive(Clone, Copy)]
struct SumInLine;

impl InLine for SumInLine {
    ghost arithmetic = { λ it. Sum };

    #[inline(always)]
    fn arithmetic(self) -> Arithmetic {
        Arithmetic::Sum
    }

    #[inline(always)]
    fn plain_here<S: Flagged>(self, answer: &mut Answer, round: Round, x: u128, y: u128) {
        answers::sum_of_type_here::<IeeeFloat<S>>(answer, round, x, y);
    }
}

/// The difference of two values.
#[derive(Clone, Copy)]
struct DifferenceInLine;

impl InLine for DifferenceInLine {
    ghost arithmetic = { λ it. Difference };

    #[inline(always)]
    fn arithmetic(self) -> Arithmetic {
        Arithmetic::Difference
    }

    #[inline(always)]
    fn plain_here<S: Flagged>(self, answer: &mut Answer, round: Round, x: u128, y: u128) {
        answers::difference_of_type_here::<IeeeFloat<S>>(answer, round, x, y);
    }
}

/// The product of two values.
#[derive(Clone, Copy)]
struct ProductInLine;

impl InLine for ProductInLine {
    ghost arithmetic = { λ it. Product };

    #[inline(always)]
    fn arithmetic(self) -> Arithmetic {
        Arithmetic::Product
    }

    #[inline(always)]
    fn plain_here<S: Flagged>(self, answer: &mut Answer, round: Round, x: u128, y: u128) {
        answers::product_here::<S>(answer, round, x, y);
    }
}

/// The quotient of two values.
#[derive(Clone, Copy)]
struct QuotientInLine;

impl InLine for QuotientInLine {
    ghost arithmetic = { λ it. Quotient };

    #[inline(always)]
    fn arithmetic(self) -> Arithmetic {
        Arithmetic::Quotient
    }

    #[inline(always)]
    fn plain_here<S: Flagged>(self, answer: &mut Answer, round: Round, x: u128, y: u128) {
        answers::quotient_here::<S>(answer, round, x, y);
    }
}

/// An operation on two values: the plain one in line, if they are normal numbers.
#[inline(always)]
fn normal_of_two<S: Flagged, O: InLine>(
    operation: O,
    answer: &mut Answer,
    machine: CodedMachine,
    round: Round,
    x: u128,
    y: u128,
) -> u32
    requires { S.PRECISION < S.BITS }
    ensures { IsMachineLeftIn (of_format (constants_of S.Flagged)) machine round
        (OfTwo (O.arithmetic operation) x y) answer.old answer.new result }
{
    if are_normal::<S>(x, y) {
        operation.plain_here::<S>(answer, round, x, y);
        ANSWERED
    } else {
        of_two_in::<S>(answer, machine, round, operation.arithmetic(), x, y)
    }
}

/// An operation on two values: the plain call, if the operands are usual.
#[inline(never)]
fn of_two_in<S: Flagged>(
    answer: &mut Answer,
    machine: CodedMachine,
    round: Round,
    arithmetic: Arithmetic,
    x: u128,
    y: u128,
) -> u32
    requires { S.PRECISION < S.BITS }
    ensures { IsMachineLeftIn (of_format (constants_of S.Flagged)) machine round
        (OfTwo arithmetic x y) answer.old answer.new result }
{
    if are_usual::<S>(arithmetic, x, y) {
        plain_of_two::<S>(answer, round, arithmetic, x, y);
        ANSWERED
    } else {
        of_two::<S>(answer, machine, round, arithmetic, x, y)
    }
}

/// The plain call of an operation on two values.
#[inline(always)]
fn plain_of_two<S: Flagged>(
    answer: &mut Answer,
    round: Round,
    arithmetic: Arithmetic,
    x: u128,
    y: u128,
)
    requires { S.PRECISION < S.BITS }
    ensures { let kind = of_format (constants_of S.Flagged) in
        IsKindAnswer kind round (PlainOfTwo arithmetic x y) answer.new }
{
    match arithmetic {
        Arithmetic::Sum => answers::sum_in::<S>(answer, round, x, y),
        Arithmetic::Difference => answers::difference_in::<S>(answer, round, x, y),
        Arithmetic::Product => answers::product_in::<S>(answer, round, x, y),
        Arithmetic::Quotient => answers::quotient_in::<S>(answer, round, x, y),
        Arithmetic::NearestRemainder => {
            answers::nearest_remainder::<IeeeFloat<S>>(answer, round, x, y)
        }
        Arithmetic::TruncatedRemainder => {
            answers::truncated_remainder::<IeeeFloat<S>>(answer, round, x, y)
        }
    }
}

/// An operation on two values.
#[cold]
#[inline(never)]
fn of_two<S: Flagged>(
    answer: &mut Answer,
    machine: CodedMachine,
    round: Round,
    arithmetic: Arithmetic,
    x: u128,
    y: u128,
) -> u32
    requires { S.PRECISION < S.BITS }
    ensures { IsMachineLeftIn (of_format (constants_of S.Flagged)) machine round
        (OfTwo arithmetic x y) answer.old answer.new result }
{
    if !both_fit::<S>(x, y) {
        return WIDE_OPERAND;
    }
    let (x, y) = (value::<S>(x), value::<S>(y));
    *answer = written(settled(machine.choices(), x, y, arithmetic.answer(x, y, round)));
    ANSWERED
}

/// A product plus a third value, rounded once, of operands that are passed as words in a format of at most 64 bits.
#[inline(always)]
fn fused_sum_in<S: Flagged>(
    answer: &mut Answer,
    machine: CodedMachine,
    round: Round,
    x: u128,
    y: u128,
    z: u128,
) -> u32
    requires { S.PRECISION < S.BITS }
    ensures { IsMachineLeftIn (of_format (constants_of S.Flagged)) machine round (FusedSum x y z)
        answer.old answer.new result }
{
    if S::BITS <= 64 {
        if let Some((x, y, z)) = three_words(x, y, z) {
            fused_sum_of_words::<S>(answer, machine, round, x, y, z)
        } else {
            fused_sum::<S>(answer, machine, round, x, y, z)
        }
    } else {
        fused_sum_of_values::<S>(answer, machine, round, x, y, z)
    }
}

/// A product plus a third value, rounded once, of words.
#[inline(never)]
fn fused_sum_of_words<S: Flagged>(
    answer: &mut Answer,
    machine: CodedMachine,
    round: Round,
    x: u64,
    y: u64,
    z: u64,
) -> u32
    requires { S.PRECISION < S.BITS }
    ensures { IsMachineLeftIn (of_format (constants_of S.Flagged)) machine round (FusedSum x y z)
        answer.old answer.new result }
{
    normal_fused_sum::<S>(answer, machine, round, x as u128, y as u128, z as u128)
}

/// A product plus a third value, rounded once, of values.
#[inline(never)]
fn fused_sum_of_values<S: Flagged>(
    answer: &mut Answer,
    machine: CodedMachine,
    round: Round,
    x: u128,
    y: u128,
    z: u128,
) -> u32
    requires { S.PRECISION < S.BITS }
    ensures { IsMachineLeftIn (of_format (constants_of S.Flagged)) machine round (FusedSum x y z)
        answer.old answer.new result }
{
    normal_fused_sum::<S>(answer, machine, round, x, y, z)
}

/// A product plus a third value, rounded once: the plain one in line, if the operands are normal numbers.
#[inline(always)]
fn normal_fused_sum<S: Flagged>(
    answer: &mut Answer,
    machine: CodedMachine,
    round: Round,
    x: u128,
    y: u128,
    z: u128,
) -> u32
    requires { S.PRECISION < S.BITS }
    ensures { IsMachineLeftIn (of_format (constants_of S.Flagged)) machine round (FusedSum x y z)
        answer.old answer.new result }
{
    if machine.has_fused() && are_normal_of_three::<S>(x, y, z) {
        answers::fused_sum_here::<S>(answer, round, x, y, z);
        ANSWERED
    } else {
        usual_fused_sum::<S>(answer, machine, round, x, y, z)
    }
}

/// A product plus a third value, rounded once: the plain call, if the operands are numbers.
#[inline(never)]
fn usual_fused_sum<S: Flagged>(
    answer: &mut Answer,
    machine: CodedMachine,
    round: Round,
    x: u128,
    y: u128,
    z: u128,
) -> u32
    requires { S.PRECISION < S.BITS }
    ensures { IsMachineLeftIn (of_format (constants_of S.Flagged)) machine round (FusedSum x y z)
        answer.old answer.new result }
{
    if machine.has_fused() && are_usual_of_three::<S>(x, y, z) {
        answers::fused_sum::<S>(answer, round, x, y, z);
        ANSWERED
    } else {
        fused_sum::<S>(answer, machine, round, x, y, z)
    }
}

/// A product plus a third value, rounded once.
#[cold]
#[inline(never)]
fn fused_sum<S: Flagged>(
    answer: &mut Answer,
    machine: CodedMachine,
    round: Round,
    x: u128,
    y: u128,
    z: u128,
) -> u32
    requires { S.PRECISION < S.BITS }
    ensures { IsMachineLeftIn (of_format (constants_of S.Flagged)) machine round (FusedSum x y z)
        answer.old answer.new result }
{
    if !(fits::<S>(x) && both_fit::<S>(y, z)) {
        return WIDE_OPERAND;
    }
    settled_fused_sum::<S>(answer, machine, round, x, y, z)
}

/// A product plus a third value, rounded once, as the machine gives it, if it has that.
#[inline(always)]
fn settled_fused_sum<S: Flagged>(
    answer: &mut Answer,
    machine: CodedMachine,
    round: Round,
    x: u128,
    y: u128,
    z: u128,
) -> u32
    requires { S.PRECISION < S.BITS }
    ensures { (format_of S.Flagged).nonfinite ≡ IEEE754
        → IsMachineLeft (constants_of S.Flagged) machine round (FusedSum x y z)
        answer.old answer.new result }
{
    let (x, y, z) = (value::<S>(x), value::<S>(y), value::<S>(z));
    match settled_fused(machine.choices(), x, y, z, x.wide_mul_add_r(y, z, round)) {
        None => LACKING_OPERATION,
        Some(sum) => {
            *answer = written(sum);
            ANSWERED
        }
    }
}

/// The square root of a value: the plain one in line of a positive number or of +0, and of a negative number the
/// machine's NaN.
#[inline(never)]
fn root_in<S: Flagged>(answer: &mut Answer, machine: CodedMachine, round: Round, x: u128) -> u32
    requires { S.PRECISION < S.BITS }
    ensures { IsMachineLeftIn (of_format (constants_of S.Flagged)) machine round (SquareRoot x)
        answer.old answer.new result }
{
    if is_root_of::<S>(x) {
        answers::root_here::<S>(answer, round, x);
        ANSWERED
    } else if is_divisor::<S>(x) {
        *answer = written(Status::INVALID_OP.and(default_nan::<S>(machine.choices())));
        ANSWERED
    } else {
        root::<S>(answer, machine, round, x)
    }
}

/// The square root of a value.
#[cold]
#[inline(never)]
fn root<S: Flagged>(answer: &mut Answer, machine: CodedMachine, round: Round, x: u128) -> u32
    requires { S.PRECISION < S.BITS }
    ensures { IsMachineLeftIn (of_format (constants_of S.Flagged)) machine round (SquareRoot x)
        answer.old answer.new result }
{
    if !fits::<S>(x) {
        return WIDE_OPERAND;
    }
    let x = value::<S>(x);
    *answer = written(settled_unary(machine.choices(), x, x.sqrt_r(round)));
    ANSWERED
}

/// A value rounded to an integral value, with INEXACT. In a format of at most 64 bits it is passed as a word.
#[inline(always)]
fn integral_exact_in<S: Flagged>(
    answer: &mut Answer,
    machine: CodedMachine,
    round: Round,
    x: u128,
) -> u32
    requires { S.PRECISION < S.BITS }
    ensures { IsMachineLeftIn (of_format (constants_of S.Flagged)) machine round (IntegralExact x)
        answer.old answer.new result }
{
    if S::BITS <= 64 {
        if let Some(x) = one_word(x) {
            integral_exact_of_word::<S>(answer, machine, round, x)
        } else {
            integral_exact::<S>(answer, machine, round, x)
        }
    } else {
        integral_exact_of_value::<S>(answer, machine, round, x)
    }
}

/// A word rounded to an integral value, with INEXACT.
#[inline(never)]
fn integral_exact_of_word<S: Flagged>(
    answer: &mut Answer,
    machine: CodedMachine,
    round: Round,
    x: u64,
) -> u32
    requires { S.PRECISION < S.BITS }
    ensures { IsMachineLeftIn (of_format (constants_of S.Flagged)) machine round (IntegralExact x)
        answer.old answer.new result }
{
    integral_exact_here::<S>(answer, machine, round, x as u128)
}

/// A value of more than 64 bits rounded to an integral value, with INEXACT.
#[inline(never)]
fn integral_exact_of_value<S: Flagged>(
    answer: &mut Answer,
    machine: CodedMachine,
    round: Round,
    x: u128,
) -> u32
    requires { S.PRECISION < S.BITS }
    ensures { IsMachineLeftIn (of_format (constants_of S.Flagged)) machine round (IntegralExact x)
        answer.old answer.new result }
{
    integral_exact_here::<S>(answer, machine, round, x)
}

/// A value rounded to an integral value, with INEXACT, in line: the plain one of a normal number, which is found by a
/// test that the plain call makes too.
#[inline(always)]
fn integral_exact_here<S: Flagged>(
    answer: &mut Answer,
    machine: CodedMachine,
    round: Round,
    x: u128,
) -> u32
    requires { S.PRECISION < S.BITS }
    ensures { IsMachineLeftIn (of_format (constants_of S.Flagged)) machine round (IntegralExact x)
        answer.old answer.new result }
{
    if is_normal::<S>(x) {
        plain_integral_exact::<S>(answer, round, x);
        ANSWERED
    } else {
        usual_integral_exact::<S>(answer, machine, round, x)
    }
}

/// A value rounded to an integral value, with INEXACT, as the plain call gives it: in line, unless the integer bit is
/// explicit, where it is too long.
#[inline(always)]
fn plain_integral_exact<S: Flagged>(answer: &mut Answer, round: Round, x: u128)
    requires { S.PRECISION < S.BITS }
    ensures { IsKindAnswer (of_format (constants_of S.Flagged)) round (PlainIntegral x) answer.new }
{
    if S::EXPLICIT_INTEGER_BIT {
        answers::round_to_integral::<IeeeFloat<S>>(answer, round, x)
    } else {
        answers::round_to_integral_here::<IeeeFloat<S>>(answer, round, x)
    }
}

/// A value rounded to an integral value, with INEXACT: the plain call, if the operand is a number.
#[inline(always)]
fn usual_integral_exact<S: Flagged>(
    answer: &mut Answer,
    machine: CodedMachine,
    round: Round,
    x: u128,
) -> u32
    requires { S.PRECISION < S.BITS }
    ensures { IsMachineLeftIn (of_format (constants_of S.Flagged)) machine round (IntegralExact x)
        answer.old answer.new result }
{
    if is_number::<S>(x) {
        plain_integral_exact::<S>(answer, round, x);
        ANSWERED
    } else {
        integral_exact::<S>(answer, machine, round, x)
    }
}

/// A value rounded to an integral value, with INEXACT.
#[cold]
#[inline(never)]
fn integral_exact<S: Flagged>(
    answer: &mut Answer,
    machine: CodedMachine,
    round: Round,
    x: u128,
) -> u32
    requires { S.PRECISION < S.BITS }
    ensures { IsMachineLeftIn (of_format (constants_of S.Flagged)) machine round (IntegralExact x)
        answer.old answer.new result }
{
    if !fits::<S>(x) {
        return WIDE_OPERAND;
    }
    let x = value::<S>(x);
    *answer = written(settled_unary(machine.choices(), x, x.round_to_integral(round)));
    ANSWERED
}

/// A value rounded to an integral value, without INEXACT.
#[inline(never)]
fn integral_in<S: Flagged>(answer: &mut Answer, machine: CodedMachine, round: Round, x: u128) -> u32
    requires { S.PRECISION < S.BITS }
    ensures { IsMachineLeftIn (of_format (constants_of S.Flagged)) machine round (Integral x)
        answer.old answer.new result }
{
    if !fits::<S>(x) {
        return WIDE_OPERAND;
    }
    integral::<S>(answer, machine, round, x);
    ANSWERED
}

/// A value rounded to an integral value, without INEXACT.
#[inline(always)]
fn integral<S: Flagged>(answer: &mut Answer, machine: CodedMachine, round: Round, x: u128)
    requires { S.PRECISION < S.BITS }
    ensures { (format_of S.Flagged).nonfinite ≡ IEEE754
        → IsMachineAnswer (constants_of S.Flagged) machine round (Integral x) answer.new }
{
    let x = value::<S>(x);
    *answer = written(settled_unary(machine.choices(), x, round_to_integral_in(x, round)));
}

/// A value as an integer, which in a format of at most 64 bits is passed as a word.
#[inline(always)]
fn to_unsigned_in<S: Flagged>(
    answer: &mut Answer,
    machine: CodedMachine,
    round: Round,
    x: u128,
    width: u32,
) -> u32
    requires { S.PRECISION < S.BITS }
    ensures { IsMachineLeftIn (of_format (constants_of S.Flagged)) machine round
        (ToUnsigned x width) answer.old answer.new result }
{
    if S::BITS <= 64 {
        if let Some(x) = one_word(x) {
            to_unsigned_of_word::<S>(answer, machine, round, x, width)
        } else {
            fitting_to_unsigned::<S>(answer, machine, round, x, width)
        }
    } else {
        to_unsigned_of_value::<S>(answer, machine, round, x, width)
    }
}

/// A word as an integer.
#[inline(never)]
fn to_unsigned_of_word<S: Flagged>(
    answer: &mut Answer,
    machine: CodedMachine,
    round: Round,
    x: u64,
    width: u32,
) -> u32
    requires { S.PRECISION < S.BITS }
    ensures { IsMachineLeftIn (of_format (constants_of S.Flagged)) machine round
        (ToUnsigned x width) answer.old answer.new result }
{
    valid_to_unsigned::<S>(answer, machine, round, x as u128, width)
}

/// A value of more than 64 bits as an integer.
#[inline(never)]
fn to_unsigned_of_value<S: Flagged>(
    answer: &mut Answer,
    machine: CodedMachine,
    round: Round,
    x: u128,
    width: u32,
) -> u32
    requires { S.PRECISION < S.BITS }
    ensures { IsMachineLeftIn (of_format (constants_of S.Flagged)) machine round
        (ToUnsigned x width) answer.old answer.new result }
{
    valid_to_unsigned::<S>(answer, machine, round, x, width)
}

/// A value as an integer: the plain one in line, if it is valid.
#[inline(always)]
fn valid_to_unsigned<S: Flagged>(
    answer: &mut Answer,
    machine: CodedMachine,
    round: Round,
    x: u128,
    width: u32,
) -> u32
    requires { S.PRECISION < S.BITS }
    ensures { IsMachineLeftIn (of_format (constants_of S.Flagged)) machine round
        (ToUnsigned x width) answer.old answer.new result }
{
    if is_width(1, width) && fits::<S>(x) {
        let given = value::<S>(x);
        let mut is_exact = false;
        let plain = given.to_u128_r(width as usize, round, &mut is_exact);
        if plain.status == Status::INVALID_OP {
            fitting_to_unsigned::<S>(answer, machine, round, x, width)
        } else {
            match settled_unsigned(machine.choices(), given, width as usize, plain) {
                None => LACKING_OPERATION,
                Some(integer) => {
                    *answer = Answer::of(integer.value, integer.status, 0);
                    ANSWERED
                }
            }
        }
    } else {
        fitting_to_unsigned::<S>(answer, machine, round, x, width)
    }
}

/// A value as an integer, if its bits fit.
#[cold]
#[inline(never)]
fn fitting_to_unsigned<S: Flagged>(
    answer: &mut Answer,
    machine: CodedMachine,
    round: Round,
    x: u128,
    width: u32,
) -> u32
    requires { S.PRECISION < S.BITS }
    ensures { IsMachineLeftIn (of_format (constants_of S.Flagged)) machine round
        (ToUnsigned x width) answer.old answer.new result }
{
    if fits::<S>(x) {
        to_unsigned::<S>(answer, machine, round, x, width)
    } else {
        WIDE_OPERAND
    }
}

/// A value as a signed integer, which in a format of at most 64 bits is passed as a word.
#[inline(always)]
fn to_signed_in<S: Flagged>(
    answer: &mut Answer,
    machine: CodedMachine,
    round: Round,
    x: u128,
    width: u32,
) -> u32
    requires { S.PRECISION < S.BITS }
    ensures { IsMachineLeftIn (of_format (constants_of S.Flagged)) machine round (ToSigned x width)
        answer.old answer.new result }
{
    if S::BITS <= 64 {
        if let Some(x) = one_word(x) {
            to_signed_of_word::<S>(answer, machine, round, x, width)
        } else {
            fitting_to_signed::<S>(answer, machine, round, x, width)
        }
    } else {
        to_signed_of_value::<S>(machine, x, round, width, answer)
    }
}

/// A word as a signed integer.
#[inline(never)]
fn to_signed_of_word<S: Flagged>(
    answer: &mut Answer,
    machine: CodedMachine,
    round: Round,
    x: u64,
    width: u32,
) -> u32
    requires { S.PRECISION < S.BITS }
    ensures { IsMachineLeftIn (of_format (constants_of S.Flagged)) machine round (ToSigned x width)
        answer.old answer.new result }
{
    valid_to_signed::<S>(answer, machine, round, x as u128, width)
}

/// A value of more than 64 bits as a signed integer. Most parameters have the places, and so the registers, that they
/// have in `on_machine`.
#[inline(never)]
fn to_signed_of_value<S: Flagged>(
    machine: CodedMachine,
    x: u128,
    round: Round,
    width: u32,
    answer: &mut Answer,
) -> u32
    requires { S.PRECISION < S.BITS }
    ensures { IsMachineLeftIn (of_format (constants_of S.Flagged)) machine round (ToSigned x width)
        answer.old answer.new result }
{
    valid_to_signed::<S>(answer, machine, round, x, width)
}

/// A value as a signed integer: the plain one in line, if it is valid. Meanwhile the value is kept in the answer, so
/// that it takes no registers.
#[inline(always)]
fn valid_to_signed<S: Flagged>(
    answer: &mut Answer,
    machine: CodedMachine,
    round: Round,
    x: u128,
    width: u32,
) -> u32
    requires { S.PRECISION < S.BITS }
    ensures { IsMachineLeftIn (of_format (constants_of S.Flagged)) machine round (ToSigned x width)
        answer.old answer.new result }
{
    if is_width(2, width) && fits::<S>(x) {
        answer.bits = Halves::of(x);
        let given = value::<S>(x);
        let mut is_exact = false;
        let plain = given.to_i128_r(width as usize, round, &mut is_exact);
        if plain.status == Status::INVALID_OP {
            kept_to_signed::<S>(answer, machine, round, width)
        } else {
            let integer = settled_signed(machine.choices(), given, width as usize, plain);
            *answer = Answer::of(integer.value.cast_unsigned(), integer.status, 0);
            ANSWERED
        }
    } else {
        fitting_to_signed::<S>(answer, machine, round, x, width)
    }
}

/// The value whose bits are in the answer, as a signed integer, if they fit.
#[cold]
#[inline(never)]
fn kept_to_signed<S: Flagged>(
    answer: &mut Answer,
    machine: CodedMachine,
    round: Round,
    width: u32,
) -> u32
    requires { S.PRECISION < S.BITS }
    ensures { IsMachineLeftIn (of_format (constants_of S.Flagged)) machine round
        (ToSigned (whole answer.old.bits) width) answer.old answer.new result }
{
    let x = answer.bits.number();
    fitting_to_signed::<S>(answer, machine, round, x, width)
}

/// A value as a signed integer, if its bits fit.
#[cold]
#[inline(never)]
fn fitting_to_signed<S: Flagged>(
    answer: &mut Answer,
    machine: CodedMachine,
    round: Round,
    x: u128,
    width: u32,
) -> u32
    requires { S.PRECISION < S.BITS }
    ensures { IsMachineLeftIn (of_format (constants_of S.Flagged)) machine round (ToSigned x width)
        answer.old answer.new result }
{
    if fits::<S>(x) {
        to_signed::<S>(answer, machine, round, x, width)
    } else {
        WIDE_OPERAND
    }
}

/// The lesser of two values, by a rule, if their bits fit.
#[inline(always)]
fn lesser_in<S: Flagged>(
    answer: &mut Answer,
    machine: CodedMachine,
    round: Round,
    rule: MinimumRule,
    x: u128,
    y: u128,
) -> u32
    requires { S.PRECISION < S.BITS }
    ensures { IsMachineLeftIn (of_format (constants_of S.Flagged)) machine round (Least rule x y)
        answer.old answer.new result }
{
    if !both_fit::<S>(x, y) {
        return WIDE_OPERAND;
    }
    lesser::<S>(answer, machine, round, rule, x, y);
    ANSWERED
}

/// The greater of two values, by a rule, if their bits fit.
#[inline(always)]
fn greater_in<S: Flagged>(
    answer: &mut Answer,
    machine: CodedMachine,
    round: Round,
    rule: MinimumRule,
    x: u128,
    y: u128,
) -> u32
    requires { S.PRECISION < S.BITS }
    ensures { IsMachineLeftIn (of_format (constants_of S.Flagged)) machine round (Greatest rule x y)
        answer.old answer.new result }
{
    if !both_fit::<S>(x, y) {
        return WIDE_OPERAND;
    }
    greater::<S>(answer, machine, round, rule, x, y);
    ANSWERED
}

/// A product of which an infinity times a zero is 2, if the bits of both values fit.
#[inline(always)]
fn extended_in<S: Flagged>(
    answer: &mut Answer,
    machine: CodedMachine,
    round: Round,
    x: u128,
    y: u128,
) -> u32
    requires { S.PRECISION < S.BITS }
    ensures { IsMachineLeftIn (of_format (constants_of S.Flagged)) machine round
        (ExtendedProduct x y) answer.old answer.new result }
{
    if !both_fit::<S>(x, y) {
        return WIDE_OPERAND;
    }
    if !machine.is_aarch64() {
        return LACKING_OPERATION;
    }
    extended::<S>(answer, machine, round, x, y);
    ANSWERED
}

/// A product of which an infinity times a zero is 2.
#[inline(never)]
fn extended<S: Flagged>(answer: &mut Answer, machine: CodedMachine, round: Round, x: u128, y: u128)
    requires { S.PRECISION < S.BITS }
    ensures { (format_of S.Flagged).nonfinite ≡ IEEE754
        → IsMachineAnswer (constants_of S.Flagged) machine round (ExtendedProduct x y) answer.new }
{
    let (x, y) = (value::<S>(x), value::<S>(y));
    let product = settled(machine.choices(), x, y, x.wide_mul_r(y, round));
    *answer = written(extended_product(x, y, product));
}

/// A minimum or a maximum of two values with a sign that is chosen, if the bits of both fit.
#[inline(never)]
fn range_in<S: Flagged>(
    answer: &mut Answer,
    machine: CodedMachine,
    round: Round,
    rule: RangeRule,
    x: u128,
    y: u128,
) -> u32
    requires { S.PRECISION < S.BITS }
    ensures { IsMachineLeftIn (of_format (constants_of S.Flagged)) machine round (Range rule x y)
        answer.old answer.new result }
{
    if !both_fit::<S>(x, y) {
        return WIDE_OPERAND;
    }
    if !machine.is_x86() {
        return LACKING_OPERATION;
    }
    *answer = ranged::<S>(machine, round, rule, x, y);
    ANSWERED
}

/// The minimum or the maximum with its sign.
#[inline(always)]
fn ranged<S: Flagged>(
    machine: CodedMachine,
    round: Round,
    rule: RangeRule,
    x: u128,
    y: u128,
) -> Answer
    requires { S.PRECISION < S.BITS }
    ensures { IsMachineAnswer (constants_of S.Flagged) machine round (Range rule x y) result }
{
    written(range(rule, value::<S>(x), value::<S>(y)))
}

/// A value in the bits of the alternative half precision, if its own bits fit.
#[inline(never)]
fn to_alternative_half_in<S: Flagged>(
    answer: &mut Answer,
    machine: CodedMachine,
    round: Round,
    x: u128,
) -> u32
    requires { S.PRECISION < S.BITS }
    ensures { IsMachineLeftIn (of_format (constants_of S.Flagged)) machine round
        (ToAlternativeHalf x) answer.old answer.new result }
{
    if !fits::<S>(x) {
        return WIDE_OPERAND;
    }
    if !machine.is_aarch64() {
        return LACKING_OPERATION;
    }
    *answer = alternative_half_of::<S>(machine, round, x);
    ANSWERED
}

/// The bits of a value in the alternative half precision.
#[inline(always)]
fn alternative_half_of<S: Flagged>(machine: CodedMachine, round: Round, x: u128) -> Answer
    requires { S.PRECISION < S.BITS }
    ensures { IsMachineAnswer (constants_of S.Flagged) machine round (ToAlternativeHalf x) result }
{
    let half = to_alternative_half(value::<S>(x), round);
    Answer::of(half.value as u128, half.status, 0)
}

/// The value of bits of the alternative half precision, if there are 16 of them.
#[inline(never)]
fn from_alternative_half_in<S: Flagged>(
    answer: &mut Answer,
    machine: CodedMachine,
    round: Round,
    x: u128,
) -> u32
    requires { S.PRECISION < S.BITS }
    ensures { IsMachineLeftIn (of_format (constants_of S.Flagged)) machine round
        (FromAlternativeHalf x) answer.old answer.new result }
{
    if x >= 1 << 16 {
        return WIDE_OPERAND;
    }
    if !machine.is_aarch64() {
        return LACKING_OPERATION;
    }
    *answer = of_alternative_half::<S>(machine, round, x as u16);
    ANSWERED
}

/// The value of bits of the alternative half precision.
#[inline(always)]
fn of_alternative_half<S: Flagged>(machine: CodedMachine, round: Round, x: u16) -> Answer
    requires { S.PRECISION < S.BITS }
    ensures { IsMachineAnswer (constants_of S.Flagged) machine round (FromAlternativeHalf x)
        result }
{
    written(from_alternative_half::<S>(x, round))
}

/// A value as an integer modulo a power of two, if its bits fit.
#[inline(never)]
fn modulo_in<S: Flagged>(
    answer: &mut Answer,
    machine: CodedMachine,
    round: Round,
    x: u128,
    width: u32,
) -> u32
    requires { S.PRECISION < S.BITS }
    ensures { IsMachineLeftIn (of_format (constants_of S.Flagged)) machine round
        (ToSignedModulo x width) answer.old answer.new result }
{
    if !fits::<S>(x) {
        return WIDE_OPERAND;
    }
    if !is_width(2, width) {
        return WRONG_WIDTH;
    }
    if !machine.has_modulo() {
        return LACKING_OPERATION;
    }
    let integer = integer_modulo::<S>(x, width as usize);
    *answer = Answer::of(integer.value.cast_unsigned(), integer.status, 0);
    ANSWERED
}

/// The integer modulo a power of two.
#[inline(always)]
fn integer_modulo<S: Flagged>(x: u128, width: usize) -> StatusAnd<i128>
    requires bits { S.PRECISION < S.BITS }
    requires low { 2 ≤ width }
    requires high { width ≤ 128 }
    ensures { let c = constants_of S.Flagged in
        Gives (IsSignedModulo (format_with c) width (value_of c x)) result }
{
    to_signed_modulo(value::<S>(x), width)
}

/// A value as an integer.
#[inline(always)]
fn to_unsigned<S: Flagged>(
    answer: &mut Answer,
    machine: CodedMachine,
    round: Round,
    x: u128,
    width: u32,
) -> u32
    requires { S.PRECISION < S.BITS }
    ensures { IsMachineLeft (constants_of S.Flagged) machine round
        (ToUnsigned x width) answer.old answer.new result }
{
    if !is_width(1, width) {
        return WRONG_WIDTH;
    }
    match unsigned_integer::<S>(machine, round, x, width as usize) {
        None => LACKING_OPERATION,
        Some(integer) => {
            *answer = Answer::of(integer.value, integer.status, 0);
            ANSWERED
        }
    }
}

/// The integer, if the machine has unsigned ones.
fn unsigned_integer<S: Flagged>(
    machine: CodedMachine,
    round: Round,
    x: u128,
    width: usize,
) -> Option<StatusAnd<u128>>
    requires bits { S.PRECISION < S.BITS }
    requires low { 1 ≤ width }
    requires high { width ≤ 128 }
    ensures { let c = constants_of S.Flagged in
        let says = IsMachineUnsigned (format_with c) (choices machine) round width (value_of c x) in
        IsOffered (choices machine).has_unsigned (λ given. Gives says given) result }
{
    let x = value::<S>(x);
    let mut is_exact = false;
    let plain = x.to_u128_r(width, round, &mut is_exact);
    settled_unsigned(machine.choices(), x, width, plain)
}

/// A value as a signed integer.
#[inline(always)]
fn to_signed<S: Flagged>(
    answer: &mut Answer,
    machine: CodedMachine,
    round: Round,
    x: u128,
    width: u32,
) -> u32
    requires { S.PRECISION < S.BITS }
    ensures { IsMachineLeft (constants_of S.Flagged) machine round (ToSigned x width)
        answer.old answer.new result }
{
    if !is_width(2, width) {
        return WRONG_WIDTH;
    }
    let integer = signed_integer::<S>(machine, round, x, width as usize);
    *answer = Answer::of(integer.value.cast_unsigned(), integer.status, 0);
    ANSWERED
}

/// The signed integer.
fn signed_integer<S: Flagged>(
    machine: CodedMachine,
    round: Round,
    x: u128,
    width: usize,
) -> StatusAnd<i128>
    requires bits { S.PRECISION < S.BITS }
    requires low { 2 ≤ width }
    requires high { width ≤ 128 }
    ensures { let c = constants_of S.Flagged in
        Gives (IsMachineSigned (format_with c) (choices machine) round width (value_of c x))
        result }
{
    let x = value::<S>(x);
    let mut is_exact = false;
    let plain = x.to_i128_r(width, round, &mut is_exact);
    settled_signed(machine.choices(), x, width, plain)
}

/// The lesser of two values, by a rule.
#[inline(never)]
fn lesser<S: Flagged>(
    answer: &mut Answer,
    machine: CodedMachine,
    round: Round,
    rule: MinimumRule,
    x: u128,
    y: u128,
)
    requires { S.PRECISION < S.BITS }
    ensures { IsMachineAnswer (constants_of S.Flagged) machine round (Least rule x y) answer.new }
{
    let (x, y) = (value::<S>(x), value::<S>(y));
    *answer = written(least(rule, machine.choices(), x, y));
}

/// The greater of two values, by a rule.
#[inline(never)]
fn greater<S: Flagged>(
    answer: &mut Answer,
    machine: CodedMachine,
    round: Round,
    rule: MinimumRule,
    x: u128,
    y: u128,
)
    requires { S.PRECISION < S.BITS }
    ensures { IsMachineAnswer (constants_of S.Flagged) machine round (Greatest rule x y)
        answer.new }
{
    let (x, y) = (value::<S>(x), value::<S>(y));
    *answer = written(greatest(rule, machine.choices(), x, y));
}

/// A conversion, from any format to that of a code, if that has one.
#[derive(Clone, Copy)]
struct ConversionToCode {
    to: u32,
    machine: CodedMachine,
    round: Round,
    x: u128,
}

impl FillsInFormat for ConversionToCode {
    type Place = Answer;

    type Output = Option<u32>;

    ghost gives = { λ it kind old new left.
        IsFilledIn (kind_on it.machine) (IsMachineConversionLeft kind it.machine it.round it.x)
        (machine_format_coded it.to) old new left };

    #[inline(always)]
    fn fill_in_format<S: Flagged>(self, answer: &mut Answer) -> Option<u32> {
        converted_to_code::<S>(answer, self.machine, self.round, self.x, self.to)
    }
}

/// A value of the format `S` in the format of a code, if that has one.
#[inline(always)]
fn converted_to_code<S: Flagged>(
    answer: &mut Answer,
    machine: CodedMachine,
    round: Round,
    x: u128,
    to: u32,
) -> Option<u32>
    requires { S.PRECISION < S.BITS }
    ensures { let kind = of_format (constants_of S.Flagged) in
        IsFilledIn (kind_on machine) (IsMachineConversionLeft kind machine round x)
        (machine_format_coded to) answer.old answer.new result }
{
    match tiny_before_coded(machine, to / 0x100) {
        None => None,
        Some(true) => converted_before_rounding::<S>(answer, machine, round, x, to % 0x100),
        Some(false) => converted_after_rounding::<S>(answer, machine, round, x, to % 0x100),
    }
}

/// A value of the format `S` in the format of this byte, tininess detected before rounding.
#[inline(always)]
fn converted_before_rounding<S: Flagged>(
    answer: &mut Answer,
    machine: CodedMachine,
    round: Round,
    x: u128,
    byte: u32,
) -> Option<u32>
    requires { S.PRECISION < S.BITS }
    ensures { let kind = of_format (constants_of S.Flagged) in
        IsFilledIn (λ format. of_format (before_rounding format))
        (IsMachineConversionLeft kind machine round x) (ieee_format_coded byte)
        answer.old answer.new result }
{
    Some(match byte {
        1 => converted::<S, IeeeFlags<TinyBefore<HalfS>>>(answer, machine, round, x),
        2 => converted::<S, IeeeFlags<TinyBefore<SingleS>>>(answer, machine, round, x),
        3 => converted::<S, IeeeFlags<TinyBefore<DoubleS>>>(answer, machine, round, x),
        4 => converted::<S, IeeeFlags<TinyBefore<QuadS>>>(answer, machine, round, x),
        5 => converted::<S, IeeeFlags<TinyBefore<BFloatS>>>(answer, machine, round, x),
        6 => converted::<S, IeeeFlags<TinyBefore<Float8E5M2S>>>(answer, machine, round, x),
        9 => converted::<S, IeeeFlags<TinyBefore<X87DoubleExtendedS>>>(answer, machine, round, x),
        _ => return None,
    })
}

/// A value of the format `S` in the format of this byte, tininess detected after rounding.
#[inline(always)]
fn converted_after_rounding<S: Flagged>(
    answer: &mut Answer,
    machine: CodedMachine,
    round: Round,
    x: u128,
    byte: u32,
) -> Option<u32>
    requires { S.PRECISION < S.BITS }
    ensures { let kind = of_format (constants_of S.Flagged) in
        IsFilledIn (λ format. of_format (after_rounding format))
        (IsMachineConversionLeft kind machine round x) (ieee_format_coded byte)
        answer.old answer.new result }
{
    Some(match byte {
        1 => converted::<S, IeeeFlags<HalfS>>(answer, machine, round, x),
        2 => converted::<S, IeeeFlags<SingleS>>(answer, machine, round, x),
        3 => converted::<S, IeeeFlags<DoubleS>>(answer, machine, round, x),
        4 => converted::<S, IeeeFlags<QuadS>>(answer, machine, round, x),
        5 => converted::<S, IeeeFlags<BFloatS>>(answer, machine, round, x),
        6 => converted::<S, IeeeFlags<Float8E5M2S>>(answer, machine, round, x),
        9 => converted::<S, IeeeFlags<X87DoubleExtendedS>>(answer, machine, round, x),
        _ => return None,
    })
}

/// A conversion, from any format to a known one.
#[derive(Clone, Copy)]
struct ConversionTo {
    target: MachineFormat,
    machine: CodedMachine,
    round: Round,
    x: u128,
}

impl FillsInFormat for ConversionTo {
    type Place = Answer;

    type Output = u32;

    ghost gives = { λ it kind old new code.
        let target = of_format (flagged_constants (format_on it.machine it.target)) in
        IsMachineConversionLeft kind it.machine it.round it.x target old new code };

    #[inline(always)]
    fn fill_in_format<S: Flagged>(self, answer: &mut Answer) -> u32 {
        let call = ConversionOf::<S> {
            source: PhantomData,
            machine: self.machine,
            round: self.round,
            x: self.x,
        };
        self.target.fill(self.machine, call, answer)
    }
}

/// The conversion of a value of the format `S`.
#[derive(Drop)]
struct ConversionOf<S: Flagged> {
    source: PhantomData<S>,
    machine: CodedMachine,
    round: Round,
    x: u128,
    ghost has_bits: { S.PRECISION < S.BITS },
}

impl<S: Flagged> FillsInFormat for ConversionOf<S> {
    type Place = Answer;

    type Output = u32;

    ghost gives = { λ it kind old new code. let source = of_format (constants_of S.Flagged) in
        IsMachineConversionLeft source it.machine it.round it.x kind old new code };

    #[inline(always)]
    fn fill_in_format<T: Flagged>(self, answer: &mut Answer) -> u32 {
        converted::<S, T>(answer, self.machine, self.round, self.x)
    }
}

/// A value of the format `S`, if its bits fit, in the format `T`.
#[inline(never)]
fn converted<S: Flagged, T: Flagged>(
    answer: &mut Answer,
    machine: CodedMachine,
    round: Round,
    x: u128,
) -> u32
    requires source { S.PRECISION < S.BITS }
    requires target { T.PRECISION < T.BITS }
    ensures { let source = of_format (constants_of S.Flagged) in
        IsMachineConversionLeft source machine round x (of_format (constants_of T.Flagged))
        answer.old answer.new result }
{
    if fits::<S>(x) {
        fitting_converted::<S, T>(answer, machine, round, x);
        ANSWERED
    } else {
        WIDE_OPERAND
    }
}

/// A value of the format `S` in the format `T`: from bits to bits, if it is a normal number in both, and the plain
/// conversion in line, if it is a normal number and one of the formats has more than 64 bits.
#[inline(always)]
fn fitting_converted<S: Flagged, T: Flagged>(
    answer: &mut Answer,
    machine: CodedMachine,
    round: Round,
    x: u128,
)
    requires source { S.PRECISION < S.BITS }
    requires target { T.PRECISION < T.BITS }
    ensures { let c = constants_of S.Flagged in
        IsMachineConverted c machine round (value_of c x) (of_format (constants_of T.Flagged))
        answer.new }
{
    if let Some(number) = convert_normal::<S, T>(x, round) {
        *answer = answers::with_bits(number);
    } else if is_normal_beyond_words::<S, T>(x) {
        number_converted::<S, T>(answer, round, x);
    } else {
        any_converted::<S, T>(answer, machine, round, x);
    }
}

/// A number of the format `S` in the format `T`, which is the same on every machine.
#[inline(always)]
fn number_converted<S: Flagged, T: Flagged>(answer: &mut Answer, round: Round, x: u128)
    requires source { S.PRECISION < S.BITS }
    requires target { T.PRECISION < T.BITS }
    requires number { is_number (constants_of S.Flagged) x ≡ true }
    ensures { let c = constants_of S.Flagged in (machine : CodedMachine)
        → IsMachineConverted c machine round (value_of c x) (of_format (constants_of T.Flagged))
        answer.new }
{
    let x = value::<S>(x);
    let mut loses_info = false;
    let plain: StatusAnd<IeeeFloat<T>> = x.convert_r(round, &mut loses_info);
    *answer = written(plain);
}

/// Any value of the format `S` in the format `T`.
#[inline(never)]
fn any_converted<S: Flagged, T: Flagged>(
    answer: &mut Answer,
    machine: CodedMachine,
    round: Round,
    x: u128,
)
    requires source { S.PRECISION < S.BITS }
    requires target { T.PRECISION < T.BITS }
    ensures { let c = constants_of S.Flagged in
        IsMachineConverted c machine round (value_of c x) (of_format (constants_of T.Flagged))
        answer.new }
{
    let x = value::<S>(x);
    let mut loses_info = false;
    let plain: StatusAnd<IeeeFloat<T>> = x.convert_r(round, &mut loses_info);
    *answer = written(settled_conversion(machine.choices(), x, plain));
}

/// Makes a call on a machine, and returns 0 or the code of the first error; on an error the answer is left unchanged.
#[inline(always)]
fn reply(
    format: Option<FlaggedKind>,
    mode: Option<Round>,
    call: Result<MachineCall, u32>,
    machine: Option<CodedMachine>,
    answer: &mut Answer,
) -> u32
    ensures { IsMachineReply (known_machine_call format mode call machine)
        answer.old answer.new result }
{
    let Some(kind) = format else {
        return UNKNOWN_FORMAT;
    };
    let Some(round) = mode else {
        return UNKNOWN_MODE;
    };
    let Some(format) = MachineFormat::of(kind) else {
        return NO_SUCH_OPERATION;
    };
    let call = match call {
        Ok(call) => call,
        Err(fault) => return fault,
    };
    let Some(machine) = machine else {
        return UNKNOWN_MACHINE;
    };
    made(machine, format, round, call, answer)
}

/// Makes a call, and returns 0, or the error for an operand that is too wide, for a width that no integer may have, or
/// for an operation that the machine does not have.
#[inline(always)]
pub fn made(
    machine: CodedMachine,
    format: MachineFormat,
    round: Round,
    call: MachineCall,
    answer: &mut Answer,
) -> u32
    ensures { IsLeftBy (machine_fault machine format call)
        (IsMachineCallAnswer machine format round call) answer.old answer.new result }
{
    match call {
        MachineCall::Operation(operation) => operated(machine, format, round, operation, answer),
        MachineCall::Conversion(x, target) => {
            let call = ConversionTo {
                target,
                machine,
                round,
                x,
            };
            format.fill_without_rule(call, answer)
        }
    }
}

/// Makes an operation, and returns 0, or the error as `made` does.
#[inline(always)]
fn operated(
    machine: CodedMachine,
    format: MachineFormat,
    round: Round,
    operation: MachineOperation,
    answer: &mut Answer,
) -> u32
    ensures { let call = Operation operation in
        IsLeftBy (machine_fault machine format call)
        (IsMachineCallAnswer machine format round call) answer.old answer.new result }
{
    let call = OnMachine {
        machine,
        round,
        operation,
    };
    format.fill(machine, call, answer)
}

/// What a machine delivers for an operation on values of a format, NaNs and flags included (`docs/MACHINES.md`). `to`
/// is the format of a conversion, the width of an integer, or the rule of a minimum or a maximum.
#[inline(always)]
pub fn on_machine(
    machine: u32,
    operation: u32,
    format: u32,
    mode: u32,
    to: u32,
    x: Halves,
    y: Halves,
    z: Halves,
    answer: &mut Answer,
) -> u32
    ensures { let call = machine_call operation to (whole x) (whole y) (whole z) in
        IsMachineReply (known_machine_call (flagged_kind_coded format) (mode_coded mode) call
        (machine_coded machine)) answer.old answer.new result }
{
    // What an operation does not take is not passed, so that it needs no register.
    if 1 <= operation && operation <= 11 {
        match operation {
            1 => two_on_machine(machine, Arithmetic::Sum, format, mode, x, y, answer),
            2 => two_on_machine(machine, Arithmetic::Difference, format, mode, x, y, answer),
            3 => two_on_machine(machine, Arithmetic::Product, format, mode, x, y, answer),
            4 => two_on_machine(machine, Arithmetic::Quotient, format, mode, x, y, answer),
            5 => any_of_two(
                machine,
                Arithmetic::NearestRemainder,
                format,
                mode,
                x,
                y,
                answer,
            ),
            6 => any_of_two(
                machine,
                Arithmetic::TruncatedRemainder,
                format,
                mode,
                x,
                y,
                answer,
            ),
            7 => fused_on_machine(machine, format, mode, x, y, z, answer),
            8 => one_on_machine(
                machine,
                OneOperation::SquareRoot,
                format,
                mode,
                0,
                x,
                answer,
            ),
            9 => one_on_machine(
                machine,
                OneOperation::IntegralExact,
                format,
                mode,
                0,
                x,
                answer,
            ),
            10 => any_of_one(machine, OneOperation::Integral, format, mode, 0, x, answer),
            11 => converted_on_machine(machine, format, mode, to, x, answer),
            _ => any_on_machine(machine, operation, format, mode, to, x, y, z, answer),
        }
    } else {
        match operation {
            12 => one_on_machine(
                machine,
                OneOperation::ToUnsigned,
                format,
                mode,
                to,
                x,
                answer,
            ),
            13 => one_on_machine(machine, OneOperation::ToSigned, format, mode, to, x, answer),
            _ => any_on_machine(machine, operation, format, mode, to, x, y, NOTHING, answer),
        }
    }
}

/// What stands for an operand that an operation does not take.
const NOTHING: Halves = Halves { low: 0, high: 0 };

/// `on_machine` for an operation on one value.
#[inline(always)]
fn one_on_machine(
    machine: u32,
    operation: OneOperation,
    format: u32,
    mode: u32,
    to: u32,
    x: Halves,
    answer: &mut Answer,
) -> u32
    ensures { let call = Ok (Operation (of_one operation to (whole x))) in
        IsMachineReply (known_machine_call (flagged_kind_coded format) (mode_coded mode) call
        (machine_coded machine)) answer.old answer.new result }
{
    if let Some(word) = one_word(x.number()) {
        one_word_on_machine(machine, operation, format, mode, to, word, answer)
    } else {
        one_value_on_machine(machine, operation, format, mode, to, x, answer)
    }
}

/// `on_machine` for an operation on one word.
#[inline(always)]
fn one_word_on_machine(
    machine: u32,
    operation: OneOperation,
    format: u32,
    mode: u32,
    to: u32,
    x: u64,
    answer: &mut Answer,
) -> u32
    ensures { let call = Ok (Operation (of_one operation to x)) in
        IsMachineReply (known_machine_call (flagged_kind_coded format) (mode_coded mode) call
        (machine_coded machine)) answer.old answer.new result }
{
    if let Some(known) = known_setting(machine, mode) {
        let call = OneWordOnMachine {
            machine: known.machine,
            round: known.round,
            operation,
            to,
            x,
        };
        if let Some(code) = fill_short_coded(format, known.machine, call, answer) {
            return code;
        }
    }
    any_of_one(
        machine,
        operation,
        format,
        mode,
        to,
        Halves::of_word(x),
        answer,
    )
}

/// `on_machine` for an operation on one value that does not fit in a word, as in `x87` and `quad`.
#[inline(always)]
fn one_value_on_machine(
    machine: u32,
    operation: OneOperation,
    format: u32,
    mode: u32,
    to: u32,
    x: Halves,
    answer: &mut Answer,
) -> u32
    ensures { let call = Ok (Operation (of_one operation to (whole x))) in
        IsMachineReply (known_machine_call (flagged_kind_coded format) (mode_coded mode) call
        (machine_coded machine)) answer.old answer.new result }
{
    if let Some(known) = known_setting(machine, mode) {
        let call = OneOnMachine {
            machine: known.machine,
            round: known.round,
            operation,
            to,
            x: x.number(),
        };
        if let Some(code) = fill_wide_coded(format, known.machine, call, answer) {
            return code;
        }
    }
    any_of_one(machine, operation, format, mode, to, x, answer)
}

/// `on_machine` for any operation on one value.
#[inline(never)]
fn any_of_one(
    machine: u32,
    operation: OneOperation,
    format: u32,
    mode: u32,
    to: u32,
    x: Halves,
    answer: &mut Answer,
) -> u32
    ensures { let call = Ok (Operation (of_one operation to (whole x))) in
        IsMachineReply (known_machine_call (flagged_kind_coded format) (mode_coded mode) call
        (machine_coded machine)) answer.old answer.new result }
{
    let code = one_code(operation);
    any_on_machine(machine, code, format, mode, to, x, NOTHING, NOTHING, answer)
}

/// `on_machine` for an operation on two values.
#[inline(always)]
fn two_on_machine(
    machine: u32,
    arithmetic: Arithmetic,
    format: u32,
    mode: u32,
    x: Halves,
    y: Halves,
    answer: &mut Answer,
) -> u32
    ensures { let call = Ok (Operation (OfTwo arithmetic (whole x) (whole y))) in
        IsMachineReply (known_machine_call (flagged_kind_coded format) (mode_coded mode) call
        (machine_coded machine)) answer.old answer.new result }
{
    if let Some((x, y)) = two_words(x.number(), y.number()) {
        two_words_on_machine(machine, arithmetic, format, mode, x, y, answer)
    } else {
        two_values_on_machine(machine, arithmetic, format, mode, x, y, answer)
    }
}

/// `on_machine` for an operation on two words.
#[inline(always)]
fn two_words_on_machine(
    machine: u32,
    arithmetic: Arithmetic,
    format: u32,
    mode: u32,
    x: u64,
    y: u64,
    answer: &mut Answer,
) -> u32
    ensures { let call = Ok (Operation (OfTwo arithmetic x y)) in
        IsMachineReply (known_machine_call (flagged_kind_coded format) (mode_coded mode) call
        (machine_coded machine)) answer.old answer.new result }
{
    if let Some(known) = known_setting(machine, mode) {
        let call = TwoWordsOnMachine {
            machine: known.machine,
            round: known.round,
            arithmetic,
            x,
            y,
        };
        if let Some(code) = fill_short_coded(format, known.machine, call, answer) {
            return code;
        }
    }
    let (x, y) = (Halves::of_word(x), Halves::of_word(y));
    any_of_two(machine, arithmetic, format, mode, x, y, answer)
}

/// `on_machine` for an operation on two values that are not both words.
#[inline(always)]
fn two_values_on_machine(
    machine: u32,
    arithmetic: Arithmetic,
    format: u32,
    mode: u32,
    x: Halves,
    y: Halves,
    answer: &mut Answer,
) -> u32
    ensures { let call = Ok (Operation (OfTwo arithmetic (whole x) (whole y))) in
        IsMachineReply (known_machine_call (flagged_kind_coded format) (mode_coded mode) call
        (machine_coded machine)) answer.old answer.new result }
{
    if let Some(known) = known_setting(machine, mode) {
        let call = TwoOnMachine {
            machine: known.machine,
            round: known.round,
            arithmetic,
            x: x.number(),
            y: y.number(),
        };
        if let Some(code) = fill_wide_coded(format, known.machine, call, answer) {
            return code;
        }
    }
    any_of_two(machine, arithmetic, format, mode, x, y, answer)
}

/// `on_machine` for any operation on two values.
#[inline(never)]
fn any_of_two(
    machine: u32,
    arithmetic: Arithmetic,
    format: u32,
    mode: u32,
    x: Halves,
    y: Halves,
    answer: &mut Answer,
) -> u32
    ensures { let call = Ok (Operation (OfTwo arithmetic (whole x) (whole y))) in
        IsMachineReply (known_machine_call (flagged_kind_coded format) (mode_coded mode) call
        (machine_coded machine)) answer.old answer.new result }
{
    let code = two_code(arithmetic);
    any_on_machine(machine, code, format, mode, 0, x, y, NOTHING, answer)
}

/// `on_machine` for the fused sum.
#[inline(always)]
fn fused_on_machine(
    machine: u32,
    format: u32,
    mode: u32,
    x: Halves,
    y: Halves,
    z: Halves,
    answer: &mut Answer,
) -> u32
    ensures { let call = Ok (Operation (FusedSum (whole x) (whole y) (whole z))) in
        IsMachineReply (known_machine_call (flagged_kind_coded format) (mode_coded mode) call
        (machine_coded machine)) answer.old answer.new result }
{
    if let Some((x, y, z)) = three_words(x.number(), y.number(), z.number()) {
        fused_words_on_machine(machine, format, mode, x, y, z, answer)
    } else {
        fused_values_on_machine(machine, format, mode, x, y, z, answer)
    }
}

/// `on_machine` for the fused sum of words.
#[inline(always)]
fn fused_words_on_machine(
    machine: u32,
    format: u32,
    mode: u32,
    x: u64,
    y: u64,
    z: u64,
    answer: &mut Answer,
) -> u32
    ensures { let call = Ok (Operation (FusedSum x y z)) in
        IsMachineReply (known_machine_call (flagged_kind_coded format) (mode_coded mode) call
        (machine_coded machine)) answer.old answer.new result }
{
    if let Some(known) = known_setting(machine, mode) {
        let call = FusedWordsOnMachine {
            machine: known.machine,
            round: known.round,
            x,
            y,
            z,
        };
        if let Some(code) = fill_short_coded(format, known.machine, call, answer) {
            return code;
        }
    }
    let (x, y, z) = (Halves::of_word(x), Halves::of_word(y), Halves::of_word(z));
    any_on_machine(machine, 7, format, mode, 0, x, y, z, answer)
}

/// `on_machine` for the fused sum of values that are not all words.
#[inline(always)]
fn fused_values_on_machine(
    machine: u32,
    format: u32,
    mode: u32,
    x: Halves,
    y: Halves,
    z: Halves,
    answer: &mut Answer,
) -> u32
    ensures { let call = Ok (Operation (FusedSum (whole x) (whole y) (whole z))) in
        IsMachineReply (known_machine_call (flagged_kind_coded format) (mode_coded mode) call
        (machine_coded machine)) answer.old answer.new result }
{
    if let Some(known) = known_setting(machine, mode) {
        let call = FusedOnMachine {
            machine: known.machine,
            round: known.round,
            x: x.number(),
            y: y.number(),
            z: z.number(),
        };
        if let Some(code) = fill_wide_coded(format, known.machine, call, answer) {
            return code;
        }
    }
    any_on_machine(machine, 7, format, mode, 0, x, y, z, answer)
}

/// `on_machine` for a conversion.
#[inline(always)]
fn converted_on_machine(
    machine: u32,
    format: u32,
    mode: u32,
    to: u32,
    x: Halves,
    answer: &mut Answer,
) -> u32
    ensures { let call = conversion_call (flagged_kind_coded to) (whole x) in
        IsMachineReply (known_machine_call (flagged_kind_coded format) (mode_coded mode) call
        (machine_coded machine)) answer.old answer.new result }
{
    if let Some(word) = one_word(x.number()) {
        converted_word_on_machine(machine, format, mode, to, word, answer)
    } else {
        converted_value_on_machine(machine, format, mode, to, x, answer)
    }
}

/// `on_machine` for a conversion of a word: all arguments are in registers.
#[inline(never)]
fn converted_word_on_machine(
    machine: u32,
    format: u32,
    mode: u32,
    to: u32,
    x: u64,
    answer: &mut Answer,
) -> u32
    ensures { let call = conversion_call (flagged_kind_coded to) x in
        IsMachineReply (known_machine_call (flagged_kind_coded format) (mode_coded mode) call
        (machine_coded machine)) answer.old answer.new result }
{
    if let Some(known) = known_setting(machine, mode) {
        let call = ConversionToCode {
            to,
            machine: known.machine,
            round: known.round,
            x: x as u128,
        };
        if let Some(Some(code)) = fill_coded_without_rule(format, call, answer) {
            return code;
        }
    }
    any_converted_on_machine(machine, format, mode, to, Halves::of_word(x), answer)
}

/// `on_machine` for a conversion of a value that does not fit in a word.
#[inline(never)]
fn converted_value_on_machine(
    machine: u32,
    format: u32,
    mode: u32,
    to: u32,
    x: Halves,
    answer: &mut Answer,
) -> u32
    ensures { let call = conversion_call (flagged_kind_coded to) (whole x) in
        IsMachineReply (known_machine_call (flagged_kind_coded format) (mode_coded mode) call
        (machine_coded machine)) answer.old answer.new result }
{
    if let Some(known) = known_setting(machine, mode) {
        let call = ConversionToCode {
            to,
            machine: known.machine,
            round: known.round,
            x: x.number(),
        };
        if let Some(Some(code)) = fill_coded_without_rule(format, call, answer) {
            return code;
        }
    }
    any_converted_on_machine(machine, format, mode, to, x, answer)
}

/// `on_machine` for any conversion.
#[inline(never)]
fn any_converted_on_machine(
    machine: u32,
    format: u32,
    mode: u32,
    to: u32,
    x: Halves,
    answer: &mut Answer,
) -> u32
    ensures { let call = conversion_call (flagged_kind_coded to) (whole x) in
        IsMachineReply (known_machine_call (flagged_kind_coded format) (mode_coded mode) call
        (machine_coded machine)) answer.old answer.new result }
{
    any_on_machine(machine, 11, format, mode, to, x, NOTHING, NOTHING, answer)
}

/// `on_machine` for any operation, and for what is refused.
#[inline(never)]
fn any_on_machine(
    machine: u32,
    operation: u32,
    format: u32,
    mode: u32,
    to: u32,
    x: Halves,
    y: Halves,
    z: Halves,
    answer: &mut Answer,
) -> u32
    ensures { let call = machine_call operation to (whole x) (whole y) (whole z) in
        IsMachineReply (known_machine_call (flagged_kind_coded format) (mode_coded mode) call
        (machine_coded machine)) answer.old answer.new result }
{
    // First, so that the code becomes the name by a subtraction.
    let machine = machine_coded(machine);
    reply(
        FlaggedKind::coded(format),
        mode_coded(mode),
        machine_call(operation, to, x.number(), y.number(), z.number()),
        machine,
        answer,
    )
}
