//! One call for an interpreter of instructions: an operation of a machine, with what a control word asks for.

ghost use Rattle.std.specs.Prelude.{◌≡◌, ◌<◌, IsSomeAnd, MatchOption, None, pos};
ghost use Rattle.rustc_apfloat.specs.{FlaggedTypes.constants_of, FlaggedTypes.format_of, Formats.x87_constants};
ghost use Rattle.rustc_apfloat.specs.Lawful.{format_with};
ghost use Rattle.apfloat_machines.specs.Wrapping.{unbounded};
ghost use Rattle.formats_at_run_time.specs.{FlaggedKinds.flagged_kind_coded, ValueKinds.value_of};
ghost use Rattle.coded_calls.specs.{Answers.IsLeftBy, Answers.whole, MachineCalls.machine_coded};
ghost use Rattle.coded_calls.specs.FewerDigits.{IsShorter, digits, exact_of, narrow_format};
ghost use Rattle.coded_calls.specs.declared.fewer_digits.Precision.TheVariants.{Single, Double};
ghost use Rattle.coded_calls.specs.Instructions.{AreFinished, AreRead, ByPrecision, IsCarriedOut};
ghost use Rattle.coded_calls.specs.Instructions.{IsDelivered, IsFinished, IsFinishedBy, IsInstructionAnswer};
ghost use Rattle.coded_calls.specs.Instructions.{IsInstructionReply, IsSaidOf, IsShortened, IsTaken, IsTold};
ghost use Rattle.coded_calls.specs.Instructions.{IsUpTold, IsWithAllDigits, any_is_denormal, any_is_nan};
ghost use Rattle.coded_calls.specs.Instructions.{constants_for, control_coded, finishes, has_bit};
ghost use Rattle.coded_calls.specs.Instructions.{has_denormal, has_precision, is_above_even, is_denormal_in};
ghost use Rattle.coded_calls.specs.Instructions.{is_left_alone, known_instruction, mode_by, notes, odd_mode};
ghost use Rattle.coded_calls.specs.Instructions.{operands_of, precision_coded, precision_in, result_format};
ghost use Rattle.coded_calls.specs.Instructions.{IsMasked, IsWrappedBy, has_unmasked, wide_format};
ghost use Rattle.coded_calls.specs.Instructions.{rounding_coded, whole_operand};
ghost use Rattle.coded_calls.specs.MachineCalls.{machine_fault};

use crate::codes::{
    ANSWERED, NO_SUCH_OPERATION, UNKNOWN_FORMAT, UNKNOWN_MACHINE, UNKNOWN_MODE, WRONG_CONTROL,
};
use crate::data::{Answer, Halves};
use crate::fewer_digits::{Precision, any_rounded_to, rounded_to, widened};
use crate::ieee_answers::{value, written};
use crate::machine_call::{
    CodedMachine, MachineCall, MachineFormat, MachineOperation, machine_call, machine_coded,
};
use crate::machine_operations::made;
use crate::usual_operands::fits;
use apfloat_machines::{Flush, MinimumRule, Unbounded, flushed, without_denormal, wrapped};
use formats_at_run_time::{
    FlaggedKind, IeeeFormat, InFlaggedFormat, X87DoubleS, X87SingleS, mode_coded,
};
use round_to_odd::to_odd;
use rustc_apfloat::ieee::{Flagged, IeeeFlags, IeeeFloat, TinyBefore, X87DoubleExtendedS};
use rustc_apfloat::{Flags, Float, Round, Status, StatusAnd};

/// How an instruction rounds.
#[derive(Clone, Copy)]
pub struct Rounding {
    /// The rounding mode; toward zero, if the results are then made odd.
    pub round: Round,
    /// Whether inexact results become the neighbour whose last digit is odd.
    pub to_odd: bool,
}

/// What a control word asks for.
#[derive(Clone, Copy)]
pub struct Control {
    /// The flags of tiny results, if they are flushed to zero.
    pub flush: Option<Flush>,
    /// Whether denormal operands are taken as zeros.
    pub denormals_are_zeros: bool,
    /// Whether to tell if a magnitude was rounded up.
    pub tells_rounded_up: bool,
    /// The digits of sums, differences, products, quotients and roots of x87, if they are fewer than its format has.
    pub precision: Option<Precision>,
    /// Whether exponents are wrapped on overflow and underflow, which are unmasked.
    pub unmasked: bool,
}

/// On what machine, in which format and how an operation is made.
#[derive(Clone, Copy)]
pub struct Instruction {
    /// The machine.
    pub machine: CodedMachine,
    /// The format of the operands.
    pub format: MachineFormat,
    /// How results are rounded.
    pub rounding: Rounding,
    /// What the control word asks for.
    pub control: Control,
}

/// The bits of operands; 0 for each that an operation does not take.
#[derive(Clone, Copy)]
pub struct Operands {
    /// The first one.
    pub x: u128,
    /// The second one.
    pub y: u128,
    /// The third one.
    pub z: u128,
}

/// Operands that were read.
#[derive(Clone, Copy)]
pub struct ReadOperands {
    /// The operands as they are taken.
    pub taken: Operands,
    /// Whether one was denormal, by the rule of `has_denormal`.
    pub has_denormal: bool,
}

/// The least number that is no control word.
const CONTROL_WORDS: u32 = 64;

/// What asks for unmasked overflow and underflow.
const UNMASKED: u32 = 32;

/// The least number below that is refused: the two precisions, 8 and 16, exclude each other.
const BOTH_PRECISIONS: u32 = 24;

/// The least control word that asks for a precision.
const PRECISIONS: u32 = 8;

/// The operation whose operand is no value of the format.
const FROM_ALTERNATIVE_HALF: u32 = 20;

/// What is read where no operand is a value of the format.
const NO_OPERANDS: Operands = Operands { x: 0, y: 0, z: 0 };

/// Rounding toward zero.
const TOWARD_ZERO: Rounding = Rounding {
    round: Round::TowardZero,
    to_odd: false,
};

/// How the code of a mode rounds, if there is one.
fn rounding_coded(mode: u32) -> Option<Rounding>
    ensures { result ≡ rounding_coded mode }
{
    match mode {
        5 => Some(Rounding {
            round: Round::TowardZero,
            to_odd: true,
        }),
        _ => match mode_coded(mode) {
            Some(round) => Some(Rounding {
                round,
                to_odd: false,
            }),
            None => None,
        },
    }
}

/// Whether the digit of this power of two is set.
fn has_bit(word: u32, power: u32) -> bool
    requires { 0 < power }
    ensures { result ≡ has_bit word power }
{
    word / power % 2 == 1
}

/// The precision that a control word asks for.
fn precision_coded(word: u32) -> Option<Precision>
    ensures { result ≡ precision_coded word }
{
    if has_bit(word, 8) {
        Some(Precision::Single)
    } else if has_bit(word, 16) {
        Some(Precision::Double)
    } else {
        None
    }
}

/// Whether the machine has a precision control in the format.
fn has_precision(machine: CodedMachine, format: IeeeFormat) -> bool
    ensures { result ≡ has_precision machine format }
{
    match machine {
        CodedMachine::X87 => match format {
            IeeeFormat::X87 => true,
            _ => false,
        },
        _ => false,
    }
}

/// Whether the machine delivers wrapped exponents of the format when overflow and underflow are unmasked. Of half, in
/// which none of them computes, some quotients would be no number.
fn has_unmasked(machine: CodedMachine, format: IeeeFormat) -> bool
    ensures { result ≡ has_unmasked machine format }
{
    match format {
        IeeeFormat::Half => false,
        _ => match machine {
            CodedMachine::X87 => true,
            CodedMachine::Power => true,
            CodedMachine::S390x => true,
            _ => false,
        },
    }
}

/// What a control word asks for, if its bits are known, and the machine can flush, and has precisions and wrapped
/// exponents in the format, where that is asked for. No machine both flushes and wraps.
fn control_coded(machine: CodedMachine, format: MachineFormat, word: u32) -> Option<Control>
    ensures { result ≡ control_coded machine format word }
{
    let flush = machine.choices().flush;
    let lower = word % UNMASKED;
    if word < CONTROL_WORDS
        && (lower < BOTH_PRECISIONS
            && ((word % 4 == 0 || flush.is_some())
                && ((lower < PRECISIONS || has_precision(machine, format.format))
                    && (word < UNMASKED || has_unmasked(machine, format.format)))))
    {
        Some(Control {
            flush: if has_bit(word, 1) { flush } else { None },
            denormals_are_zeros: has_bit(word, 2),
            tells_rounded_up: has_bit(word, 4),
            precision: precision_coded(word),
            unmasked: has_bit(word, 32),
        })
    } else {
        None
    }
}

/// The operands of the operation of this code.
fn operands_of(code: u32, x: u128, y: u128, z: u128) -> Operands
    ensures { result ≡ operands_of code x y z }
{
    Operands {
        x,
        y: if code < 8 || (13 < code && code < 19 && code != 16) {
            y
        } else {
            0
        },
        z: if code == 7 { z } else { 0 },
    }
}

/// Whether the bits are those of a denormal number.
fn is_denormal<S: Flagged>(bits: u128) -> bool
    requires { S.PRECISION < S.BITS }
    ensures { result ≡ is_denormal_in (constants_of S.Flagged) bits }
{
    fits::<S>(bits) && value::<S>(bits).is_denormal()
}

/// The bits that are taken for an operand.
fn taken<S: Flagged>(control: Control, bits: u128) -> u128
    requires { S.PRECISION < S.BITS }
    ensures { IsTaken (constants_of S.Flagged) control bits result }
{
    if control.denormals_are_zeros && is_denormal::<S>(bits) {
        without_denormal(value::<S>(bits)).to_bits()
    } else {
        bits
    }
}

/// Whether any operand is denormal.
fn any_is_denormal<S: Flagged>(of: Operands) -> bool
    requires { S.PRECISION < S.BITS }
    ensures { result ≡ any_is_denormal (constants_of S.Flagged) of }
{
    is_denormal::<S>(of.x) || (is_denormal::<S>(of.y) || is_denormal::<S>(of.z))
}

/// Whether any operand is a NaN.
fn any_is_nan<S: Flagged>(of: Operands) -> bool
    requires { S.PRECISION < S.BITS }
    ensures { result ≡ any_is_nan (constants_of S.Flagged) of }
{
    value::<S>(of.x).is_nan() || (value::<S>(of.y).is_nan() || value::<S>(of.z).is_nan())
}

/// Whether an operand is denormal: where it is not taken as zero, only if none is a NaN.
fn has_denormal<S: Flagged>(control: Control, of: Operands) -> bool
    requires { S.PRECISION < S.BITS }
    ensures { result ≡ has_denormal (constants_of S.Flagged) control of }
{
    any_is_denormal::<S>(of) && (control.denormals_are_zeros || !any_is_nan::<S>(of))
}

/// The reading of operands, in any format.
#[derive(Clone, Copy)]
struct Reading {
    control: Control,
    of: Operands,
}

impl InFlaggedFormat for Reading {
    type Output = ReadOperands;

    ghost gives = { λ it kind read. IsSaidOf (λ c. AreRead c it.control it.of read) kind };

    fn in_flagged_format<S: Flagged>(self) -> ReadOperands {
        let taken = Operands {
            x: taken::<S>(self.control, self.of.x),
            y: taken::<S>(self.control, self.of.y),
            z: taken::<S>(self.control, self.of.z),
        };
        ReadOperands {
            taken,
            has_denormal: has_denormal::<S>(self.control, self.of),
        }
    }
}

/// Whether a value lies between two integers of which the one nearer to zero is even.
fn is_above_even<S: Flagged>(x: IeeeFloat<S>) -> bool
    ensures { result ≡ is_above_even (format_of S.Flagged) x }
{
    let mut is_exact = false;
    let truncated = x.to_i128_r(128, Round::TowardZero, &mut is_exact);
    truncated.status == Status::INEXACT && truncated.value.unsigned_abs() % 2 == 0
}

/// The mode that takes a value to the odd one of the integers beside it.
fn odd_mode<S: Flagged>(x: IeeeFloat<S>) -> Round
    ensures { result ≡ odd_mode (format_of S.Flagged) x }
{
    if is_above_even(x) {
        if x.is_negative() {
            Round::TowardNegative
        } else {
            Round::TowardPositive
        }
    } else {
        Round::TowardZero
    }
}

/// `odd_mode` of bits, in any format.
#[derive(Clone, Copy)]
struct OddMode {
    x: u128,
}

impl InFlaggedFormat for OddMode {
    type Output = Round;

    ghost gives = { λ it kind mode.
        IsSaidOf (λ c. mode ≡ odd_mode (format_with c) (value_of c it.x)) kind };

    fn in_flagged_format<S: Flagged>(self) -> Round {
        odd_mode(value::<S>(self.x))
    }
}

/// The operand of an operation whose result is an integer or an integral value.
fn whole_operand(call: MachineCall) -> Option<u128>
    ensures { result ≡ whole_operand call }
{
    match call {
        MachineCall::Operation(MachineOperation::IntegralExact(x)) => Some(x),
        MachineCall::Operation(MachineOperation::Integral(x)) => Some(x),
        MachineCall::Operation(MachineOperation::ToUnsigned(x, _)) => Some(x),
        MachineCall::Operation(MachineOperation::ToSigned(x, _)) => Some(x),
        MachineCall::Operation(MachineOperation::ToSignedModulo(x, _)) => Some(x),
        _ => None,
    }
}

/// The value that an answer tells, with its flags.
fn told<S: Flagged>(answer: Answer) -> StatusAnd<IeeeFloat<S>>
    requires { S.PRECISION < S.BITS }
    ensures { IsTold (constants_of S.Flagged) answer result }
{
    StatusAnd {
        status: Status::from_bits_retain((answer.status % 256) as u8),
        value: value::<S>(answer.bits.number()),
    }
}

/// A value with its flags, made odd and flushed, where that is asked for.
fn finished<S: Flagged>(
    rounding: Rounding,
    control: Control,
    plain: StatusAnd<IeeeFloat<S>>,
) -> StatusAnd<IeeeFloat<S>>
    ensures { IsFinished (format_of S.Flagged) rounding control plain result }
{
    let rounded = if rounding.to_odd {
        to_odd(plain, plain.value.is_negative())
    } else {
        plain
    };
    match control.flush {
        None => rounded,
        Some(flush) => flushed(flush, rounded),
    }
}

/// What becomes of an answer, in any format.
#[derive(Clone, Copy)]
struct Finishing {
    rounding: Rounding,
    control: Control,
    given: Answer,
}

impl InFlaggedFormat for Finishing {
    type Output = Answer;

    ghost gives = { λ it kind answer.
        IsSaidOf (λ c. IsFinishedBy c it.rounding it.control it.given answer) kind };

    fn in_flagged_format<S: Flagged>(self) -> Answer {
        written(finished(self.rounding, self.control, told::<S>(self.given)))
    }
}

/// Whether the result is left as it is: an operand, as of MINSS, VRANGE, and FMIN with FPCR.AH, and the bits of an
/// alternative half.
fn is_left_alone(call: MachineCall) -> bool
    ensures { result ≡ is_left_alone call }
{
    match call {
        MachineCall::Operation(MachineOperation::Range(_, _, _)) => true,
        MachineCall::Operation(MachineOperation::ToAlternativeHalf(_)) => true,
        MachineCall::Operation(MachineOperation::Least(MinimumRule::Second, _, _)) => true,
        MachineCall::Operation(MachineOperation::Greatest(MinimumRule::Second, _, _)) => true,
        _ => false,
    }
}

/// Whether anything may become of a result.
fn finishes(control: Control, rounding: Rounding, call: MachineCall) -> bool
    ensures { result ≡ finishes control rounding call }
{
    whole_operand(call).is_none()
        && !is_left_alone(call)
        && (rounding.to_odd || control.flush.is_some())
}

/// The format of the result, if it has one.
fn result_format(format: MachineFormat, call: MachineCall) -> MachineFormat
    ensures { result ≡ result_format format call }
{
    match call {
        MachineCall::Operation(_) => format,
        MachineCall::Conversion(_, target) => target,
    }
}

/// The answer with 1 in `number` for a denormal operand, and 2 for what was rounded up.
fn noted(plain: Answer, control: Control, denormal: bool, up: bool) -> Answer
    ensures { result ≡ record plain { number = pos (notes control denormal plain.status up) } }
{
    let of_denormal = if denormal && (control.denormals_are_zeros || plain.status % 4 == 0) {
        1
    } else {
        0
    };
    let of_up = if up { 2 } else { 0 };
    Answer {
        bits: plain.bits,
        status: plain.status,
        number: of_denormal + of_up,
    }
}

/// The result of a call with the digits of the format `T`, if the precision control counts them.
fn shortened_to<T: Flagged>(
    call: MachineCall,
    rounding: Rounding,
    control: Control,
) -> Option<Answer>
    ensures { let g = format_of T.Flagged in IsShorter g (format_with x87_constants)
        → MatchOption (exact_of x87_constants g call) (result ≡ None)
        (λ exact. IsSomeAnd result (IsShortened g rounding control exact)) }
{
    match rounded_to::<X87DoubleExtendedS, T>(call, rounding.round) {
        None => None,
        Some(plain) => {
            let narrow = finished(rounding, control, plain);
            let wide: IeeeFloat<X87DoubleExtendedS> = widened(narrow.value);
            Some(written(narrow.status.and(wide)))
        }
    }
}

/// The same with 24 digits, tininess detected before or after rounding.
fn with_24_digits(
    tiny_before: bool,
    call: MachineCall,
    rounding: Rounding,
    control: Control,
) -> Option<Answer>
    ensures { let g = narrow_format tiny_before Single in
        MatchOption (exact_of x87_constants g call) (result ≡ None)
        (λ exact. IsSomeAnd result (IsShortened g rounding control exact)) }
{
    if tiny_before {
        shortened_to::<IeeeFlags<TinyBefore<X87SingleS>>>(call, rounding, control)
    } else {
        shortened_to::<IeeeFlags<X87SingleS>>(call, rounding, control)
    }
}

/// The same with 53 digits.
fn with_53_digits(
    tiny_before: bool,
    call: MachineCall,
    rounding: Rounding,
    control: Control,
) -> Option<Answer>
    ensures { let g = narrow_format tiny_before Double in
        MatchOption (exact_of x87_constants g call) (result ≡ None)
        (λ exact. IsSomeAnd result (IsShortened g rounding control exact)) }
{
    if tiny_before {
        shortened_to::<IeeeFlags<TinyBefore<X87DoubleS>>>(call, rounding, control)
    } else {
        shortened_to::<IeeeFlags<X87DoubleS>>(call, rounding, control)
    }
}

/// The same with the digits of a precision.
#[inline(never)]
fn shortened(
    precision: Precision,
    tiny_before: bool,
    call: MachineCall,
    rounding: Rounding,
    control: Control,
) -> Option<Answer>
    ensures { let g = narrow_format tiny_before precision in
        MatchOption (exact_of x87_constants g call) (result ≡ None)
        (λ exact. IsSomeAnd result (IsShortened g rounding control exact)) }
{
    match precision {
        Precision::Single => with_24_digits(tiny_before, call, rounding, control),
        Precision::Double => with_53_digits(tiny_before, call, rounding, control),
    }
}

/// A result where overflow and underflow are unmasked, given what it is where they are masked. `W` has the digits of
/// the result and wider exponents.
fn unmasked_in<S: Flagged, W: Flagged>(
    call: MachineCall,
    rounding: Rounding,
    control: Control,
    masked: Answer,
) -> Answer
    requires { S.PRECISION < S.BITS }
    ensures { IsWrappedBy (constants_of S.Flagged) (format_of W.Flagged) call rounding control
        masked result }
{
    match any_rounded_to::<S, W>(call, rounding.round) {
        None => masked,
        Some(rounded) => {
            let wide = finished(rounding, control, rounded);
            written(wrapped(told::<S>(masked), wide))
        }
    }
}

/// The same in any format, with all its digits.
#[derive(Clone, Copy)]
struct Unmasking {
    call: MachineCall,
    rounding: Rounding,
    control: Control,
    masked: Answer,
}

impl InFlaggedFormat for Unmasking {
    type Output = Answer;

    ghost gives = { λ it kind answer. IsSaidOf (λ c. IsWrappedBy c (unbounded c.precision) it.call
        it.rounding it.control it.masked answer) kind };

    fn in_flagged_format<S: Flagged>(self) -> Answer {
        unmasked_in::<S, Unbounded<S>>(self.call, self.rounding, self.control, self.masked)
    }
}

/// The same of x87 with fewer digits.
fn shortened_unmasked(
    precision: Precision,
    call: MachineCall,
    rounding: Rounding,
    control: Control,
    masked: Answer,
) -> Answer
    ensures { IsWrappedBy x87_constants (unbounded (digits precision)) call rounding control
        masked result }
{
    match precision {
        Precision::Single => unmasked_in::<X87DoubleExtendedS, Unbounded<X87SingleS>>(
            call, rounding, control, masked,
        ),
        Precision::Double => unmasked_in::<X87DoubleExtendedS, Unbounded<X87DoubleS>>(
            call, rounding, control, masked,
        ),
    }
}

impl Instruction {
    /// The precision that is asked for, which the format x87 alone has.
    #[inline(always)]
    fn precision(self) -> Option<Precision>
        ensures { result ≡ precision_in self.format.format self.control.precision }
    {
        match self.format.format {
            IeeeFormat::X87 => self.control.precision,
            _ => None,
        }
    }

    /// The result of a call by a rounding, if it has fewer digits than the format.
    #[inline(always)]
    fn with_fewer_digits(self, call: MachineCall, rounding: Rounding) -> Option<Answer>
        ensures { ByPrecision self call (result ≡ None)
            (λ g exact. IsSomeAnd result (IsShortened g rounding self.control exact)) }
    {
        match self.precision() {
            None => None,
            Some(precision) => {
                let tiny_before = self.format.is_tiny_before(self.machine);
                shortened(precision, tiny_before, call, rounding, self.control)
            }
        }
    }

    /// The mode of a call, by the operand of a result that is an integer or an integral value.
    fn mode(self, rounding: Rounding, operand: Option<u128>) -> Round
        ensures { result ≡ mode_by (constants_for self.format) rounding operand }
    {
        match operand {
            None => rounding.round,
            Some(x) => {
                if rounding.to_odd {
                    self.format.run_without_rule(OddMode { x })
                } else {
                    rounding.round
                }
            }
        }
    }

    /// Makes an answer odd and flushes it, where that is asked for.
    fn finish(self, call: MachineCall, rounding: Rounding, answer: &mut Answer)
        ensures { AreFinished self call rounding answer.old answer.new }
    {
        if finishes(self.control, rounding, call) {
            let finishing = Finishing {
                rounding,
                control: self.control,
                given: *answer,
            };
            *answer = result_format(self.format, call).run_without_rule(finishing);
        }
    }

    /// Makes a call by a rounding, with all digits of the format.
    #[inline(always)]
    fn with_all_digits(self, call: MachineCall, rounding: Rounding, answer: &mut Answer) -> u32
        ensures { IsLeftBy (machine_fault self.machine self.format call)
            (IsWithAllDigits self call rounding) answer.old answer.new result }
    {
        let round = self.mode(rounding, whole_operand(call));
        let code = made(self.machine, self.format, round, call, answer);
        if code != ANSWERED {
            return code;
        }
        self.finish(call, rounding, answer);
        ANSWERED
    }

    /// Makes a call by a rounding, with overflow and underflow masked.
    #[inline(never)]
    fn masked(self, call: MachineCall, rounding: Rounding, answer: &mut Answer) -> u32
        ensures { IsLeftBy (machine_fault self.machine self.format call)
            (IsMasked self call rounding) answer.old answer.new result }
    {
        match self.with_fewer_digits(call, rounding) {
            None => self.with_all_digits(call, rounding, answer),
            Some(short) => {
                *answer = short;
                ANSWERED
            }
        }
    }

    /// What becomes of a result where overflow and underflow are unmasked.
    fn unmasked(self, call: MachineCall, rounding: Rounding, masked: Answer) -> Answer
        ensures { IsWrappedBy (constants_for self.format) (wide_format self) call rounding
            self.control masked result }
    {
        let control = self.control;
        match self.precision() {
            None => self.format.run_without_rule(Unmasking {
                call,
                rounding,
                control,
                masked,
            }),
            Some(precision) => shortened_unmasked(precision, call, rounding, control, masked),
        }
    }

    /// Makes a call by a rounding.
    fn delivered(self, call: MachineCall, rounding: Rounding, answer: &mut Answer) -> u32
        ensures { IsLeftBy (machine_fault self.machine self.format call)
            (IsDelivered self call rounding) answer.old answer.new result }
    {
        let code = self.masked(call, rounding, answer);
        if code != ANSWERED {
            return code;
        }
        if self.control.unmasked {
            *answer = self.unmasked(call, rounding, *answer);
        }
        ANSWERED
    }

    /// Whether a magnitude was rounded up, where that is asked for.
    fn is_rounded_up(self, call: MachineCall, plain: Answer) -> bool
        requires { machine_fault self.machine self.format call ≡ None }
        ensures { IsUpTold self call plain result }
    {
        if self.control.tells_rounded_up && has_bit(plain.status, 16) {
            let mut toward = plain;
            self.delivered(call, TOWARD_ZERO, &mut toward);
            plain.bits.number() != toward.bits.number()
        } else {
            false
        }
    }

    /// Makes a call, with what else is told.
    fn answered(self, call: MachineCall, denormal: bool, answer: &mut Answer) -> u32
        ensures { IsLeftBy (machine_fault self.machine self.format call)
            (IsInstructionAnswer self call denormal) answer.old answer.new result }
    {
        let code = self.delivered(call, self.rounding, answer);
        if code != ANSWERED {
            return code;
        }
        let up = self.is_rounded_up(call, *answer);
        *answer = noted(*answer, self.control, denormal, up);
        ANSWERED
    }

    /// Makes the operation of a code, of operands that are read first.
    fn carried_out(self, operation: u32, to: u32, of: Operands, answer: &mut Answer) -> u32
        ensures { IsCarriedOut self operation to of answer.old answer.new result }
    {
        let control = self.control;
        let is_value = operation != FROM_ALTERNATIVE_HALF;
        let read = self.format.run_without_rule(Reading {
            control,
            of: if is_value { of } else { NO_OPERANDS },
        });
        let x = if is_value { read.taken.x } else { of.x };
        match machine_call(operation, to, x, read.taken.y, read.taken.z) {
            Err(fault) => fault,
            Ok(call) => self.answered(call, read.has_denormal, answer),
        }
    }
}

/// What these codes ask for, or the error.
fn known_instruction(
    kind: Option<FlaggedKind>,
    rounding: Option<Rounding>,
    machine: Option<CodedMachine>,
    word: u32,
) -> Result<Instruction, u32>
    ensures { result ≡ known_instruction kind rounding machine word }
{
    let Some(kind) = kind else {
        return Err(UNKNOWN_FORMAT);
    };
    let Some(rounding) = rounding else {
        return Err(UNKNOWN_MODE);
    };
    let Some(format) = MachineFormat::of(kind) else {
        return Err(NO_SUCH_OPERATION);
    };
    let Some(machine) = machine else {
        return Err(UNKNOWN_MACHINE);
    };
    match control_coded(machine, format, word) {
        None => Err(WRONG_CONTROL),
        Some(control) => Ok(Instruction {
            machine,
            format,
            rounding,
            control,
        }),
    }
}

/// Makes an operation of a machine with what a control word asks for, and returns 0 or the code of the first error; on
/// an error the answer is left unchanged. `to` is the format of a conversion, the width of an integer, or the rule of a
/// minimum or a maximum.
pub fn instructed(
    machine: u32,
    operation: u32,
    format: u32,
    mode: u32,
    control: u32,
    to: u32,
    x: Halves,
    y: Halves,
    z: Halves,
    answer: &mut Answer,
) -> u32
    ensures { let known = known_instruction (flagged_kind_coded format) (rounding_coded mode)
        (machine_coded machine) control in
        let of = operands_of operation (whole x) (whole y) (whole z) in
        IsInstructionReply known operation to of answer.old answer.new result }
{
    let kind = FlaggedKind::coded(format);
    match known_instruction(kind, rounding_coded(mode), machine_coded(machine), control) {
        Err(fault) => fault,
        Ok(known) => {
            let of = operands_of(operation, x.number(), y.number(), z.number());
            known.carried_out(operation, to, of, answer)
        }
    }
}
