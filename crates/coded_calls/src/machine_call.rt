//! The operations of machines, by which the contract of their export names them, and the codes of machines, operations
//! and rules of minima.

ghost use Rattle.std.specs.Prelude.{◌≡◌, ℕ, IfSome, Some, Ok};
ghost use Rattle.formats_at_run_time.specs.FlaggedKinds.{flagged_constants, flagged_kind_coded};
ghost use Rattle.formats_at_run_time.specs.{Modes.mode_coded, ValueKinds.of_format};
ghost use Rattle.coded_calls.specs.{Answers.whole, declared.machine_call.MachineCall.TheVariants.Operation};
ghost use Rattle.coded_calls.specs.declared.machine_call.MachineOperation.TheVariants.{OfTwo};
ghost use Rattle.coded_calls.specs.MachineCalls.{choices, conversion_call, format_on, has_modulo, is_aarch64};
ghost use Rattle.coded_calls.specs.MachineCalls.{is_x86, range_coded, sign_coded};
ghost use Rattle.coded_calls.specs.MachineCalls.{is_tiny_before, kind_without_rule, machine_call, machine_coded};
ghost use Rattle.coded_calls.specs.MachineCalls.{machine_format, machine_operation, of_one, operation_call, rule_coded};

use crate::codes::{NO_SUCH_OPERATION, UNKNOWN_FORMAT};
use crate::ieee_call::extremum_coded;
use apfloat_machines::{Machine, MinimumRule, RangeRule, RangeSign};
use formats_at_run_time::{
    Arithmetic, BuiltInKind, FillsInFormat, FlaggedFormat, FlaggedKind, IeeeFormat,
    InFlaggedFormat, mode_coded,
};
use rustc_apfloat::Round;
use rustc_apfloat::ieee::{
    BFloatS, DoubleS, Float8E5M2S, HalfS, QuadS, SingleS, X87DoubleExtendedS,
};

/// The code of conversions to another format.
const CONVERSION: u32 = 11;

/// A machine by its name, which takes less room than its choices where calls pass it on.
#[derive(Clone, Copy)]
pub enum CodedMachine {
    /// `Machine::X86`, and the others likewise.
    X86,
    /// `Machine::X87`.
    X87,
    /// `Machine::ARM`.
    Arm,
    /// `Machine::ARM_DEFAULT_NAN`.
    ArmDefaultNan,
    /// `Machine::ARM_ALTERNATE`.
    ArmAlternate,
    /// `Machine::RISC_V`.
    RiscV,
    /// `Machine::POWER`.
    Power,
    /// `Machine::S390X`.
    S390x,
    /// `Machine::ARM_ALTERNATE_DEFAULT_NAN`.
    ArmAlternateDefaultNan,
    /// `Machine::WEBASSEMBLY`.
    Webassembly,
    /// `Machine::PTX`.
    Ptx,
    /// `Machine::MIPS_2008`.
    Mips2008,
    /// `Machine::LOONGARCH`.
    Loongarch,
    /// `Machine::SPARC`.
    Sparc,
    /// `Machine::M68K`.
    M68k,
}

/// The choices of the machines, in the order of their names. A table, unlike a `match`, is read only where a choice is
/// asked for.
static MACHINES: [Machine; 15] = [
    Machine::X86,
    Machine::X87,
    Machine::ARM,
    Machine::ARM_DEFAULT_NAN,
    Machine::ARM_ALTERNATE,
    Machine::RISC_V,
    Machine::POWER,
    Machine::S390X,
    Machine::ARM_ALTERNATE_DEFAULT_NAN,
    Machine::WEBASSEMBLY,
    Machine::PTX,
    Machine::MIPS_2008,
    Machine::LOONGARCH,
    Machine::SPARC,
    Machine::M68K,
];

/// The machines on which a result is tiny by its exact magnitude, each a binary digit: to look at one takes less than a
/// `match`.
const TINY_BEFORE_ROUNDING: u32 = 1 << CodedMachine::Arm as u32
    | 1 << CodedMachine::ArmDefaultNan as u32
    | 1 << CodedMachine::Power as u32
    | 1 << CodedMachine::S390x as u32
    | 1 << CodedMachine::Sparc as u32
    | 1 << CodedMachine::M68k as u32;

impl CodedMachine {
    /// What the machine does.
    #[inline(always)]
    pub fn choices(self) -> Machine
        ensures { result ≡ choices self }
    {
        MACHINES[self as usize]
    }

    /// Whether the machine has fused sums, which is asked on the usual path, and is no look into the table.
    #[inline(always)]
    pub fn has_fused(self) -> bool
        ensures { result ≡ (choices self).has_fused }
    {
        match self {
            CodedMachine::X87 | CodedMachine::M68k => false,
            _ => true,
        }
    }

    /// Whether the machine is AArch64.
    pub fn is_aarch64(self) -> bool
        ensures { result ≡ is_aarch64 self }
    {
        match self {
            CodedMachine::Arm | CodedMachine::ArmDefaultNan => true,
            CodedMachine::ArmAlternate | CodedMachine::ArmAlternateDefaultNan => true,
            _ => false,
        }
    }

    /// Whether the machine is x86 with SSE and AVX.
    pub fn is_x86(self) -> bool
        ensures { result ≡ is_x86 self }
    {
        match self {
            CodedMachine::X86 => true,
            _ => false,
        }
    }

    /// Whether the machine has conversions to integers modulo a power of two.
    pub fn has_modulo(self) -> bool
        ensures { result ≡ has_modulo self }
    {
        match self {
            CodedMachine::RiscV => true,
            _ => self.is_aarch64(),
        }
    }

    /// Whether a result is tiny by its exact magnitude on the machine, which is asked on the usual path too.
    #[inline(always)]
    pub fn tiny_before_rounding(self) -> bool
        ensures { result ≡ (choices self).tiny_before_rounding }
    {
        TINY_BEFORE_ROUNDING >> self as u32 & 1 == 1
    }
}

/// What a machine is asked for on values of a format; they are given by their bits.
#[derive(Clone, Copy)]
pub enum MachineCall {
    /// An operation whose result is an integer, or of the same format.
    Operation(MachineOperation),
    /// A value in another format.
    Conversion(u128, MachineFormat),
}

/// An operation of a machine on values of a format, whose result is an integer, or of the same format.
#[derive(Clone, Copy)]
pub enum MachineOperation {
    /// An operation on two values.
    OfTwo(Arithmetic, u128, u128),
    /// The product of the first two values plus the third, rounded once.
    FusedSum(u128, u128, u128),
    /// The square root of a value.
    SquareRoot(u128),
    /// A value rounded to an integral value, with INEXACT (5.9, roundToIntegralExact).
    IntegralExact(u128),
    /// A value rounded to an integral value, without INEXACT (5.9).
    Integral(u128),
    /// A value as an integer of that many binary digits.
    ToUnsigned(u128, u32),
    /// A value as an integer of that many binary digits, in two's complement.
    ToSigned(u128, u32),
    /// The lesser of two values, by a rule.
    Least(MinimumRule, u128, u128),
    /// The greater of two values, by a rule.
    Greatest(MinimumRule, u128, u128),
    /// A value toward zero as an integer of that many binary digits, in two's complement, modulo a power of two.
    ToSignedModulo(u128, u32),
    /// The product of two values, of which an infinity times a zero is 2.
    ExtendedProduct(u128, u128),
    /// A minimum or a maximum of two values, with a sign that is chosen.
    Range(RangeRule, u128, u128),
    /// A value in the bits of Arm's alternative half precision.
    ToAlternativeHalf(u128),
    /// The value of bits of Arm's alternative half precision.
    FromAlternativeHalf(u128),
}

/// An operation on one value, without the value.
#[derive(Clone, Copy)]
pub enum OneOperation {
    /// The square root.
    SquareRoot,
    /// Rounded to an integral value, with INEXACT.
    IntegralExact,
    /// Rounded to an integral value, without INEXACT.
    Integral,
    /// As an integer.
    ToUnsigned,
    /// As an integer in two's complement.
    ToSigned,
}

/// A format with a choice of flags, as its code names it.
#[derive(Clone, Copy)]
pub struct MachineFormat {
    /// The format.
    pub format: IeeeFormat,
    /// Whether a result is tiny by its exact magnitude, if the code has a rule of flags; otherwise the machine decides.
    pub tiny_before: Option<bool>,
}

impl MachineFormat {
    /// The format of this kind, if it has a choice of flags.
    #[inline(always)]
    pub fn of(kind: FlaggedKind) -> Option<MachineFormat>
        ensures { result ≡ machine_format kind }
    {
        match kind {
            FlaggedKind::Pairs => None,
            FlaggedKind::OfFormat(FlaggedFormat::BuiltIn(format)) => {
                match IeeeFormat::of(BuiltInKind::OfFormat(format)) {
                    None => None,
                    Some(format) => Some(MachineFormat {
                        format,
                        tiny_before: None,
                    }),
                }
            }
            FlaggedKind::OfFormat(FlaggedFormat::AfterRounding(format)) => Some(MachineFormat {
                format,
                tiny_before: Some(false),
            }),
            FlaggedKind::OfFormat(FlaggedFormat::BeforeRounding(format)) => Some(MachineFormat {
                format,
                tiny_before: Some(true),
            }),
        }
    }

    /// Makes a call that fills a lent place, in the format with its rule of flags on a machine.
    #[inline(always)]
    pub fn fill<C: FillsInFormat>(
        self,
        machine: CodedMachine,
        call: C,
        place: &mut C::Place,
    ) -> C::Output
        ensures { C.gives call (of_format (flagged_constants (format_on machine self)))
            place.old place.new result }
    {
        self.on(machine).fill(call, place)
    }

    /// Makes a call in the format without its rule of flags, which bits do not depend on.
    #[inline(always)]
    pub fn run_without_rule<C: InFlaggedFormat>(self, call: C) -> C::Output
        ensures { C.gives call (kind_without_rule self) result }
    {
        match self.format {
            IeeeFormat::Half => call.in_flagged_format::<HalfS>(),
            IeeeFormat::Single => call.in_flagged_format::<SingleS>(),
            IeeeFormat::Double => call.in_flagged_format::<DoubleS>(),
            IeeeFormat::Quad => call.in_flagged_format::<QuadS>(),
            IeeeFormat::BFloat => call.in_flagged_format::<BFloatS>(),
            IeeeFormat::E5M2 => call.in_flagged_format::<Float8E5M2S>(),
            IeeeFormat::X87 => call.in_flagged_format::<X87DoubleExtendedS>(),
        }
    }

    /// Makes a call that fills a lent place, in the format without its rule of flags.
    #[inline(always)]
    pub fn fill_without_rule<C: FillsInFormat>(self, call: C, place: &mut C::Place) -> C::Output
        ensures { C.gives call (kind_without_rule self) place.old place.new result }
    {
        match self.format {
            IeeeFormat::Half => call.fill_in_format::<HalfS>(place),
            IeeeFormat::Single => call.fill_in_format::<SingleS>(place),
            IeeeFormat::Double => call.fill_in_format::<DoubleS>(place),
            IeeeFormat::Quad => call.fill_in_format::<QuadS>(place),
            IeeeFormat::BFloat => call.fill_in_format::<BFloatS>(place),
            IeeeFormat::E5M2 => call.fill_in_format::<Float8E5M2S>(place),
            IeeeFormat::X87 => call.fill_in_format::<X87DoubleExtendedS>(place),
        }
    }

    /// The format with its rule of flags on a machine.
    #[inline(always)]
    fn on(self, machine: CodedMachine) -> FlaggedFormat
        ensures { result ≡ format_on machine self }
    {
        if self.is_tiny_before(machine) {
            FlaggedFormat::BeforeRounding(self.format)
        } else {
            FlaggedFormat::AfterRounding(self.format)
        }
    }

    /// Whether a result is tiny by its exact magnitude on a machine.
    #[inline(always)]
    pub fn is_tiny_before(self, machine: CodedMachine) -> bool
        ensures { result ≡ is_tiny_before machine self.tiny_before }
    {
        match self.tiny_before {
            None => machine.tiny_before_rounding(),
            Some(tiny_before) => tiny_before,
        }
    }
}

/// The machine of this code, if there is one.
#[inline(always)]
pub fn machine_coded(code: u32) -> Option<CodedMachine>
    ensures { result ≡ machine_coded code }
{
    match code {
        1 => Some(CodedMachine::X86),
        2 => Some(CodedMachine::X87),
        3 => Some(CodedMachine::Arm),
        4 => Some(CodedMachine::ArmDefaultNan),
        5 => Some(CodedMachine::ArmAlternate),
        6 => Some(CodedMachine::RiscV),
        7 => Some(CodedMachine::Power),
        8 => Some(CodedMachine::S390x),
        9 => Some(CodedMachine::ArmAlternateDefaultNan),
        10 => Some(CodedMachine::Webassembly),
        11 => Some(CodedMachine::Ptx),
        12 => Some(CodedMachine::Mips2008),
        13 => Some(CodedMachine::Loongarch),
        14 => Some(CodedMachine::Sparc),
        15 => Some(CodedMachine::M68k),
        _ => None,
    }
}

/// The rule of minima of this code, if there is one.
#[inline(always)]
pub fn rule_coded(code: u32) -> Option<MinimumRule>
    ensures { result ≡ rule_coded code }
{
    match code {
        1 => Some(MinimumRule::Second),
        2 => Some(MinimumRule::SecondQuietly),
        3 => Some(MinimumRule::FirstNan),
        4 => Some(MinimumRule::Number2008),
        5 => Some(MinimumRule::Number2019),
        6 => Some(MinimumRule::Propagated),
        _ => None,
    }
}

/// The rule of VRANGE of bits 3:0 of its immediate operand, if the others are 0.
fn range_coded(code: u32) -> Option<RangeRule>
    ensures { result ≡ range_coded code }
{
    match extremum_coded(code % 4) {
        None => None,
        Some(extremum) => match sign_coded(code / 4) {
            None => None,
            Some(sign) => Some(RangeRule { extremum, sign }),
        },
    }
}

/// The sign of this code, if there is one.
fn sign_coded(code: u32) -> Option<RangeSign>
    ensures { result ≡ sign_coded code }
{
    match code {
        0 => Some(RangeSign::OfFirst),
        1 => Some(RangeSign::OfChosen),
        2 => Some(RangeSign::Positive),
        3 => Some(RangeSign::Negative),
        _ => None,
    }
}

/// What this code asks for, on as many of the values as it takes, or the error: `to` is the code of the format of a
/// conversion, the binary digits of an integer, or the code of a rule of minima or of VRANGE.
#[inline(always)]
pub fn machine_call(code: u32, to: u32, x: u128, y: u128, z: u128) -> Result<MachineCall, u32>
    ensures { result ≡ machine_call code to x y z }
{
    if code == CONVERSION {
        conversion_call(FlaggedKind::coded(to), x)
    } else {
        operation_call(machine_operation(code, to, x, y, z))
    }
}

/// The call that makes an operation, if it is known.
#[inline(always)]
fn operation_call(operation: Option<MachineOperation>) -> Result<MachineCall, u32>
    ensures { result ≡ operation_call operation }
{
    match operation {
        None => Err(NO_SUCH_OPERATION),
        Some(operation) => Ok(MachineCall::Operation(operation)),
    }
}

/// The operation of this code, if there is one.
#[inline(always)]
fn machine_operation(code: u32, to: u32, x: u128, y: u128, z: u128) -> Option<MachineOperation>
    ensures { result ≡ machine_operation code to x y z }
{
    match code {
        1 => Some(MachineOperation::OfTwo(Arithmetic::Sum, x, y)),
        2 => Some(MachineOperation::OfTwo(Arithmetic::Difference, x, y)),
        3 => Some(MachineOperation::OfTwo(Arithmetic::Product, x, y)),
        4 => Some(MachineOperation::OfTwo(Arithmetic::Quotient, x, y)),
        5 => Some(MachineOperation::OfTwo(Arithmetic::NearestRemainder, x, y)),
        6 => Some(MachineOperation::OfTwo(Arithmetic::TruncatedRemainder, x, y)),
        7 => Some(MachineOperation::FusedSum(x, y, z)),
        8 => Some(MachineOperation::SquareRoot(x)),
        9 => Some(MachineOperation::IntegralExact(x)),
        10 => Some(MachineOperation::Integral(x)),
        12 => Some(MachineOperation::ToUnsigned(x, to)),
        13 => Some(MachineOperation::ToSigned(x, to)),
        14 => Some(MachineOperation::Least(rule_coded(to)?, x, y)),
        15 => Some(MachineOperation::Greatest(rule_coded(to)?, x, y)),
        16 => Some(MachineOperation::ToSignedModulo(x, to)),
        17 => Some(MachineOperation::ExtendedProduct(x, y)),
        18 => Some(MachineOperation::Range(range_coded(to)?, x, y)),
        19 => Some(MachineOperation::ToAlternativeHalf(x)),
        20 => Some(MachineOperation::FromAlternativeHalf(x)),
        _ => None,
    }
}

/// The code of an operation on one value.
#[inline(always)]
pub fn one_code(operation: OneOperation) -> u32
    ensures { (to x y z : ℕ) → machine_call result to x y z
        ≡ Ok (Operation (of_one operation to x)) }
{
    match operation {
        OneOperation::SquareRoot => 8,
        OneOperation::IntegralExact => 9,
        OneOperation::Integral => 10,
        OneOperation::ToUnsigned => 12,
        OneOperation::ToSigned => 13,
    }
}

/// The code of an operation on two values.
#[inline(always)]
pub fn two_code(arithmetic: Arithmetic) -> u32
    ensures { (to x y z : ℕ) → machine_call result to x y z
        ≡ Ok (Operation (OfTwo arithmetic x y)) }
{
    match arithmetic {
        Arithmetic::Sum => 1,
        Arithmetic::Difference => 2,
        Arithmetic::Product => 3,
        Arithmetic::Quotient => 4,
        Arithmetic::NearestRemainder => 5,
        Arithmetic::TruncatedRemainder => 6,
    }
}

/// The conversion of a value to a kind, which may be unknown.
#[inline(always)]
fn conversion_call(target: Option<FlaggedKind>, x: u128) -> Result<MachineCall, u32>
    ensures { result ≡ conversion_call target x }
{
    let Some(target) = target else {
        return Err(UNKNOWN_FORMAT);
    };
    match MachineFormat::of(target) {
        None => Err(NO_SUCH_OPERATION),
        Some(target) => Ok(MachineCall::Conversion(x, target)),
    }
}

/// On what machine, and in which rounding mode, an operation is asked for.
#[derive(Clone, Copy)]
pub struct Setting {
    /// The machine.
    pub machine: CodedMachine,
    /// The rounding mode.
    pub round: Round,
}

/// The setting of these codes, if both are known.
#[inline(always)]
pub fn known_setting(machine: u32, mode: u32) -> Option<Setting>
    ensures machine { IfSome result (λ known. machine_coded machine ≡ Some known.machine) }
    ensures mode { IfSome result (λ known. mode_coded mode ≡ Some known.round) }
{
    let Some(machine) = machine_coded(machine) else {
        return None;
    };
    let Some(round) = mode_coded(mode) else {
        return None;
    };
    Some(Setting { machine, round })
}
