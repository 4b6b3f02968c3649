//! The integers that machines give for invalid conversions (IEEE 754-2019 5.8, 7.2).

ghost use Rattle.std.specs.Prelude.{◌≡◌, ◌^◌, ◌-◌, ◌<◌, ◌≤◌, Bool, ℤ, pos, neg_ℤ};
ghost use Rattle.apfloat_model.specs.{declared.kinds.Round.Round, rounding.Flags.Gives, rounding.Flags.bits_of};
ghost use Rattle.apfloat_model.specs.whole_numbers.WholeNumbersOut.{IsToSigned, IsToUnsigned};
ghost use Rattle.apfloat_ieee.specs.FlaggedTypes.{format_of};
ghost use Rattle.apfloat_machines.specs.Operations.{IsOffered};
ghost use Rattle.apfloat_machines.specs.WholeNumbers.{IsMachineSigned, IsMachineUnsigned, invalid_integer};
ghost use Rattle.apfloat_machines.specs.WholeNumbers.{invalid_flags, signed_nan, unsigned_nan, IsSettledUnsigned};
ghost use Rattle.apfloat_machines.specs.WholeNumbers.{settled_number, settled_flags, greatest_signed, least_signed};

use crate::machine::{Machine, WholeOfNan};
use apfloat_base::{Float, Status, StatusAnd};
use apfloat_ieee::{Flagged, IeeeFloat};
use ieee_operations::raise_flags;

/// The answer of the conversion of `x` to a signed integer of `width` bits, 2 to 128, as the machine gives it: if it
/// raises INVALID_OP, the machine's integer with its flags, and otherwise unchanged.
#[inline]
pub fn settled_signed<S: Flagged>(
    machine: Machine,
    x: IeeeFloat<S>,
    width: usize,
    answer: StatusAnd<i128>,
) -> StatusAnd<i128>
    requires low { 2 ≤ width }
    requires high { width ≤ 128 }
    ensures value { result.value ≡ settled_number machine x (signed_nan machine width x)
        answer.value (bits_of answer.status) }
    ensures status { bits_of result.status ≡ settled_flags machine x (bits_of answer.status) }
    ensures whole { (mode : Round) → (exact : Bool)
        → IsToSigned (format_of S.Flagged) mode width x answer.value (bits_of answer.status) exact
        → Gives (IsMachineSigned (format_of S.Flagged) machine mode width x) result }
{
    if answer.status == Status::INVALID_OP {
        invalid_signed(machine, x, width, answer.value)
    } else {
        answer
    }
}

/// The answer of the conversion of `x` to an unsigned integer of `width` bits, 1 to 128, as the machine gives it, like
/// `settled_signed`. None if the machine has no such conversions, as the x87 unit.
#[inline]
pub fn settled_unsigned<S: Flagged>(
    machine: Machine,
    x: IeeeFloat<S>,
    width: usize,
    answer: StatusAnd<u128>,
) -> Option<StatusAnd<u128>>
    requires low { 1 ≤ width }
    requires high { width ≤ 128 }
    ensures { IsOffered machine.has_unsigned
        (IsSettledUnsigned (format_of S.Flagged) machine x width answer) result }
{
    if machine.has_unsigned {
        Some(unsigned_answer(machine, x, width, answer))
    } else {
        None
    }
}

/// The answer, with the machine's integer and its flags if it raises INVALID_OP.
#[inline]
fn unsigned_answer<S: Flagged>(
    machine: Machine,
    x: IeeeFloat<S>,
    width: usize,
    answer: StatusAnd<u128>,
) -> StatusAnd<u128>
    requires low { 1 ≤ width }
    requires high { width ≤ 128 }
    ensures value { pos result.value ≡ settled_number machine x (unsigned_nan machine width x)
        (pos answer.value) (bits_of answer.status) }
    ensures status { bits_of result.status ≡ settled_flags machine x (bits_of answer.status) }
    ensures whole { (mode : Round) → (exact : Bool)
        → IsToUnsigned (format_of S.Flagged) mode width x answer.value (bits_of answer.status) exact
        → Gives (IsMachineUnsigned (format_of S.Flagged) machine mode width x) result }
{
    if answer.status == Status::INVALID_OP {
        invalid_unsigned(machine, x, width, answer.value)
    } else {
        answer
    }
}

/// The integer of an invalid conversion, given the nearer end of the range.
#[cold]
#[inline(never)]
fn invalid_signed<S: Flagged>(
    machine: Machine,
    x: IeeeFloat<S>,
    width: usize,
    nearer: i128,
) -> StatusAnd<i128>
    requires low { 2 ≤ width }
    requires high { width ≤ 128 }
    ensures value { result.value ≡ invalid_integer machine x (signed_nan machine width x) nearer }
    ensures status { bits_of result.status ≡ invalid_flags machine x }
{
    let status = invalid_flags(machine, x);
    if x.is_nan() || machine.has_one_invalid_integer {
        status.and(signed_nan(machine, x, width))
    } else {
        status.and(nearer)
    }
}

/// The integer of an invalid conversion, given the nearer end of the range.
#[cold]
#[inline(never)]
fn invalid_unsigned<S: Flagged>(
    machine: Machine,
    x: IeeeFloat<S>,
    width: usize,
    nearer: u128,
) -> StatusAnd<u128>
    requires low { 1 ≤ width }
    requires high { width ≤ 128 }
    ensures value { pos result.value
        ≡ invalid_integer machine x (unsigned_nan machine width x) (pos nearer) }
    ensures status { bits_of result.status ≡ invalid_flags machine x }
{
    let status = invalid_flags(machine, x);
    if x.is_nan() || machine.has_one_invalid_integer {
        status.and(unsigned_nan(machine, x, width))
    } else {
        status.and(nearer)
    }
}

/// The flags of an invalid conversion.
fn invalid_flags<S: Flagged>(machine: Machine, x: IeeeFloat<S>) -> Status
    ensures { bits_of result ≡ invalid_flags machine x }
{
    if machine.invalid_integer_is_inexact && !x.is_nan() {
        raise_flags(Status::INVALID_OP, Status::INEXACT)
    } else {
        Status::INVALID_OP
    }
}

/// The signed integer that a NaN gives.
fn signed_nan<S: Flagged>(machine: Machine, x: IeeeFloat<S>, width: usize) -> i128
    requires low { 2 ≤ width }
    requires high { width ≤ 128 }
    ensures { result ≡ signed_nan machine width x }
{
    match machine.signed_of_nan {
        WholeOfNan::Zero => 0,
        WholeOfNan::Least => least_signed(width),
        WholeOfNan::Greatest => greatest_signed(width),
        WholeOfNan::BySign if x.is_negative() => least_signed(width),
        WholeOfNan::BySign => greatest_signed(width),
    }
}

/// The unsigned integer that a NaN gives.
fn unsigned_nan<S: Flagged>(machine: Machine, x: IeeeFloat<S>, width: usize) -> u128
    requires low { 1 ≤ width }
    requires high { width ≤ 128 }
    ensures { pos result ≡ unsigned_nan machine width x }
{
    match machine.unsigned_of_nan {
        WholeOfNan::Zero => 0,
        WholeOfNan::Least => 0,
        WholeOfNan::Greatest => greatest_unsigned(width),
        WholeOfNan::BySign if x.is_negative() => 0,
        WholeOfNan::BySign => greatest_unsigned(width),
    }
}

/// The least signed integer of a width.
fn least_signed(width: usize) -> i128
    requires low { 2 ≤ width }
    requires high { width ≤ 128 }
    ensures { result ≡ least_signed width }
{
    minus(power_of_two(width - 1))
}

/// The greatest signed integer of a width.
fn greatest_signed(width: usize) -> i128
    requires low { 2 ≤ width }
    requires high { width ≤ 128 }
    ensures { result ≡ greatest_signed width }
{
    signed(power_of_two(width - 1) - 1)
}

/// A power of two.
fn power_of_two(exponent: usize) -> u128
    requires { exponent < 128 }
    ensures { result ≡ 2 ^ exponent }
{
    1 << exponent
}

/// The signed integer that equals an unsigned one.
pub(crate) fn signed(magnitude: u128) -> i128
    requires { magnitude < 2 ^ 127 }
    ensures { result ≡ pos magnitude }
{
    magnitude as i128
}

/// The negation of an integer of at most 2 to the power of 127.
pub(crate) fn minus(magnitude: u128) -> i128
    requires { magnitude ≤ 2 ^ 127 }
    ensures { result ≡ neg_ℤ (pos magnitude) }
{
    if magnitude == 1 << 127 {
        i128::MIN
    } else {
        -(magnitude as i128)
    }
}

/// The greatest unsigned integer of a width.
fn greatest_unsigned(width: usize) -> u128
    requires low { 1 ≤ width }
    requires high { width ≤ 128 }
    ensures { result ≡ 2 ^ width - 1 }
{
    if width == 128 {
        u128::MAX
    } else {
        (1u128 << width) - 1
    }
}
