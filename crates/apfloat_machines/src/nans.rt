//! The NaN that a machine delivers (IEEE 754-2019 6.2.3, 7.2).

ghost use Rattle.std.specs.Prelude.{◌≡◌, ◌<◌, if◌then◌else◌};
ghost use Rattle.apfloat_model.specs.{declared.kinds.NonfiniteBehavior.TheVariants.IEEE754, order.Classes.is_nan};
ghost use Rattle.apfloat_model.specs.rounding.Negation.{negated};
ghost use Rattle.apfloat_ieee.specs.FlaggedTypes.{format_of};
ghost use Rattle.ieee_operations.specs.Extrema.{quieted_datum};
ghost use Rattle.apfloat_machines.specs.{declared.flushing.Flush.Flush, FlushedMachines.AreFlushedAndSettled};
ghost use Rattle.apfloat_machines.specs.Nans.{default_nan, machine_nan, nan_of, settled, signaling_first, is_greater};
ghost use Rattle.apfloat_machines.specs.Nans.{is_unsupported, taken, takes_none};
ghost use Rattle.apfloat_machines.specs.Operations.{AreSettled, AreSettledOfOne};

use crate::machine::{Machine, NanChoice};
use apfloat_base::{Float, StatusAnd};
use apfloat_ieee::{Flagged, IeeeFloat};
use ieee_operations::total_order_mag;

/// The answer of an operation on two operands, as the machine gives it: if it is a NaN, the machine's NaN, and
/// otherwise unchanged. The flags are those of the answer.
///
/// `x` and `y` are the operands in the machine's order. The operation is a sum, a difference, a product, a quotient or
/// a remainder of a format with infinities and with bits. If the answer was flushed (`flushed`), the result is that of
/// the machine with flushing (`IsFlushedMachineSum` and the definitions beside it).
#[inline]
pub fn settled<S: Flagged>(
    machine: Machine,
    x: IeeeFloat<S>,
    y: IeeeFloat<S>,
    answer: StatusAnd<IeeeFloat<S>>,
) -> StatusAnd<IeeeFloat<S>>
    requires { S.PRECISION < S.BITS }
    ensures value { result.value ≡ settled (format_of S.Flagged) machine x y answer.value }
    ensures status { result.status ≡ answer.status }
    ensures operations { (format_of S.Flagged).nonfinite ≡ IEEE754
        → AreSettled (format_of S.Flagged) machine x y answer result }
    ensures flushed { (format_of S.Flagged).nonfinite ≡ IEEE754 → (flush : Flush)
        → AreFlushedAndSettled (format_of S.Flagged) machine flush x y answer result }
{
    answer.status.and(with_nan(machine, x, y, answer.value))
}

/// The answer of an operation on one operand, as the machine gives it, like `settled`: of a square root, or of rounding
/// to an integral value.
#[inline]
pub fn settled_unary<S: Flagged>(
    machine: Machine,
    x: IeeeFloat<S>,
    answer: StatusAnd<IeeeFloat<S>>,
) -> StatusAnd<IeeeFloat<S>>
    requires { S.PRECISION < S.BITS }
    ensures value { result.value ≡ settled (format_of S.Flagged) machine x x answer.value }
    ensures status { result.status ≡ answer.status }
    ensures operations { (format_of S.Flagged).nonfinite ≡ IEEE754
        → AreSettledOfOne (format_of S.Flagged) machine x answer result }
{
    answer.status.and(with_nan(machine, x, x, answer.value))
}

/// The value, or the machine's NaN in place of a NaN.
#[inline]
fn with_nan<S: Flagged>(
    machine: Machine,
    x: IeeeFloat<S>,
    y: IeeeFloat<S>,
    value: IeeeFloat<S>,
) -> IeeeFloat<S>
    requires { S.PRECISION < S.BITS }
    ensures { result ≡ settled (format_of S.Flagged) machine x y value }
{
    if value.is_nan() {
        machine_nan(machine, x, y)
    } else {
        value
    }
}

/// The NaN that an operation on two operands delivers: made of an operand that is a NaN, or the default if there is
/// none, if the machine always delivers the default, or if the x87 unit does not take an operand. Only for a format
/// with bits.
#[cold]
#[inline(never)]
pub fn machine_nan<S: Flagged>(machine: Machine, x: IeeeFloat<S>, y: IeeeFloat<S>) -> IeeeFloat<S>
    requires { S.PRECISION < S.BITS }
    ensures { result ≡ machine_nan (format_of S.Flagged) machine x y }
{
    if x.is_nan() || y.is_nan() {
        nan_of(machine, x, y)
    } else {
        default_nan(machine)
    }
}

/// The quiet NaN that an invalid operation delivers, with the machine's sign and payload.
pub fn default_nan<S: Flagged>(machine: Machine) -> IeeeFloat<S>
    ensures { result ≡ default_nan (format_of S.Flagged) machine }
{
    let positive: IeeeFloat<S> = IeeeFloat::qnan(Some(machine.default_payload));
    if machine.default_is_negative {
        -positive
    } else {
        positive
    }
}

/// The value negated, except that a NaN keeps its sign: an operand or a result that an instruction negates on x86 and
/// POWER, and on AArch64 with FPCR.AH set.
#[inline]
pub fn negated_number<S: Flagged>(x: IeeeFloat<S>) -> IeeeFloat<S>
    ensures { result ≡ (if is_nan x then x else negated (format_of S.Flagged).nonfinite x) }
{
    if x.is_nan() { x } else { -x }
}

/// The NaN of two operands, at least one of which is a NaN.
fn nan_of<S: Flagged>(machine: Machine, x: IeeeFloat<S>, y: IeeeFloat<S>) -> IeeeFloat<S>
    requires { S.PRECISION < S.BITS }
    ensures { result ≡ nan_of (format_of S.Flagged) machine x y }
{
    if takes_none(machine.nan_choice, x, y) {
        default_nan(machine)
    } else {
        quieted(taken(machine.nan_choice, x, y))
    }
}

/// Whether no operand is taken, so that the default is delivered.
pub(crate) fn takes_none<S: Flagged>(choice: NanChoice, x: IeeeFloat<S>, y: IeeeFloat<S>) -> bool
    ensures { result ≡ takes_none choice (format_of S.Flagged) x y }
{
    match choice {
        NanChoice::First => false,
        NanChoice::SignalingFirst => false,
        NanChoice::SignalingLast => false,
        NanChoice::Greater => is_unsupported(x) || is_unsupported(y),
        NanChoice::AlwaysDefault => true,
    }
}

/// The operand that is taken, as it is; a NaN if either is.
#[inline(always)]
pub(crate) fn taken<S: Flagged>(choice: NanChoice, x: IeeeFloat<S>, y: IeeeFloat<S>) -> IeeeFloat<S>
    requires { S.PRECISION < S.BITS }
    ensures { result ≡ taken choice (format_of S.Flagged) x y }
{
    match choice {
        NanChoice::First => if x.is_nan() { x } else { y },
        NanChoice::SignalingFirst => signaling_first(x, y),
        NanChoice::SignalingLast => signaling_first(y, x),
        NanChoice::Greater => {
            if x.is_nan() && (!y.is_nan() || is_greater(x, y)) {
                x
            } else {
                y
            }
        }
        NanChoice::AlwaysDefault => if x.is_nan() { x } else { y },
    }
}

/// The first signaling NaN, or else the first NaN.
fn signaling_first<S: Flagged>(x: IeeeFloat<S>, y: IeeeFloat<S>) -> IeeeFloat<S>
    ensures { result ≡ signaling_first (format_of S.Flagged) x y }
{
    if x.is_signaling() {
        x
    } else if y.is_signaling() {
        y
    } else if x.is_nan() {
        x
    } else {
        y
    }
}

/// Of two NaNs, whether the first is the greater one, or the same as the other and positive.
fn is_greater<S: Flagged>(x: IeeeFloat<S>, y: IeeeFloat<S>) -> bool
    requires { S.PRECISION < S.BITS }
    ensures { result ≡ is_greater (format_of S.Flagged) x y }
{
    total_order_mag(y, x) && !(total_order_mag(x, y) && x.is_negative())
}

/// Whether the value is a NaN that stays signaling when it is quieted: one of the x87 format without its integer bit.
fn is_unsupported<S: Flagged>(x: IeeeFloat<S>) -> bool
    ensures { result ≡ is_unsupported (format_of S.Flagged) x }
{
    quieted(x).is_signaling()
}

/// A NaN quieted; any other value as it is.
pub(crate) fn quieted<S: Flagged>(x: IeeeFloat<S>) -> IeeeFloat<S>
    ensures { result ≡ quieted_datum (format_of S.Flagged) x }
{
    if x.is_nan() { x.scalbn(0) } else { x }
}
