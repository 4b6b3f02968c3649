//! Fused sums of machines (IEEE 754-2019 5.4.1, 7.2).

ghost use Rattle.std.specs.Prelude.{◌≡◌, ◌<◌, if◌then◌else◌};
ghost use Rattle.apfloat_model.specs.{rounding.Flags.bits_of, formats.Nan.invalid_if};
ghost use Rattle.apfloat_ieee.specs.FlaggedTypes.{format_of};
ghost use Rattle.apfloat_machines.specs.Invalid.{is_invalid_product};
ghost use Rattle.apfloat_machines.specs.Operations.{IsOffered, IsSettledFused, drops_addend, fused_nan};
ghost use Rattle.apfloat_machines.specs.Operations.{fused_takes_none, is_invalid_of_nans, taken_in_order};
ghost use Rattle.apfloat_machines.specs.Operations.{is_nan_of_three, settled_fused, settled_fused_flags};

use crate::machine::{FusedOrder, Machine, NanChoice};
use crate::nans::{default_nan, quieted, taken, takes_none};
use apfloat_base::{Float, Status, StatusAnd};
use apfloat_ieee::{Flagged, IeeeFloat};

/// The answer of the fused sum `x * y + z`, as the machine gives it: if it is a NaN, the machine's NaN with its flags,
/// and otherwise unchanged. None if the machine has no fused sums, as the x87 unit.
///
/// `x` and `y` are the factors in the machine's order. The format has infinities and bits.
#[inline]
pub fn settled_fused<S: Flagged>(
    machine: Machine,
    x: IeeeFloat<S>,
    y: IeeeFloat<S>,
    z: IeeeFloat<S>,
    answer: StatusAnd<IeeeFloat<S>>,
) -> Option<StatusAnd<IeeeFloat<S>>>
    requires { S.PRECISION < S.BITS }
    ensures { IsOffered machine.has_fused
        (IsSettledFused (format_of S.Flagged) machine x y z answer) result }
{
    if machine.has_fused {
        Some(with_nan(machine, x, y, z, answer))
    } else {
        None
    }
}

/// The answer, with the machine's NaN and its flags if it is a NaN.
#[inline]
fn with_nan<S: Flagged>(
    machine: Machine,
    x: IeeeFloat<S>,
    y: IeeeFloat<S>,
    z: IeeeFloat<S>,
    answer: StatusAnd<IeeeFloat<S>>,
) -> StatusAnd<IeeeFloat<S>>
    requires { S.PRECISION < S.BITS }
    ensures value { result.value
        ≡ settled_fused (format_of S.Flagged) machine x y z answer.value }
    ensures status { bits_of result.status
        ≡ settled_fused_flags (format_of S.Flagged) machine x y z answer.value
        (bits_of answer.status) }
{
    if answer.value.is_nan() {
        nan_answer(machine, x, y, z, answer.status)
    } else {
        answer
    }
}

/// The NaN of a fused sum, with its flags, given those of the answer.
#[cold]
#[inline(never)]
fn nan_answer<S: Flagged>(
    machine: Machine,
    x: IeeeFloat<S>,
    y: IeeeFloat<S>,
    z: IeeeFloat<S>,
    status: Status,
) -> StatusAnd<IeeeFloat<S>>
    requires { S.PRECISION < S.BITS }
    ensures value { result.value ≡ fused_nan (format_of S.Flagged) machine x y z }
    ensures status { bits_of result.status ≡ (if is_nan_of_three x y z
        then invalid_if (is_invalid_of_nans (format_of S.Flagged) machine x y z)
        else bits_of status) }
{
    let flags = if !is_nan_of_three(x, y, z) {
        status
    } else if is_invalid_of_nans(machine, x, y, z) {
        Status::INVALID_OP
    } else {
        Status::OK
    };
    flags.and(fused_nan(machine, x, y, z))
}

/// Whether an operand is a NaN.
fn is_nan_of_three<S: Flagged>(x: IeeeFloat<S>, y: IeeeFloat<S>, z: IeeeFloat<S>) -> bool
    ensures { result ≡ is_nan_of_three x y z }
{
    x.is_nan() || (y.is_nan() || z.is_nan())
}

/// The NaN that is delivered.
fn fused_nan<S: Flagged>(
    machine: Machine,
    x: IeeeFloat<S>,
    y: IeeeFloat<S>,
    z: IeeeFloat<S>,
) -> IeeeFloat<S>
    requires { S.PRECISION < S.BITS }
    ensures { result ≡ fused_nan (format_of S.Flagged) machine x y z }
{
    if is_nan_of_three(x, y, z) && !fused_takes_none(machine, x, y, z) {
        quieted(taken_in_order(machine.fused_order, machine.nan_choice, x, y, z))
    } else {
        default_nan(machine)
    }
}

/// Whether no operand is taken, so that the default is delivered.
fn fused_takes_none<S: Flagged>(
    machine: Machine,
    x: IeeeFloat<S>,
    y: IeeeFloat<S>,
    z: IeeeFloat<S>,
) -> bool
    ensures { result ≡ fused_takes_none (format_of S.Flagged) machine x y z }
{
    takes_none(machine.nan_choice, x, y)
        || (takes_none(machine.nan_choice, x, z)
            || (is_invalid_product(x, y) && drops_addend(machine, z)))
}

/// Whether an invalid product takes the place of the NaN that is added to it.
fn drops_addend<S: Flagged>(machine: Machine, z: IeeeFloat<S>) -> bool
    ensures { result ≡ drops_addend (format_of S.Flagged) machine z }
{
    if z.is_signaling() {
        machine.drops_signaling_addend
    } else {
        machine.drops_quiet_addend
    }
}

/// Whether operands of which one is a NaN raise INVALID_OP.
fn is_invalid_of_nans<S: Flagged>(
    machine: Machine,
    x: IeeeFloat<S>,
    y: IeeeFloat<S>,
    z: IeeeFloat<S>,
) -> bool
    ensures { result ≡ is_invalid_of_nans (format_of S.Flagged) machine x y z }
{
    x.is_signaling()
        || (y.is_signaling()
            || (z.is_signaling() || (is_invalid_product(x, y) && machine.flags_quiet_addend)))
}

/// Whether the product is that of a zero and an infinity.
pub(crate) fn is_invalid_product<S: Flagged>(x: IeeeFloat<S>, y: IeeeFloat<S>) -> bool
    ensures { result ≡ is_invalid_product x y }
{
    (x.is_zero() && y.is_infinite()) || (x.is_infinite() && y.is_zero())
}

/// The operand that is taken, looked at in an order.
fn taken_in_order<S: Flagged>(
    order: FusedOrder,
    choice: NanChoice,
    x: IeeeFloat<S>,
    y: IeeeFloat<S>,
    z: IeeeFloat<S>,
) -> IeeeFloat<S>
    requires { S.PRECISION < S.BITS }
    ensures { result ≡ taken_in_order order choice (format_of S.Flagged) x y z }
{
    match order {
        FusedOrder::FactorsFirst => taken(choice, taken(choice, x, y), z),
        FusedOrder::AddendFirst => taken(choice, taken(choice, z, x), y),
        FusedOrder::AddendSecond => taken(choice, taken(choice, x, z), y),
    }
}
