//! Conversions of NaNs between formats (IEEE 754-2019 5.4.2, 6.2.3).

ghost use Rattle.std.specs.Prelude.{◌≡◌, Bool};
ghost use Rattle.apfloat_model.specs.{declared.kinds.Round.Round, rounding.Flags.Gives, rounding.Flags.bits_of};
ghost use Rattle.apfloat_model.specs.arithmetic.Conversions.{IsConversion};
ghost use Rattle.apfloat_ieee.specs.FlaggedTypes.{format_of};
ghost use Rattle.apfloat_machines.specs.{declared.flushing.Flush.Flush, FlushedMachines.IsFlushedMachineConversion};
ghost use Rattle.apfloat_machines.specs.FlushedOperations.{IsFlushedConversion};
ghost use Rattle.apfloat_machines.specs.Conversions.{IsMachineConversion, is_lost_nan, settled_conversion};

use crate::machine::Machine;
use crate::nans::{default_nan, takes_none};
use apfloat_base::{Float, StatusAnd};
use apfloat_ieee::{Flagged, IeeeFloat};

/// The answer of the conversion of `x` to another format, as the machine gives it: a NaN keeps its sign and the first
/// bits of its payload, or is the machine's default NaN. The flags are those of the answer, which may have been flushed
/// (`flushed`).
#[inline]
pub fn settled_conversion<S: Flagged, T: Flagged>(
    machine: Machine,
    x: IeeeFloat<S>,
    answer: StatusAnd<IeeeFloat<T>>,
) -> StatusAnd<IeeeFloat<T>>
    ensures value { result.value
        ≡ settled_conversion (format_of S.Flagged) (format_of T.Flagged) machine x answer.value }
    ensures status { result.status ≡ answer.status }
    ensures conversion { (mode : Round) → (loses : Bool)
        → IsConversion (format_of S.Flagged) (format_of T.Flagged) mode x answer.value
        (bits_of answer.status) loses
        → Gives (IsMachineConversion (format_of S.Flagged) (format_of T.Flagged) machine mode x)
        result }
    ensures flushed { let f = format_of S.Flagged in let g = format_of T.Flagged in
        (flush : Flush) (mode : Round) → Gives (IsFlushedConversion f g flush mode x) answer
        → Gives (IsFlushedMachineConversion f g machine flush mode x) result }
{
    if is_lost_nan(machine, x) {
        answer.status.and(default_nan(machine))
    } else {
        answer
    }
}

/// Whether the value is a NaN that a conversion does not keep: its result is the default NaN of the other format.
#[inline]
pub fn is_lost_nan<S: Flagged>(machine: Machine, x: IeeeFloat<S>) -> bool
    ensures { result ≡ is_lost_nan (format_of S.Flagged) machine x }
{
    x.is_nan() && takes_none(machine.nan_choice, x, x)
}
