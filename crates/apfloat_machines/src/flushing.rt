//! Denormal operands and results that are flushed to zero. IEEE 754 does not have this.

ghost use Rattle.std.specs.Prelude.{◌≡◌};
ghost use Rattle.apfloat_model.specs.rounding.Flags.{Gives, bits_of};
ghost use Rattle.apfloat_ieee.specs.FlaggedTypes.{format_of};
ghost use Rattle.apfloat_machines.specs.Flushing.{IsFlushed, flush_flags, has_denormal, without_denormal, zero_like};
ghost use Rattle.apfloat_machines.specs.FlushedOperations.{AreFlushed};

use apfloat_base::{Float, Status, StatusAnd};
use apfloat_ieee::{Flagged, IeeeFloat};
use ieee_operations::{raise_flags, test_flags};

/// The flags of a result that is flushed to zero.
#[derive(Clone, Copy, PartialEq, Eq, Debug)]
pub enum Flush {
    /// UNDERFLOW and INEXACT: FTZ of SSE and AVX, and AArch64 with FPCR.AH and FPCR.FZ set.
    X86,
    /// UNDERFLOW without INEXACT: AArch64 with FPCR.FZ set and FPCR.AH clear.
    Arm,
}

/// The answer of an operation, where tiny results are flushed: a result that is tiny, exact or not, is the zero of its
/// sign, and any other is unchanged. So the exact result is either flushed or rounded once, as `IsFlushedSum` and the
/// definitions beside it say of sums, differences, products, quotients, fused sums and conversions.
///
/// Tiny is what the format calls tiny: in `IeeeFlags<S>`, below the smallest normalized number after rounding with an
/// unbounded exponent, as on x86; in `IeeeFlags<TinyBefore<S>>`, below it before rounding, as on AArch64.
#[inline]
pub fn flushed<S: Flagged>(flush: Flush, answer: StatusAnd<IeeeFloat<S>>) -> StatusAnd<IeeeFloat<S>>
    ensures answer { Gives (IsFlushed (format_of S.Flagged) flush answer.value
        (bits_of answer.status)) result }
    ensures operations { AreFlushed (format_of S.Flagged) flush answer result }
{
    zero_if_tiny(flush, answer)
}

/// The answer, or the zero of its sign with the flags of flushing. A tiny result that is inexact has raised UNDERFLOW,
/// and one that is exact is denormal or zero.
#[inline]
fn zero_if_tiny<S: Flagged>(
    flush: Flush,
    answer: StatusAnd<IeeeFloat<S>>,
) -> StatusAnd<IeeeFloat<S>>
    ensures { Gives (IsFlushed (format_of S.Flagged) flush answer.value (bits_of answer.status))
        result }
{
    if test_flags(answer.status, Status::UNDERFLOW) || answer.value.is_denormal() {
        flush_flags(flush).and(zero_like(answer.value))
    } else {
        answer
    }
}

/// An operand, where denormal ones are flushed: the zero of its sign if it is denormal, otherwise unchanged.
#[inline]
pub fn without_denormal<S: Flagged>(x: IeeeFloat<S>) -> IeeeFloat<S>
    ensures { result ≡ without_denormal (format_of S.Flagged) x }
{
    if x.is_denormal() { zero_like(x) } else { x }
}

/// Whether an operand is denormal, and none is a NaN: the flag of a denormal operand, where the operation raises
/// neither INVALID_OP nor DIV_BY_ZERO. Of three operands, the disjunction, if none of the three is a NaN.
#[inline]
pub fn has_denormal<S: Flagged>(x: IeeeFloat<S>, y: IeeeFloat<S>) -> bool
    ensures { result ≡ has_denormal (format_of S.Flagged) x y }
{
    !(x.is_nan() || y.is_nan()) && (x.is_denormal() || y.is_denormal())
}

/// The zero with the sign of a value.
fn zero_like<S: Flagged>(x: IeeeFloat<S>) -> IeeeFloat<S>
    ensures { result ≡ zero_like (format_of S.Flagged) x }
{
    IeeeFloat::<S>::zero().copy_sign(x)
}

/// The flags of a result that is flushed.
fn flush_flags(flush: Flush) -> Status
    ensures { bits_of result ≡ flush_flags flush }
{
    match flush {
        Flush::X86 => raise_flags(Status::UNDERFLOW, Status::INEXACT),
        Flush::Arm => Status::UNDERFLOW,
    }
}
