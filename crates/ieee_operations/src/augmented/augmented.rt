//! The two results of an augmented operation.

ghost use Rattle.std.specs.Prelude.{◌≡◌, ◌+◌};
ghost use Rattle.apfloat_model.specs.rounding.Flags.{bits_of};
ghost use Rattle.apfloat_model.specs.rounding.Rounding.{ok_bits, overflow_bit, inexact_bit};
ghost use Rattle.apfloat_ieee.specs.FlaggedTypes.{format_of};
ghost use Rattle.ieee_operations.specs.augmented.Numbers.{HasRoundedTail, with_sign};

use apfloat_base::{Flags, Float, Round, Status, StatusAnd};
use apfloat_ieee::{Flagged, IeeeFloat};

/// The two results of an augmented operation (IEEE 754-2019 9.5).
#[derive_where(Clone, Copy)]
pub struct Augmented<S: Flagged> {
    /// The exact result, rounded to nearest; of two values equally near, the one of lower magnitude.
    pub head: IeeeFloat<S>,
    /// What the head leaves of the exact result; the head itself, if that is an infinity or a NaN.
    pub tail: IeeeFloat<S>,
}

/// Both results are the result of an operation.
pub(crate) fn both<S: Flagged>(answer: StatusAnd<IeeeFloat<S>>) -> StatusAnd<Augmented<S>>
    ensures status { result.status ≡ answer.status }
    ensures head { result.value.head ≡ answer.value }
    ensures tail { result.value.tail ≡ answer.value }
{
    answer.status.and(Augmented {
        head: answer.value,
        tail: answer.value,
    })
}

/// A head past the largest value.
pub(crate) fn past_largest<S: Flagged>(head: IeeeFloat<S>) -> StatusAnd<Augmented<S>>
    ensures status { bits_of result.status ≡ overflow_bit + inexact_bit }
    ensures head { result.value.head ≡ head }
    ensures tail { result.value.tail ≡ head }
{
    both(Status::OVERFLOW.union(Status::INEXACT).and(head))
}

/// A head and exactly what it leaves; if that is zero, it gets the sign of the head.
pub(crate) fn with_tail<S: Flagged>(
    head: IeeeFloat<S>,
    rest: IeeeFloat<S>,
) -> StatusAnd<Augmented<S>>
    ensures status { bits_of result.status ≡ ok_bits }
    ensures head { result.value.head ≡ head }
    ensures tail { result.value.tail ≡ with_sign (format_of S.Flagged) head rest }
{
    let tail = if rest.is_zero() {
        IeeeFloat::<S>::zero().copy_sign(head)
    } else {
        rest
    };
    Status::OK.and(Augmented { head, tail })
}

/// A head, and what it leaves of `x * y`, rounded, where that has digits below the quantum.
pub(crate) fn with_rounded_tail<S: Flagged>(
    x: IeeeFloat<S>,
    y: IeeeFloat<S>,
    head: IeeeFloat<S>,
    round: Round,
) -> StatusAnd<Augmented<S>>
    ensures { HasRoundedTail (format_of S.Flagged) round x y head result.value.head
        result.value.tail (bits_of result.status) }
{
    let tail = x.wide_mul_add_r(y, -head, round).value;
    Status::UNDERFLOW
        .union(Status::INEXACT)
        .and(Augmented { head, tail })
}
