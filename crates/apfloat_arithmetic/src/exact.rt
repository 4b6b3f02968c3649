//! Results that need no rounding: zeros, infinities and poles.

ghost use Rattle.std.specs.Prelude.{◌≡◌, ℕ, ◌<◌};
ghost use Rattle.apfloat_model.specs.declared.kinds.{NonfiniteBehavior.TheVariants.IEEE754, Round.Round};
ghost use Rattle.apfloat_model.specs.{formats.Constants.infinity_of, formats.Datum.infinite, rounding.Answer.IsAnswer};
ghost use Rattle.apfloat_model.specs.rounding.Rounding.{ok_bits, signed_quanta, IsDelivered};
ghost use Rattle.apfloat_model.specs.arithmetic.Quotients.{div_by_zero_bit};
ghost use Rattle.apfloat_rounding.specs.{Shapes.format_at, Stored.IsStored, Stored.GivesAt};

use apfloat_model::{Status, StatusAnd};
use apfloat_rounding::shape::Shape;
use apfloat_rounding::unpacked::{Unpacked, infinity_of, zero_of};

/// The exact zero, with that sign if the format has that zero.
#[inline(always)]
pub fn exact_zero(shape: Shape, negative: bool) -> StatusAnd<Unpacked>
    ensures stored { IsStored shape result.value }
    ensures answer { GivesAt shape
        (IsAnswer (signed_quanta shape.nonfinite negative 0) ok_bits) result }
    ensures delivered { (round : Round) (parts : ℕ) → 0 < parts
        → GivesAt shape (IsDelivered (format_at shape) round negative 0 parts) result }
{
    Status::OK.and(zero_of(shape, negative))
}

/// The infinity of that sign, exact, in a format that has it.
#[inline(always)]
pub fn exact_infinity(shape: Shape, negative: bool) -> StatusAnd<Unpacked>
    requires { shape.nonfinite ≡ IEEE754 }
    ensures stored { IsStored shape result.value }
    ensures answer { GivesAt shape (IsAnswer (infinite negative) ok_bits) result }
{
    Status::OK.and(infinity_of(shape, negative))
}

/// A nonzero number divided by a zero (IEEE 754-2019 7.3).
pub(crate) fn divided_by_zero(shape: Shape, negative: bool) -> StatusAnd<Unpacked>
    ensures stored { IsStored shape result.value }
    ensures answer { GivesAt shape
        (IsAnswer (infinity_of (format_at shape) negative) div_by_zero_bit) result }
{
    Status::DIV_BY_ZERO.and(infinity_of(shape, negative))
}
