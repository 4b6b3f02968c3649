//! The neighbour that random digits choose.

ghost use Rattle.std.specs.Prelude.{◌≡◌, ℕ, ◌+◌, ◌-◌, ◌*◌, ◌^◌, ◌<◌, ◌≤◌, pos, ◌+ℤ◌, ◌-ℤ◌};
ghost use Rattle.apfloat_model.specs.declared.kinds.Category.TheVariants.{Normal};
ghost use Rattle.apfloat_model.specs.order.Classes.{category_of, quanta_of};
ghost use Rattle.apfloat_model.specs.rounding.{Bounds.IsWithin, Standing.up, Standing.down};
ghost use Rattle.apfloat_ieee.specs.Types.{format_of};
ghost use Rattle.apfloat_rounding.specs.Shapes.{format_at};
ghost use Rattle.small_formats.specs.stochastic.Directions.{IsDirection};

use crate::cuts::{cut, parts_of_rest};
use crate::picks::reaches_whole;
use crate::{RandomDigits, in_quanta};
use apfloat_base::ExpInt;
use apfloat_ieee::{IeeeFloat, Semantics};
use apfloat_rounding::rounding::is_past;
use apfloat_rounding::shape::Shape;

/// The constants of a format that rounding reads.
fn shape_of<T: Semantics>() -> Shape
    ensures { format_at result ≡ format_of T.Semantics }
{
    Shape {
        precision: T::PRECISION as u32,
        min_exp: T::MIN_EXP,
        max_exp: T::MAX_EXP,
        nonfinite: T::NONFINITE_BEHAVIOR,
        explicit_integer_bit: T::EXPLICIT_INTEGER_BIT,
        tiny_before_rounding: T::TINY_BEFORE_ROUNDING,
        ieee_flags: false,
    }
}

/// Whether random digits round `digits * 2^unit` quanta away from zero.
fn leads_away(shape: Shape, digits: u128, unit: ExpInt, bits: RandomDigits) -> bool
    requires low { 2 ^ 124 ≤ digits }
    requires high { digits < 2 ^ 125 }
    requires within { IsWithin (2 ^ 23) unit }
    ensures { (amount parts : ℕ) → 0 < parts
        → amount * 2 ^ down unit ≡ digits * (parts * 2 ^ up unit)
        → IsDirection (format_at shape) bits.digits bits.random amount parts result }
{
    let kept = cut(shape.precision, digits, unit);
    let past = is_past(shape, kept.significand, kept.place);
    let reaches = reaches_whole(parts_of_rest(digits, kept.places, bits.digits), bits);
    past || reaches
}

/// Whether random digits round a number of the format `S` to the format `T` away from zero.
pub(crate) fn rounds_away<S: Semantics, T: Semantics>(x: IeeeFloat<S>, bits: RandomDigits) -> bool
    requires { category_of x ≡ Normal }
    ensures { let f = format_of S.Semantics in let g = format_of T.Semantics in
        IsDirection g bits.digits bits.random (quanta_of x * 2 ^ g.scale) (2 ^ f.scale) result }
{
    let shape = shape_of::<T>();
    let number = in_quanta(x, shape.scale());
    leads_away(shape, number.digits, number.unit, bits)
}
