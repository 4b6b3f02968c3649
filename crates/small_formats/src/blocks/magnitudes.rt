//! The greatest magnitude of a block.

ghost use Rattle.std.specs.Prelude.{◌≡◌, max, true, false, length};
ghost use Rattle.apfloat_model.specs.formats.{Datum.finite, Members.IsMember};
ghost use Rattle.apfloat_model.specs.order.Classes.{is_finite, quanta_of};
ghost use Rattle.apfloat_ieee.specs.Types.{format_of};
ghost use Rattle.small_formats.specs.blocks.Magnitudes.{are_finite, greatest_magnitude};

use apfloat_base::{Category, Float};
use apfloat_ieee::{IeeeFloat, Semantics};

/// Whether no value is an infinity or a NaN.
pub(crate) fn are_finite<S: Semantics>(values: &[IeeeFloat<S>]) -> bool
    ensures { result ≡ are_finite values.now }
{
    for index in 0..values.len() {
        if !values[index].is_finite() {
            return false;
        }
    }
    true
}

/// The greater of two values that are not below zero.
fn larger<S: Semantics>(x: IeeeFloat<S>, y: IeeeFloat<S>) -> IeeeFloat<S>
    requires x { x ≡ finite false (quanta_of x) }
    requires y { y ≡ finite false (quanta_of y) }
    requires x_member { IsMember (format_of S.Semantics) x }
    requires y_member { IsMember (format_of S.Semantics) y }
    ensures value { result ≡ finite false (max (quanta_of y) (quanta_of x)) }
    ensures member { IsMember (format_of S.Semantics) result }
{
    if x < y { y } else { x }
}

/// The greater of a value that is not below zero and the magnitude of another.
pub fn greater<S: Semantics>(greatest: IeeeFloat<S>, x: IeeeFloat<S>) -> IeeeFloat<S>
    requires greatest { greatest ≡ finite false (quanta_of greatest) }
    requires member { IsMember (format_of S.Semantics) greatest }
    requires finite { is_finite x ≡ true }
    ensures value { result ≡ finite false (max (quanta_of x) (quanta_of greatest)) }
    ensures member { IsMember (format_of S.Semantics) result }
{
    match x.category() {
        Category::Normal => larger(greatest, x.abs()),
        // It is a zero.
        _ => greatest,
    }
}

/// The greatest magnitude of finite values.
pub(crate) fn greatest_of<S: Semantics>(values: &[IeeeFloat<S>]) -> IeeeFloat<S>
    requires { are_finite values.now ≡ true }
    ensures value { result ≡ finite false (greatest_magnitude values.now) }
    ensures member { IsMember (format_of S.Semantics) result }
{
    let mut greatest = IeeeFloat::<S>::zero();
    for index in 0..values.len() {
        greatest = greater(greatest, values[index]);
    }
    greatest
}
