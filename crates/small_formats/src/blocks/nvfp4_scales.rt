//! The scales of NVFP4: that of a tensor, that of a block, and their product.

ghost use Rattle.std.specs.Prelude.{◌≡◌, ◌*◌, ◌^◌, ◌<◌, true, false, eqb, max};
ghost use Rattle.std.specs.Bool.{MatchBool};
ghost use Rattle.apfloat_model.specs.formats.{Datum.finite, Formats.double_constants};
ghost use Rattle.apfloat_model.specs.formats.Formats.{e4m3fn_constants, half_constants, single_constants};
ghost use Rattle.apfloat_model.specs.{formats.Lawful.format_with, order.Classes.quanta_of, order.Positive.IsPositive};
ghost use Rattle.apfloat_ieee.specs.Types.{format_of};
ghost use Rattle.small_formats.specs.blocks.Nvfp4.{IsNvScale, IsScaleOfSome, IsTensorAnswer, IsTensorScale};
ghost use Rattle.small_formats.specs.blocks.Nvfp4.{is_positive, nan_scale, scale_quanta, unless_zero};
ghost use Rattle.small_formats.specs.blocks.Elements.{element_datum};
ghost use Rattle.small_formats.specs.declared.blocks.elements.ElementFormat.TheVariants.{E4M3FN};

use crate::blocks::elements::saturated_quotient;
use crate::blocks::magnitudes::{are_finite, greatest_of};
use crate::blocks::nvfp4_errors::Nvfp4Error;
use apfloat_base::{Category, Float, Round};
use apfloat_ieee::built_in_formats::{
    Double, DoubleS, Float8E4M3FN, Float8E4M3FNS, Half, HalfS, Single, SingleS,
};
use apfloat_ieee::format_of::multiply;
use apfloat_ieee::{IeeeFloat, Semantics};

/// A value that is not below zero, or another one in place of zero.
fn unless_zero<S: Semantics>(x: IeeeFloat<S>, other: IeeeFloat<S>) -> IeeeFloat<S>
    requires x { x ≡ finite false (quanta_of x) }
    requires other { IsPositive (format_of S.Semantics) other }
    ensures value { result ≡ unless_zero x other }
    ensures positive { IsPositive (format_of S.Semantics) result }
{
    match x.category() {
        Category::Normal => x,
        _ => other,
    }
}

/// 448 * 6, the largest number that a scale and an element make.
fn most() -> Half
    ensures positive { IsPositive (format_with half_constants) result }
    ensures value { quanta_of result ≡ 2688 * 2 ^ 24 }
{
    Half::from_bits(0x6940)
}

fn one() -> Single
    ensures positive { IsPositive (format_with single_constants) result }
    ensures value { result ≡ finite false (2 ^ 149) }
{
    Single::from_bits(0x3f80_0000)
}

/// The scale of a tensor with that greatest magnitude.
fn scale_of<S: Semantics>(greatest: IeeeFloat<S>) -> Single
    requires { greatest ≡ finite false (quanta_of greatest) }
    ensures { IsTensorScale (format_of S.Semantics) (quanta_of greatest) result }
{
    let quotient = saturated_quotient::<SingleS, S, HalfS>(
        greatest,
        most(),
        Round::NearestTiesToEven,
    );
    unless_zero(quotient.value, one())
}

/// The scale of a tensor of NVFP4: its greatest magnitude over 2688, rounded once to nearest, or the largest single if
/// that is less. It is 1 where that would be 0.
///
/// # Errors
///
/// `NotFinite` if a value is an infinity or a NaN.
pub fn tensor_scale<S: Semantics>(values: &[IeeeFloat<S>]) -> Result<Single, Nvfp4Error>
    ensures { IsTensorAnswer (format_of S.Semantics) values.now result }
{
    if !are_finite(values) {
        return Err(Nvfp4Error::NotFinite);
    }
    Ok(scale_of(greatest_of(values)))
}

/// Whether a single is a positive number.
pub fn is_positive(x: Single) -> bool
    ensures test { result ≡ is_positive x }
    ensures positive { result ≡ true → IsPositive (format_with single_constants) x }
{
    match x.category() {
        Category::Normal => !x.is_negative(),
        _ => false,
    }
}

/// The product of a scale and that of a tensor, which `Double` has.
fn joint_scale(scale: Float8E4M3FN, tensor: Single) -> Double
    requires scale { IsPositive (format_with e4m3fn_constants) scale }
    requires tensor { IsPositive (format_with single_constants) tensor }
    ensures positive { IsPositive (format_with double_constants) result }
    ensures value { quanta_of result * 2 ^ 158 ≡ quanta_of scale * quanta_of tensor * 2 ^ 1074 }
{
    multiply::<DoubleS, Float8E4M3FNS, SingleS>(scale, tensor, Round::NearestTiesToEven).value
}

/// The largest element.
fn six() -> Float8E4M3FN
    ensures positive { IsPositive (format_with e4m3fn_constants) result }
    ensures value { quanta_of result ≡ 6 * 2 ^ 9 }
{
    Float8E4M3FN::from_bits(0x4c)
}

fn least() -> Float8E4M3FN
    ensures positive { IsPositive (format_with e4m3fn_constants) result }
    ensures value { result ≡ finite false 1 }
{
    Float8E4M3FN::from_bits(1)
}

/// The scale of a block with that greatest magnitude; the least one for zeros.
fn scale_for<S: Semantics>(greatest: IeeeFloat<S>, tensor: Single, round: Round) -> Float8E4M3FN
    requires sign { greatest ≡ finite false (quanta_of greatest) }
    requires tensor { IsPositive (format_with single_constants) tensor }
    ensures value { MatchBool (eqb (quanta_of greatest) 0) (result ≡ finite false 1)
        (IsScaleOfSome (format_of S.Semantics) round (quanta_of tensor) (quanta_of greatest)
        result) }
    ensures positive { IsPositive (format_with e4m3fn_constants) result }
{
    if greatest.is_zero() {
        return least();
    }
    let divisor = joint_scale(six(), tensor);
    let quotient = saturated_quotient::<Float8E4M3FNS, S, DoubleS>(greatest, divisor, round);
    unless_zero(quotient.value, least())
}

/// The code of a scale, or 0 for a block of zeros.
fn code_for(is_zero: bool, scale: Float8E4M3FN) -> u8
    requires { IsPositive (format_with e4m3fn_constants) scale }
    ensures below { result < nan_scale }
    ensures zero { is_zero ≡ true → result ≡ 0 }
    ensures some { is_zero ≡ false → element_datum E4M3FN result ≡ scale }
{
    if is_zero {
        return 0;
    }
    scale.to_bits() as u8
}

/// The code of the scale of a block with that greatest magnitude, and what its elements are divided by: the product of
/// both scales, or for zeros of the least one and that of the tensor.
pub fn nvfp4_scale<S: Semantics>(
    greatest: IeeeFloat<S>,
    tensor: Single,
    round: Round,
) -> (u8, Double)
    requires sign { greatest ≡ finite false (quanta_of greatest) }
    requires tensor { IsPositive (format_with single_constants) tensor }
    ensures code { IsNvScale (format_of S.Semantics) round (quanta_of tensor) (quanta_of greatest)
        result.0 }
    ensures positive { IsPositive (format_with double_constants) result.1 }
    ensures divisor { max 1 (scale_quanta result.0) * quanta_of tensor * 2 ^ 1074
        ≡ quanta_of result.1 * 2 ^ 158 }
{
    let scale = scale_for(greatest, tensor, round);
    let divisor = joint_scale(scale, tensor);
    (code_for(greatest.is_zero(), scale), divisor)
}
