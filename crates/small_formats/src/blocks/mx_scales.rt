//! The scale of a block of a microscaling format.

ghost use Rattle.std.specs.Prelude.{◌≡◌, ◌≢◌, ℕ, ◌+◌, ◌*◌, ◌^◌, ◌<◌, ◌≤◌, min, false, pos, ◌+ℤ◌, ◌-ℤ◌};
ghost use Rattle.apfloat_model.specs.{arithmetic.Exact.up, formats.Datum.finite, order.Classes.quanta_of};
ghost use Rattle.apfloat_model.specs.{order.Positive.IsPositive, rounding.Bounds.IsWithin};
ghost use Rattle.apfloat_model.specs.formats.{Formats.bfloat_constants, Lawful.format_with, Members.IsMember};
ghost use Rattle.apfloat_ieee.specs.Types.{format_of};
ghost use Rattle.small_formats.specs.{Scales.largest_code, Scales.nan_code, blocks.MxScales.IsBlockScale};
ghost use Rattle.small_formats.specs.blocks.MxScales.{IsScaleBy, clamped_code, clips, IsWithinNext, outgrows};

use crate::E8M0FNU;
use crate::blocks::elements::{ElementFormat, quotient_code};
use apfloat_base::{ExpInt, Flags, Float, Round};
use apfloat_ieee::built_in_formats::BFloatS;
use apfloat_ieee::{IeeeFloat, Semantics};

/// How the scale of a block follows from the greatest magnitude of its values. Each scale is clamped to those that
/// there
/// are.
#[derive(Clone, Copy, PartialEq, Eq, Debug)]
pub enum ScaleRule {
    /// 2 to the power of the magnitude's exponent less that of the largest number of the element format (OCP
    /// Microscaling Formats 1.0, 6.3). A value can be past the largest number, which it becomes.
    Floor,
    /// The least scale by which no value is past the largest number.
    Ceil,
    /// That of `Floor` for the magnitude rounded to the digits of the element format, to nearest, ties to even.
    Even,
}

/// The negated exponent of the least scale.
const BIAS: ExpInt = 127;

const LARGEST: u8 = 254;

/// The code of the scale nearest to 2 to the power of an exponent.
fn clamped_code(exponent: ExpInt) -> u8
    requires { IsWithin (2 ^ 23) exponent }
    ensures { result ≡ clamped_code exponent }
{
    let code = exponent + BIAS;
    if code <= 0 {
        0
    } else if code >= ExpInt::from(LARGEST) {
        LARGEST
    } else {
        code as u8
    }
}

/// The code of the scale of a block with that greatest magnitude.
fn scale_for<S: Semantics>(element: ElementFormat, greatest: IeeeFloat<S>) -> u8
    requires sign { greatest ≡ finite false (quanta_of greatest) }
    requires member { IsMember (format_of S.Semantics) greatest }
    ensures value { IsBlockScale element (format_of S.Semantics) (quanta_of greatest) result }
    ensures below { result ≤ largest_code }
{
    if greatest.is_zero() {
        return 0;
    }
    clamped_code(greatest.ilogb() - element.max_exp())
}

/// Whether a magnitude, by the scale with that code, is past the largest element.
fn is_clipped<S: Semantics>(element: ElementFormat, greatest: IeeeFloat<S>, scale: u8) -> bool
    requires sign { greatest ≡ finite false (quanta_of greatest) }
    requires code { scale ≤ largest_code }
    ensures { result ≡ clips element (format_of S.Semantics) (quanta_of greatest) scale }
{
    let answer = quotient_code(element, greatest, power_of(scale), Round::TowardPositive);
    answer.status.bits() & 0x04 != 0
}

/// Whether a magnitude, by the scale with that code, is rounded to twice 2 to the power of `max_exp`, if it is below
/// that:
/// by the next scale it becomes that power itself.
fn becomes_power<S: Semantics>(element: ElementFormat, greatest: IeeeFloat<S>, scale: u8) -> bool
    requires sign { greatest ≡ finite false (quanta_of greatest) }
    requires code { scale < largest_code }
    ensures { IsWithinNext element (format_of S.Semantics) (quanta_of greatest) scale
        → result ≡ outgrows element (format_of S.Semantics) (quanta_of greatest) scale }
{
    let answer = quotient_code(
        element,
        greatest,
        power_of(scale + 1),
        Round::NearestTiesToEven,
    );
    answer.value == element.power_code()
}

/// The code of the scale of a block with that greatest magnitude, by a rule: that of `Floor`, or the next one.
pub fn scale_by<S: Semantics>(rule: ScaleRule, element: ElementFormat, greatest: IeeeFloat<S>) -> u8
    requires sign { greatest ≡ finite false (quanta_of greatest) }
    requires member { IsMember (format_of S.Semantics) greatest }
    ensures value { IsScaleBy rule element (format_of S.Semantics) (quanta_of greatest) result }
    ensures below { result ≤ largest_code }
{
    let floor = scale_for(element, greatest);
    if floor == LARGEST {
        return floor;
    }
    let is_next = match rule {
        ScaleRule::Floor => false,
        ScaleRule::Ceil => is_clipped(element, greatest, floor),
        ScaleRule::Even => becomes_power(element, greatest, floor),
    };
    if is_next { floor + 1 } else { floor }
}

/// The scale with that code as a number; `BFloat` has each of them.
pub fn power_of(code: u8) -> IeeeFloat<BFloatS>
    requires { code ≤ largest_code }
    ensures positive { IsPositive (format_with bfloat_constants) result }
    ensures value { quanta_of result ≡ 2 ^ (code + 6) }
{
    let mut loses_info = false;
    E8M0FNU::from_bits(code)
        .convert_r::<BFloatS>(Round::NearestTiesToEven, &mut loses_info)
        .value
}
