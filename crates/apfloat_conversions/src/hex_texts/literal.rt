//! Hexadecimal numbers, after their prefix.

ghost use Rattle.std.specs.Prelude.{◌≡◌, Some, None, MatchResult};
ghost use Rattle.apfloat_model.specs.texts.Faults.{after_prefix_fault};
ghost use Rattle.apfloat_conversions.specs.hex_texts.LiteralParts.{IsLiteralRead};

use crate::hex_texts::exponent::exponent_in;
use crate::hex_texts::number::delivered;
use crate::hex_texts::significand::scanned;
use apfloat_model::parse_error::Fault;
use apfloat_model::{Round, StatusAnd};
use apfloat_rounding::shape::Shape;
use apfloat_rounding::unpacked::Unpacked;

/// The number after the prefix, rounded once, or its first fault.
#[inline(always)]
pub fn read_literal(
    shape: Shape,
    negative: bool,
    rest: &[u8],
    round: Round,
) -> Result<StatusAnd<Unpacked>, Fault>
    ensures { MatchResult result (λ answer. IsLiteralRead shape round negative rest.now answer)
        (λ fault. after_prefix_fault rest.now ≡ Some fault) }
{
    if rest.is_empty() {
        return Err(Fault::LonePrefix);
    }
    let (scan, tail) = scanned(rest)?;
    let exponent = exponent_in(tail, scan.some)?;
    Ok(delivered(shape, negative, scan.digits, scan.places, exponent, round))
}
