//! Reading any text.

ghost use Rattle.std.specs.Prelude.{◌≡◌, Some, true, false, drop, MatchOption, MatchResult};
ghost use Rattle.apfloat_model.specs.{declared.kinds.Round.Round, rounding.Rounding.ok_bits};
ghost use Rattle.apfloat_model.specs.texts.Faults.{begins_literal, fault_of};
ghost use Rattle.apfloat_model.specs.texts.Readings.{IsMeant, IsRefusal};
ghost use Rattle.apfloat_rounding.specs.{Shapes.format_at, Stored.IsStored, Stored.datum_at};
ghost use Rattle.apfloat_conversions.specs.hex_texts.{Payloads.meaning_of, TextsRead.IsTextRead};

use crate::hex_texts::literal::read_literal;
use crate::hex_texts::mark::split_mark;
use crate::hex_texts::special::{Special, special_of};
use apfloat_model::parse_error::Fault;
use apfloat_model::{ParseError, Round, Status, StatusAnd};
use apfloat_rounding::nans::{quiet_significand, signaling_significand};
use apfloat_rounding::shape::Shape;
use apfloat_rounding::unpacked::{Unpacked, infinity_of, nan_of};

/// The infinity or the NaN with this sign.
#[inline(always)]
fn special_value(shape: Shape, negative: bool, special: Special) -> Unpacked
    ensures stored { IsStored shape result }
    ensures meant { (mode : Round) → IsMeant (format_at shape) mode
        (meaning_of negative special) (datum_at shape result) ok_bits }
{
    match special {
        Special::Infinity => infinity_of(shape, negative),
        Special::Quiet(payload) => nan_of(shape, negative, quiet_significand(shape, payload)),
        Special::Signaling(payload) => {
            nan_of(shape, negative, signaling_significand(shape, payload))
        }
    }
}

/// The text after the prefix of a hexadecimal number.
#[inline(always)]
fn after_prefix(body: &[u8]) -> Option<&[u8]>
    ensures { MatchOption result (begins_literal body.now ≡ false)
        (λ rest. (begins_literal body.now ≡ true) × (rest.now ≡ drop 2 body.now)) }
{
    match body {
        [b'0', b'x' | b'X', rest @ ..] => Some(rest),
        _ => None,
    }
}

/// The value of a text, or its first fault.
#[inline(always)]
fn read_bytes(shape: Shape, text: &[u8], round: Round) -> Result<StatusAnd<Unpacked>, Fault>
    ensures { MatchResult result (λ answer. IsTextRead shape round text.now answer)
        (λ fault. fault_of text.now ≡ Some fault) }
{
    if text.is_empty() {
        return Err(Fault::EmptyText);
    }
    let (mark, body) = split_mark(text);
    if body.is_empty() {
        return Err(Fault::LoneMark);
    }
    if let Some(rest) = after_prefix(body) {
        return read_literal(shape, mark.is_minus(), rest, round);
    }
    match special_of(mark, body) {
        Some(special) => Ok(Status::OK.and(special_value(shape, mark.is_minus(), special))),
        None => Err(Fault::NoLiteral),
    }
}

/// Reads a text (IEEE 754-2019 5.12): returns its value, rounded once, or the message for its first fault from the
/// left.
///
/// The text is given by its bytes: no character of more than one byte has a meaning.
///
/// It is inlined into the call of each format, so that the constants of the format fold where the number is rounded.
#[inline(always)]
pub fn read(shape: Shape, text: &[u8], round: Round) -> Result<StatusAnd<Unpacked>, ParseError>
    ensures { MatchResult result (λ answer. IsTextRead shape round text.now answer)
        (λ error. IsRefusal text.now error.0.now) }
{
    match read_bytes(shape, text, round) {
        Ok(answer) => Ok(answer),
        Err(fault) => Err(fault.refusal()),
    }
}
