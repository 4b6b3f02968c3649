//! The texts of infinities and NaNs.

ghost use Rattle.std.specs.Prelude.{◌≡◌, Bool, true, false, drop, if◌then◌else◌};
ghost use Rattle.apfloat_model.specs.texts.Digits.{same, begins};
ghost use Rattle.apfloat_model.specs.texts.Specials.{is_infinity, is_minus, is_s, named_nan, special_meaning};
ghost use Rattle.apfloat_conversions.specs.hex_texts.Payloads.{named_payload, meaning_at};

use crate::hex_texts::payload::payload;
use apfloat_model::marks::Mark;

/// An infinity or a NaN with its payload.
#[derive(Clone, Copy)]
pub enum Special {
    /// An infinity.
    Infinity,
    /// A quiet NaN with that payload.
    Quiet(u128),
    /// A signaling NaN with that payload.
    Signaling(u128),
}

/// Whether the text is this name.
fn is_named(body: &[u8], name: &[u8]) -> bool
    ensures { result ≡ same body.now name.now }
{
    body == name
}

/// Whether the text is a name of infinity, given the sign before it.
fn names_infinity(mark: Mark, body: &[u8]) -> bool
    ensures { result ≡ is_infinity mark body.now }
{
    match mark {
        Mark::Unmarked => is_named(body, b"inf") || is_named(body, b"INFINITY"),
        Mark::Plus => is_named(body, b"Inf"),
        Mark::Minus => {
            is_named(body, b"Inf") || is_named(body, b"inf") || is_named(body, b"INFINITY")
        }
    }
}

/// The payload after the name of a NaN.
fn payload_after_name(text: &[u8]) -> Option<u128>
    ensures { result ≡ named_payload text.now }
{
    match text {
        [b'n', b'a', b'n', tail @ ..] => payload(tail),
        [b'N', b'a', b'N', tail @ ..] => payload(tail),
        _ => None,
    }
}

/// The NaN that a text without a plus sign names.
fn nan(body: &[u8]) -> Option<Special>
    ensures { (negative : Bool) → meaning_at negative result
        ≡ (if begins is_s body.now then named_nan negative true (drop 1 body.now) else named_nan
        negative false body.now) }
{
    match body {
        [b's' | b'S', name @ ..] => Some(Special::Signaling(payload_after_name(name)?)),
        _ => Some(Special::Quiet(payload_after_name(body)?)),
    }
}

/// The infinity or the NaN that a text names, from its sign and the rest of the text.
#[cold]
#[inline(never)]
pub fn special_of(mark: Mark, body: &[u8]) -> Option<Special>
    ensures { meaning_at (is_minus mark) result ≡ special_meaning mark body.now }
{
    if names_infinity(mark, body) {
        return Some(Special::Infinity);
    }
    match mark {
        Mark::Plus => None,
        Mark::Unmarked | Mark::Minus => nan(body),
    }
}
