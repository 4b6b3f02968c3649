//! Payloads of NaNs.

ghost use Rattle.std.specs.Prelude.{◌≡◌};
ghost use Rattle.apfloat_model.specs.texts.Specials.{radix_of, after_prefix, after_plus, plain_payload, payload_of};

use crate::hex_texts::digits::number_of_digits;
use apfloat_model::marks::Radix;

/// The base that the prefix gives, and the text after it: `0x` for hexadecimal, a 0 that is not the last character for
/// octal, and no prefix for decimal.
fn split_radix(text: &[u8]) -> (Radix, &[u8])
    ensures radix { result.0 ≡ radix_of text.now }
    ensures rest { result.1.now ≡ after_prefix (radix_of text.now) text.now }
{
    match text {
        [b'0', b'x' | b'X', digits @ ..] => (Radix::Sixteen, digits),
        [b'0', digits @ ..] if !digits.is_empty() => (Radix::Eight, digits),
        _ => (Radix::Ten, text),
    }
}

/// The text after an optional plus.
fn skip_plus(text: &[u8]) -> &[u8]
    ensures { result.now ≡ after_plus text.now }
{
    match text {
        [b'+', tail @ ..] => tail,
        _ => text,
    }
}

/// The payload in a text without parentheses.
fn plain(text: &[u8]) -> Option<u128>
    ensures { result ≡ plain_payload text.now }
{
    let (radix, digits) = split_radix(text);
    number_of_digits(radix, skip_plus(digits))
}

/// The payload in the text after the name of a NaN: nothing, or a payload, plain or in one pair of parentheses.
pub fn payload(text: &[u8]) -> Option<u128>
    ensures { result ≡ payload_of text.now }
{
    match text {
        [] => Some(0),
        [b'(', inside @ .., b')'] => plain(inside),
        _ => plain(text),
    }
}
