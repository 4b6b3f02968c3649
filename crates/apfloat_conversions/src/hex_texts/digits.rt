//! Integers from their digits.

ghost use Rattle.std.specs.Prelude.{◌≡◌};
ghost use Rattle.apfloat_model.specs.texts.Specials.{is_digit_of, number_of_digits};
ghost use Rattle.apfloat_conversions.specs.hex_texts.Payloads.{next};

use crate::hex_texts::characters::{digit_value, is_decimal, is_hexadecimal, is_octal};
use apfloat_model::marks::Radix;

/// A number below this has room for one more digit.
const ROOM: u128 = 1 << 124;

/// Whether the character is a digit in this base.
#[inline(always)]
fn is_digit_of(radix: Radix, byte: u8) -> bool
    ensures { result ≡ is_digit_of radix byte }
{
    match radix {
        Radix::Sixteen => is_hexadecimal(byte),
        Radix::Eight => is_octal(byte),
        Radix::Ten => is_decimal(byte),
    }
}

/// The integer with one more digit appended, if the character is a digit and the result is below 2^128.
#[inline(always)]
fn with_digit(radix: Radix, number: u128, byte: u8) -> Option<u128>
    ensures { result ≡ next radix number byte }
{
    if !is_digit_of(radix, byte) {
        return None;
    }
    let digit = u128::from(digit_value(byte));
    if number < ROOM {
        return Some(number * radix.base() + digit);
    }
    number.checked_mul(radix.base())?.checked_add(digit)
}

/// The integer that the text spells, if it consists of one or more digits and the integer is below 2^128.
#[inline(always)]
pub fn number_of_digits(radix: Radix, digits: &[u8]) -> Option<u128>
    ensures { result ≡ number_of_digits radix digits.now }
{
    if digits.is_empty() {
        return None;
    }
    let mut number = 0;
    let mut left = digits;
    while let [byte, tail @ ..] = left {
        number = with_digit(radix, number, *byte)?;
        left = tail;
    }
    Some(number)
}
