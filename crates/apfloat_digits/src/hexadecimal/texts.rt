//! The text of a value, in a line on the stack.

ghost use Rattle.std.specs.Prelude.{◌≡◌, ◌+◌, ◌^◌, ◌<◌, ◌≤◌, ◌++◌, length};
ghost use Rattle.std.specs.Fmt.{decimal, signed_decimal};
ghost use Rattle.apfloat_model.specs.rounding.Bounds.{IsWithin};
ghost use Rattle.apfloat_digits.specs.hexadecimal.HexTexts.{character, digits_text, dotted, magnitude_text};
ghost use Rattle.apfloat_digits.specs.hexadecimal.HexTexts.{number_text, infinity_text, nan_text};

use apfloat_base::ExpInt;
use apfloat_decimals::formatting::Line;

/// A digit as a character.
fn character(digit: u8) -> u8
    requires { digit < 16 }
    ensures { result ≡ character digit }
{
    if digit < 10 {
        b'0' + digit
    } else {
        b'a' - 10 + digit
    }
}

/// Adds the last `places` digits of a number.
pub(crate) fn push_digits(line: &mut Line, places: u32, number: u128)
    requires { length line.old + places ≤ 64 }
    ensures { line.new ≡ line.old ++ digits_text places number }
{
    if places == 0 {
        return;
    }
    push_digits(line, places - 1, number / 16);
    line.push(character((number % 16) as u8));
}

/// Adds the digits of a decimal number.
fn push_decimal(line: &mut Line, number: u64)
    requires { length line.old + length (decimal number) ≤ 64 }
    ensures { line.new ≡ line.old ++ decimal number }
{
    if number >= 10 {
        push_decimal(line, number / 10);
    }
    line.push(b'0' + (number % 10) as u8);
}

/// Adds an exponent, with its sign if it is negative.
fn push_exponent(line: &mut Line, exponent: ExpInt)
    requires { length line.old + length (signed_decimal exponent) ≤ 64 }
    ensures { line.new ≡ line.old ++ signed_decimal exponent }
{
    let number = i64::from(exponent);
    if number < 0 {
        line.push(b'-');
    }
    push_decimal(line, number.unsigned_abs());
}

/// Adds the digits after the dot, with the dot if there are any.
fn push_dotted(line: &mut Line, places: u32, fraction: u128)
    requires { length line.old + places < 64 }
    ensures { line.new ≡ line.old ++ dotted places fraction }
{
    if places == 0 {
        return;
    }
    line.push(b'.');
    push_digits(line, places, fraction);
}

/// A number: its first digit, the digits after the dot, and the exponent of two.
#[derive(Clone, Copy)]
pub(crate) struct Number {
    pub first: u8,
    pub places: u32,
    pub fraction: u128,
    pub exponent: ExpInt,
}

/// Adds a number without a sign.
fn push_number(line: &mut Line, number: Number)
    requires start { length line.old ≤ 1 }
    requires first { number.first < 16 }
    requires few { number.places ≤ 31 }
    requires within { IsWithin (2 ^ 23) number.exponent }
    ensures { line.new ≡ line.old
        ++ magnitude_text number.first number.places number.fraction number.exponent }
{
    line.push(b'0');
    line.push(b'x');
    line.push(character(number.first));
    push_dotted(line, number.places, number.fraction);
    line.push(b'p');
    push_exponent(line, number.exponent);
}

/// The text of a number.
pub(crate) fn number_line(negative: bool, number: Number) -> Line
    requires first { number.first < 16 }
    requires few { number.places ≤ 31 }
    requires within { IsWithin (2 ^ 23) number.exponent }
    ensures text { result
        ≡ number_text negative number.first number.places number.fraction number.exponent }
    ensures room { length result ≤ 45 }
{
    let mut line = Line::new();
    line.push_sign(negative);
    push_number(&mut line, number);
    line
}

/// The text of an infinity.
pub(crate) fn infinity_line(negative: bool) -> Line
    ensures text { result ≡ infinity_text negative }
    ensures room { length result ≤ 45 }
{
    let mut line = Line::new();
    line.push_sign(negative);
    line.push(b'i');
    line.push(b'n');
    line.push(b'f');
    line
}

/// The text of a NaN.
pub(crate) fn nan_line(negative: bool, signaling: bool) -> Line
    ensures text { result ≡ nan_text negative signaling }
    ensures room { length result ≤ 5 }
{
    let mut line = Line::new();
    line.push_sign(negative);
    if signaling {
        line.push(b's');
    }
    line.push(b'n');
    line.push(b'a');
    line.push(b'n');
    line
}
