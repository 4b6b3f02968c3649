//! The characters that numbers are written with.

ghost use Rattle.std.specs.Prelude.{◌≡◌, ◌<◌, IsTrue};
ghost use Rattle.apfloat_model.specs.texts.Digits.{is_decimal, is_octal, is_hexadecimal, digit_value};
ghost use Rattle.apfloat_model.specs.texts.Faults.{is_digit_or_dot};

/// A decimal digit.
#[inline(always)]
pub fn is_decimal(byte: u8) -> bool
    ensures { result ≡ is_decimal byte }
{
    matches!(byte, b'0'..=b'9')
}

/// An octal digit.
#[inline(always)]
pub fn is_octal(byte: u8) -> bool
    ensures { result ≡ is_octal byte }
{
    matches!(byte, b'0'..=b'7')
}

/// The hexadecimal digits as a set, one bit for each character from `0` on.
const HEXADECIMAL: u64 = 0x007E_0000_007E_03FF;

/// A hexadecimal digit, in either case.
///
/// One look-up in the set decides: a branch for each of the three ranges of digits would be unpredictable.
#[inline(always)]
pub fn is_hexadecimal(byte: u8) -> bool
    ensures { result ≡ is_hexadecimal byte }
{
    let place = byte.wrapping_sub(b'0');
    place < 64 && (HEXADECIMAL >> place) % 2 == 1
}

/// A hexadecimal digit or a dot.
#[inline(always)]
pub fn is_digit_or_dot(byte: u8) -> bool
    ensures { result ≡ is_digit_or_dot byte }
{
    is_hexadecimal(byte) || byte == b'.'
}

/// The value of a digit.
///
/// The last four bits of a letter, in either case, are 1 to 6, and only letters are 64 or more. So no branch depends on
/// the kind of digit, which would be unpredictable.
#[inline(always)]
pub fn digit_value(byte: u8) -> u8
    requires { IsTrue (is_hexadecimal byte) }
    ensures value { result ≡ digit_value byte }
    ensures small { result < 16 }
{
    byte % 16 + 9 * (byte / 64)
}
