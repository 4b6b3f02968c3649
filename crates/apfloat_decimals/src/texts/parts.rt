//! The parts of a decimal text.

ghost use Rattle.std.specs.Prelude.{◌≡◌, ◌%◌, ◌^◌, ◌++◌, not, ◌&&◌};
ghost use Rattle.apfloat_model.specs.texts.Digits.{run, after_run, is_decimal, is_empty};
ghost use Rattle.apfloat_model.specs.texts.Faults.{begins_literal};
ghost use Rattle.apfloat_decimals.specs.DecimalTexts.{fraction_in, after_fraction};
ghost use Rattle.apfloat_decimals.specs.LeadingDigits.{number_from};

use crate::texts::eights::eights;
use apfloat_conversions::hex_texts::is_decimal;

/// Whether the text is not empty and does not begin with the prefix of a hexadecimal number.
pub fn is_plain(body: &[u8]) -> bool
    ensures { result ≡ (not (is_empty body.now) && not (begins_literal body.now)) }
{
    match body {
        [] => false,
        [b'0', b'x' | b'X', ..] => false,
        _ => true,
    }
}

/// Whether one of two texts is not empty.
pub fn has_some(first: &[u8], second: &[u8]) -> bool
    ensures { result ≡ not (is_empty (first.now ++ second.now)) }
{
    if first.is_empty() {
        let none = second.is_empty();
        return !none;
    }
    true
}

/// The digits at the start of a text, and what follows them.
pub fn split_digits(text: &[u8]) -> (&[u8], &[u8])
    ensures digits { result.0.now ≡ run is_decimal text.now }
    ensures rest { result.1.now ≡ after_run is_decimal text.now }
{
    let mut count = 0;
    while count < text.len() && is_decimal(text[count]) {
        count += 1;
    }
    text.split_at(count)
}

/// The digits after a dot, if the text begins with one, and what follows them.
pub fn split_fraction(rest: &[u8]) -> (&[u8], &[u8])
    ensures digits { result.0.now ≡ fraction_in rest.now }
    ensures rest { result.1.now ≡ after_fraction rest.now }
{
    match rest {
        [b'.', tail @ ..] => split_digits(tail),
        _ => (&[], rest),
    }
}

/// The digits at the start of a text, what follows them, and the number that they spell after the digits of `first`,
/// as far as one word has room for it.
#[inline(always)]
pub fn split_number(text: &[u8], first: u64) -> (&[u8], &[u8], u64)
    ensures digits { result.0.now ≡ run is_decimal text.now }
    ensures rest { result.1.now ≡ after_run is_decimal text.now }
    ensures number { result.2 ≡ number_from first (run is_decimal text.now) % 2 ^ 64 }
{
    let mut count = 0;
    let mut number = first;
    while count < text.len() && is_decimal(text[count]) {
        number = number
            .wrapping_mul(10)
            .wrapping_add(u64::from(text[count] - b'0'));
        count += 1;
    }
    let (digits, rest) = text.split_at(count);
    (digits, rest, number)
}

/// The same, with groups of eight digits taken at once: for texts that are often long.
#[inline(always)]
fn split_long_number(text: &[u8], first: u64) -> (&[u8], &[u8], u64)
    ensures digits { result.0.now ≡ run is_decimal text.now }
    ensures rest { result.1.now ≡ after_run is_decimal text.now }
    ensures number { result.2 ≡ number_from first (run is_decimal text.now) % 2 ^ 64 }
{
    let (count, before) = eights(text, first);
    let (_, left) = text.split_at(count);
    let (few, _, number) = split_number(left, before);
    let (digits, rest) = text.split_at(count + few.len());
    (digits, rest, number)
}

/// The digits after a dot, if the text begins with one, what follows them, and the number that all digits spell.
#[inline(always)]
pub fn split_fraction_number(rest: &[u8], first: u64) -> (&[u8], &[u8], u64)
    ensures digits { result.0.now ≡ fraction_in rest.now }
    ensures rest { result.1.now ≡ after_fraction rest.now }
    ensures number { result.2 ≡ number_from first (fraction_in rest.now) % 2 ^ 64 }
{
    match rest {
        [b'.', tail @ ..] => split_long_number(tail, first),
        _ => (&[], rest, first),
    }
}
