//! Decimal digits, eight at a time.

ghost use Rattle.std.specs.Prelude.{◌≡◌, ℕ, ◌+◌, ◌*◌, ◌%◌, ◌^◌, ◌<◌, ◌≤◌, IfSome, IsTrue, length, take, drop, ◌&&◌};
ghost use Rattle.apfloat_model.specs.texts.Digits.{every, is_decimal, number};
ghost use Rattle.apfloat_decimals.specs.{LeadingDigits.number_from, Eights.IsInBytes};

use apfloat_conversions::hex_texts::is_decimal;

/// The bytes of eight digits 0.
const ZEROS: u64 = 0x3030_3030_3030_3030;

/// The number that eight digits spell, given their values as the bytes of a word, the first one lowest. First each
/// digit is joined with the next, then these pairs are added in two products.
#[inline(always)]
fn joined(digits: u64) -> u64
    ensures { (all : ℕ) → IsInBytes all digits → result ≡ all }
{
    let pairs = digits.wrapping_mul(10).wrapping_add(digits >> 8);
    let first = (pairs & 0x0000_00ff_0000_00ff).wrapping_mul(100 + (1_000_000 << 32));
    let second = ((pairs >> 16) & 0x0000_00ff_0000_00ff).wrapping_mul(1 + (10_000 << 32));
    first.wrapping_add(second) >> 32
}

/// Whether a text has at least eight characters, and the first eight are digits.
#[inline(always)]
fn begins_with_eight(text: &[u8]) -> bool
    ensures long { IsTrue result → 8 ≤ length text.now }
    ensures digits { IsTrue result → IsTrue (every is_decimal (take 8 text.now)) }
{
    let [a, b, c, d, e, f, g, h, ..] = text else {
        return false;
    };
    let first = is_decimal(*a) & is_decimal(*b) & is_decimal(*c) & is_decimal(*d);
    let second = is_decimal(*e) & is_decimal(*f) & is_decimal(*g) & is_decimal(*h);
    first & second
}

/// The values of the digits that a text begins with, as the bytes of a word, the first one lowest.
#[inline(always)]
fn eight_values(text: &[u8]) -> u64
    requires long { 8 ≤ length text.now }
    requires digits { IsTrue (every is_decimal (take 8 text.now)) }
    ensures { (all : ℕ) → all ≡ number 10 (take 8 text.now) → IsInBytes all result }
{
    let [a, b, c, d, e, f, g, h, ..] = text else {
        return 0;
    };
    u64::from_le_bytes([*a, *b, *c, *d, *e, *f, *g, *h]) - ZEROS
}

/// The number that the first eight characters of a text spell, if they are digits.
#[inline(always)]
fn first_eight(text: &[u8]) -> Option<u64>
    ensures long { IfSome result (λ _. 8 ≤ length text.now) }
    ensures digits { IfSome result (λ _. IsTrue (every is_decimal (take 8 text.now))) }
    ensures number { IfSome result (λ n. n ≡ number 10 (take 8 text.now)) }
{
    if begins_with_eight(text) {
        Some(joined(eight_values(text)))
    } else {
        None
    }
}

/// The number that the eight characters from a place on spell, if they are digits.
#[inline(always)]
fn eight_at(text: &[u8], place: usize) -> Option<u64>
    requires { place ≤ length text.now }
    ensures long { IfSome result (λ _. 8 ≤ length (drop place text.now)) }
    ensures digits { IfSome result (λ _. IsTrue (every is_decimal (take 8 (drop place text.now)))) }
    ensures number { IfSome result (λ n. n ≡ number 10 (take 8 (drop place text.now))) }
{
    let (_, rest) = text.split_at(place);
    first_eight(rest)
}

/// How many digits there are at the start of a text in groups of eight, and the number that they spell after the digits
/// of `first`, as far as one word has room for it.
#[inline(always)]
pub fn eights(text: &[u8], first: u64) -> (usize, u64)
    ensures within { result.0 ≤ length text.now }
    ensures digits { IsTrue (every is_decimal (take result.0 text.now)) }
    ensures number { result.1 ≡ number_from first (take result.0 text.now) % 2 ^ 64 }
{
    let mut count = 0;
    let mut number = first;
    while let Some(eight) = eight_at(text, count) {
        number = number.wrapping_mul(100_000_000).wrapping_add(eight);
        count += 8;
    }
    (count, number)
}
