//! The words of a command: names, integers, and bits.

ghost use Rattle.std.specs.Prelude.{◌≡◌, Ok, Err, ◌^◌, nat_lt};
ghost use Rattle.std.specs.Result.{MatchResult};
ghost use Rattle.commands.specs.Commands.{bits_of_digits, bits_of_word, found, named, operations, whole_number_of};

use crate::operation::Operation;
use apfloat_conversions::hex_texts::number_of_digits;
use apfloat_model::marks::Radix;
use formats_at_run_time::{Arithmetic, mode_named};
use rustc_apfloat::Round;

/// The operation of this name.
fn operation_named(word: &str) -> Option<Operation>
    ensures { result ≡ found operations word.now }
{
    match word {
        "add" => Some(Operation::OfTwo(Arithmetic::Sum)),
        "sub" => Some(Operation::OfTwo(Arithmetic::Difference)),
        "mul" => Some(Operation::OfTwo(Arithmetic::Product)),
        "div" => Some(Operation::OfTwo(Arithmetic::Quotient)),
        "rem" => Some(Operation::OfTwo(Arithmetic::NearestRemainder)),
        "mod" => Some(Operation::OfTwo(Arithmetic::TruncatedRemainder)),
        "fma" => Some(Operation::FusedSum),
        "int" => Some(Operation::WholeNumber),
        "parse" => Some(Operation::Text),
        _ => None,
    }
}

/// The word that a wrong number of words or operands is refused with.
pub const ARGUMENTS: &str = "arguments";

/// The operation and the mode with these names, if the operation takes this many operands; otherwise the word for the
/// first fault.
pub fn named<'a>(
    operation: &'a str,
    mode: &'a str,
    operands: usize,
) -> Result<(Operation, Round), &'a str>
    ensures { let meant = named operation.now mode.now operands in
        MatchResult result (λ both. meant ≡ Ok (both.0, both.1)) (λ word. meant ≡ Err word.now) }
{
    let Some(known) = operation_named(operation) else {
        return Err(operation);
    };
    let Some(round) = mode_named(mode) else {
        return Err(mode);
    };
    if operands == known.operand_count() {
        Ok((known, round))
    } else {
        Err(ARGUMENTS)
    }
}

/// The integer that decimal digits spell, if it is below 2^128.
pub fn number_of(word: &str) -> Option<u128>
    ensures { result ≡ whole_number_of word.now }
{
    number_of_digits(Radix::Ten, word.as_bytes())
}

/// The bits that 1 to 32 hexadecimal digits spell, optionally after `0x`, if they are below `2^width`.
pub fn bits_of(word: &str, width: usize) -> Option<u128>
    ensures { result ≡ bits_of_word width word.now }
{
    let bytes = word.as_bytes();
    bits_of_digits(bytes.strip_prefix(b"0x").unwrap_or(bytes), width)
}

/// The bits that hexadecimal digits spell, if there are 1 to 32 of them and the bits are below `2^width`.
fn bits_of_digits(digits: &[u8], width: usize) -> Option<u128>
    ensures { result ≡ bits_of_digits width digits.now }
{
    if digits.len() > 32 {
        return None;
    }
    let bits = number_of_digits(Radix::Sixteen, digits)?;
    if is_within(bits, width) {
        Some(bits)
    } else {
        None
    }
}

/// Whether a bit pattern is below `2^width`.
fn is_within(number: u128, width: usize) -> bool
    ensures { result ≡ nat_lt number (2 ^ width) }
{
    width >= 128 || number < 1 << width
}
