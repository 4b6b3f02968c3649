//! NaNs written with their payloads.

ghost use Rattle.std.specs.Prelude.{◌≡◌, ℕ, ◌<◌, ◌≤◌, ◌++◌, false, List, Result, length};
ghost use Rattle.apfloat_model.specs.declared.kinds.{Category.TheVariants.NaN, NonfiniteBehavior.TheVariants.IEEE754};
ghost use Rattle.apfloat_model.specs.declared.{kinds.Round.Round, parse_error.ParseError.ParseError};
ghost use Rattle.apfloat_model.specs.{declared.status.StatusAnd.StatusAnd, formats.Datum.Datum, formats.Format.Format};
ghost use Rattle.apfloat_model.specs.{formats.Members.IsMember, order.Classes.category_of, texts.Parsing.IsRead};
ghost use Rattle.apfloat_ieee.specs.Types.{format_of};
ghost use Rattle.apfloat_digits.specs.hexadecimal.PayloadTexts.{payload_of, IsPayloadText, IsFullText, IsFullyWritten};
ghost use Rattle.apfloat_digits.specs.hexadecimal.ReadBack.{IsReadExactly};

use crate::hexadecimal::texts::{nan_line, push_digits};
use crate::hexadecimal::written::{HexError, line_of, put};
use apfloat_base::{Category, Float};
use apfloat_decimals::formatting::Line;
use apfloat_ieee::{IeeeFloat, NonfiniteBehavior, Semantics};
use apfloat_words::{digits, low_digits};

/// The payload of a NaN.
fn payload<S: Semantics>(x: IeeeFloat<S>) -> u128
    requires bits { S.PRECISION < S.BITS }
    requires nan { category_of x ≡ NaN }
    ensures { result ≡ payload_of (format_of S.Semantics) x }
{
    match S::NONFINITE_BEHAVIOR {
        NonfiniteBehavior::IEEE754 => low_digits(x.to_bits(), S::PRECISION as u32 - 2),
        NonfiniteBehavior::NanOnly => 0,
        NonfiniteBehavior::NanNegativeZero => 0,
    }
}

/// Adds a payload, unless it is 0.
fn push_payload(line: &mut Line, payload: u128)
    requires { length line.old ≤ 5 }
    ensures text { (rest : List ℕ) × IsPayloadText payload rest × (line.new ≡ line.old ++ rest) }
    ensures room { length line.new ≤ 45 }
{
    if payload == 0 {
        return;
    }
    line.push(b'0');
    line.push(b'x');
    push_digits(line, (digits(payload) - 1) / 4 + 1, payload);
}

/// The text of a value with its payload.
fn full_line<S: Semantics>(x: IeeeFloat<S>) -> Line
    requires { S.PRECISION < S.BITS }
    ensures text { IsFullText (format_of S.Semantics) x result }
    ensures room { length result ≤ 45 }
{
    match x.category() {
        Category::Infinity => line_of(x),
        Category::Zero => line_of(x),
        Category::Normal => line_of(x),
        Category::NaN => {
            let mut line = nan_line(x.is_negative(), x.is_signaling());
            push_payload(&mut line, payload(x));
            line
        }
    }
}

/// Writes a value as `write_hex` does, but a NaN with its payload: `nan0x2a`, `-snan0x1`. If the payload is 0, the text
/// is that of `write_hex`. Only for a format with bits, as `to_bits`.
///
/// The payload is what follows the digit that makes the NaN quiet (IEEE 754-2019 6.2.1), in hexadecimal digits. In a
/// format with infinities and an implied integer bit, `from_ascii_r` reads each value back (`full_text_reads_back`).
///
/// # Errors
///
/// `NoRoom` if the text is longer than the buffer, which then is unchanged. 45 bytes have room for every text.
pub fn write_hex_with_payload<S: Semantics>(
    x: IeeeFloat<S>,
    buffer: &mut [u8],
) -> Result<usize, HexError>
    requires { S.PRECISION < S.BITS }
    ensures { IsFullyWritten (format_of S.Semantics) x buffer.old buffer.new result }
{
    put(&full_line(x), buffer)
}

/// How many bytes the text of `write_hex_with_payload` has, at most 45. Only for a format with bits.
pub fn hex_length_with_payload<S: Semantics>(x: IeeeFloat<S>) -> usize
    requires { S.PRECISION < S.BITS }
    ensures length { (text : List ℕ) × IsFullText (format_of S.Semantics) x text
        × (result ≡ length text) }
    ensures few { result ≤ 45 }
{
    full_line(x).length()
}

/// The text of a value with its payload is the only one.
pub fn full_hex_once()
    ensures { (f : Format) (x : Datum) (text other : List ℕ)
        → IsFullText f x text → IsFullText f x other → text ≡ other }
{}

/// In a format with infinities and an implied integer bit, the text of each value with its payload is read as that
/// value, in each mode, with no flag.
pub fn full_text_reads_back<S: Semantics>()
    ensures { (mode : Round) (x : Datum) (text : List ℕ)
        (answer : Result (StatusAnd Datum) ParseError)
        → S.NONFINITE_BEHAVIOR ≡ IEEE754 → S.EXPLICIT_INTEGER_BIT ≡ false
        → IsMember (format_of S.Semantics) x → IsFullText (format_of S.Semantics) x text
        → IsRead (format_of S.Semantics) mode text answer → IsReadExactly x answer }
{}
