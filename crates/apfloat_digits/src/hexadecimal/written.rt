//! The shortest text of a value, written into a buffer.

ghost use Rattle.std.specs.Prelude.{◌≡◌, ℕ, ◌≤◌, pos, List, length};
ghost use Rattle.apfloat_model.specs.formats.{Datum.Datum, Format.Format};
ghost use Rattle.apfloat_model.specs.order.{Classes.quanta_of, Positive.IsPositive};
ghost use Rattle.apfloat_ieee.specs.Types.{format_of};
ghost use Rattle.apfloat_digits.specs.hexadecimal.HexTexts.{IsHexText, IsShortestText};
ghost use Rattle.apfloat_digits.specs.hexadecimal.WrittenTexts.{IsPut, IsHexWritten};

use crate::hexadecimal::significands::{digits_of, shortened};
use crate::hexadecimal::texts::{Number, infinity_line, nan_line, number_line};
use apfloat_base::{Category, Float};
use apfloat_decimals::formatting::Line;
use apfloat_ieee::{IeeeFloat, Semantics};

/// Why nothing was written.
#[derive(Clone, Copy, PartialEq, Eq, Debug)]
pub enum HexError {
    /// The text is longer than the buffer.
    NoRoom,
    /// More digits after the dot were asked for than `MOST_DIGITS`.
    TooManyDigits,
}

/// Copies a line to the start of a buffer, and returns its length.
pub(crate) fn put(line: &Line, buffer: &mut [u8]) -> Result<usize, HexError>
    ensures { IsPut line.now buffer.old buffer.new result }
{
    let text = line.as_bytes();
    if text.len() > buffer.len() {
        return Err(HexError::NoRoom);
    }
    buffer[..text.len()].copy_from_slice(text);
    Ok(text.len())
}

/// A zero with digits after the dot.
pub(crate) fn zero(places: u32) -> Number
    ensures first { result.first ≡ 0 }
    ensures places { result.places ≡ places }
    ensures fraction { result.fraction ≡ 0 }
    ensures exponent { result.exponent ≡ pos 0 }
{
    Number {
        first: 0,
        places,
        fraction: 0,
        exponent: 0,
    }
}

/// The text of a positive value, with that sign.
fn positive_line<S: Semantics>(negative: bool, x: IeeeFloat<S>) -> Line
    requires { IsPositive (format_of S.Semantics) x }
    ensures text { IsShortestText (format_of S.Semantics) negative (quanta_of x) result }
    ensures room { length result ≤ 45 }
{
    let number = digits_of(x);
    let fraction = shortened(number.digits - (1 << 124));
    number_line(
        negative,
        Number {
            first: 1,
            places: fraction.places,
            fraction: fraction.digits,
            exponent: number.exponent,
        },
    )
}

/// The shortest text of a value.
pub(crate) fn line_of<S: Semantics>(x: IeeeFloat<S>) -> Line
    ensures text { IsHexText (format_of S.Semantics) x result }
    ensures room { length result ≤ 45 }
{
    match x.category() {
        Category::Infinity => infinity_line(x.is_negative()),
        Category::NaN => nan_line(x.is_negative(), x.is_signaling()),
        Category::Zero => number_line(x.is_negative(), zero(0)),
        Category::Normal => positive_line(x.is_negative(), x.abs()),
    }
}

/// Writes the shortest hexadecimal text of a value to the start of a buffer, exactly (IEEE 754-2019 5.12.3), and
/// returns its length; the rest of the buffer stays as it is.
///
/// The text is that of the number without rounding, such as `-0x1.8p-1`: the first digit is 1, for denormal values too,
/// the last one after the dot is not 0, letters are lower-case, and the exponent is that of `ilogb`, in decimal digits.
/// A zero is `0x0p0` or `-0x0p0`, an infinity `inf` or `-inf`, a NaN `nan` or `-nan`, or `snan` or `-snan`, without its
/// payload. `from_ascii_r` reads the text back, except for a payload (`text_reads_back`).
///
/// # Errors
///
/// `NoRoom` if the text is longer than the buffer, which then is unchanged. 45 bytes have room for every text.
pub fn write_hex<S: Semantics>(x: IeeeFloat<S>, buffer: &mut [u8]) -> Result<usize, HexError>
    ensures { IsHexWritten (format_of S.Semantics) x buffer.old buffer.new result }
{
    put(&line_of(x), buffer)
}

/// How many bytes the text of `write_hex` has, at most 45.
pub fn hex_length<S: Semantics>(x: IeeeFloat<S>) -> usize
    ensures length { (text : List ℕ) × IsHexText (format_of S.Semantics) x text
        × (result ≡ length text) }
    ensures few { result ≤ 45 }
{
    line_of(x).length()
}

/// The text of a value is the only one.
pub fn hex_once()
    ensures { (f : Format) (x : Datum) (text other : List ℕ)
        → IsHexText f x text → IsHexText f x other → text ≡ other }
{}
