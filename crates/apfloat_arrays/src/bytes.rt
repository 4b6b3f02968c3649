//! Integers as little-endian bytes.

ghost use Rattle.std.specs.Prelude.{◌≡◌, ◌+◌, ◌*◌, ◌^◌, ◌<◌, ◌≤◌, IsTrue, length};
ghost use Rattle.apfloat_arrays.specs.{Blocks.value_at, Bytes.number_of};

use rustc_apfloat::ieee::Flagged;

/// The integer that the bytes encode in little-endian order.
#[inline]
pub fn number_of(bytes: &[u8]) -> u128
    requires { length bytes.now ≤ 16 }
    ensures { result ≡ number_of bytes.now }
{
    match bytes {
        [a] => u128::from(*a),
        [a, b] => u128::from(u16::from_le_bytes([*a, *b])),
        [a, b, c, d] => u128::from(u32::from_le_bytes([*a, *b, *c, *d])),
        [a, b, c, d, e, f, g, h] => u128::from(u64::from_le_bytes([
            *a, *b, *c, *d, *e, *f, *g, *h,
        ])),
        _ => number_byte_by_byte(bytes),
    }
}

/// The same for any number of bytes, one byte at a time.
fn number_byte_by_byte(bytes: &[u8]) -> u128
    requires { length bytes.now ≤ 16 }
    ensures { result ≡ number_of bytes.now }
{
    let mut number = 0;
    for place in 0..bytes.len() {
        number = number * 256 + u128::from(bytes[bytes.len() - 1 - place]);
    }
    number
}

/// The bytes of a value, by its index.
#[inline(always)]
pub(crate) fn value_at(bytes: &[u8], index: usize, width: usize) -> &[u8]
    requires { index * width + width ≤ length bytes.now }
    ensures is { result.now ≡ value_at width index bytes.now }
    ensures size { length result.now ≡ width }
{
    let from = index * width;
    &bytes[from..from + width]
}

/// Writes an integer as little-endian bytes, followed by zeros.
#[inline]
pub fn write_number(number: u128, bytes: &mut [u8])
    requires { number < 256 ^ length bytes.old }
    ensures { number_of bytes.new ≡ number }
{
    match bytes.len() {
        1 => bytes[0] = number as u8,
        2 => bytes.copy_from_slice(&(number as u16).to_le_bytes()),
        4 => bytes.copy_from_slice(&(number as u32).to_le_bytes()),
        8 => bytes.copy_from_slice(&(number as u64).to_le_bytes()),
        _ => write_byte_by_byte(number, bytes),
    }
}

/// The same for any number of bytes, one byte at a time.
fn write_byte_by_byte(number: u128, bytes: &mut [u8])
    requires { number < 256 ^ length bytes.old }
    ensures { number_of bytes.new ≡ number }
{
    let mut rest = number;
    for place in 0..bytes.len() {
        bytes[place] = (rest % 256) as u8;
        rest /= 256;
    }
}

/// Whether a value of `S` fills this number of bytes.
#[inline(always)]
pub(crate) fn has_width<S: Flagged>(width: usize) -> bool
    ensures { IsTrue result → 8 * width ≡ S.BITS }
{
    (S::BITS % 8 == 0) & (width == S::BITS / 8)
}

/// The bits of a value.
#[inline(always)]
pub(crate) fn bits_in<S: Flagged>(bytes: &[u8]) -> u32
    requires size { 8 * length bytes.now ≡ S.BITS }
    requires bits { S.BITS ≤ 32 }
    ensures is { result ≡ number_of bytes.now }
    ensures below { result < 2 ^ S.BITS }
{
    number_of(bytes) as u32
}
