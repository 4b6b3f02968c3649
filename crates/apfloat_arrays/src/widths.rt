//! Widths of values in bytes.

ghost use Rattle.std.specs.Prelude.{◌≡◌, ◌≤◌};
ghost use Rattle.apfloat_arrays.specs.{Calls.at_format, Widths.bytes_of, Widths.width_of, Widths.width_with};

use formats_at_run_time::{BuiltInFormat, InFormat};
use rustc_apfloat::ieee::Semantics;

/// The width of a value of the x87 format, the one with an explicit integer bit.
#[derive(Clone, Copy)]
pub enum Extended {
    /// Ten bytes, the size of its encoding.
    Packed,
    /// Sixteen bytes, of which the last six are padding.
    Padded,
}

/// The widths of a value in bytes, before and after its conversion.
#[derive(Clone, Copy)]
pub struct Widths {
    /// In the source format.
    pub source: usize,
    /// In the target format.
    pub target: usize,
}

/// The width of a value of the format in bytes.
#[inline]
pub fn width(format: BuiltInFormat, extended: Extended) -> usize
    ensures is { result ≡ width_of format extended }
    ensures least { 1 ≤ result }
    ensures greatest { result ≤ 16 }
{
    format.run(WidthCall { extended })
}

/// The call that returns the width of a value of its format in bytes.
#[derive(Clone, Copy)]
struct WidthCall {
    extended: Extended,
}

impl InFormat for WidthCall {
    type Output = usize;

    ghost gives = { λ it kind width. at_format kind (λ c. width ≡ width_with c it.extended) };

    fn in_format<S: Semantics>(self) -> usize {
        match self.extended {
            Extended::Padded if S::EXPLICIT_INTEGER_BIT => 16,
            Extended::Packed | Extended::Padded => bytes_of(S::BITS),
        }
    }
}

/// How many bytes so many bits take: the fewest, with four in place of three, since no processor loads three.
#[inline(always)]
pub(crate) fn bytes_of(bits: usize) -> usize
    ensures { result ≡ bytes_of bits }
{
    let bytes = bits.div_ceil(8);
    if bytes == 3 { 4 } else { bytes }
}
