//! Values in consecutive bytes.

ghost use Rattle.std.specs.Prelude.{◌≡◌, ◌+◌, ◌*◌, ◌≤◌, length};
ghost use Rattle.apfloat_arrays.specs.{Blocks.value_at, Bytes.number_of};

use crate::number_of;

/// The bits of the value with that index, if each takes `width` bytes.
pub(crate) fn bits_at(width: usize, index: usize, bytes: &[u8]) -> u128
    requires width { width ≤ 16 }
    requires within { index * width + width ≤ length bytes.now }
    ensures { result ≡ number_of (value_at width index bytes.now) }
{
    let from = index * width;
    number_of(&bytes[from..from + width])
}
