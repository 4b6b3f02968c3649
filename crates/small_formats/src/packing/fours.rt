//! Two codes of 4 bits in a byte, the first one in its low half.

ghost use Rattle.std.specs.Prelude.{◌≡◌, ◌+◌, ◌*◌, ◌<◌};
ghost use Rattle.small_formats.specs.packing.Packed.{IsPackedBy, IsUnpackedBy};

use crate::packing::errors::PackingError;
use crate::packing::narrow::are_narrow;

/// The byte of two codes.
fn byte_of(low: u8, high: u8) -> u8
    requires low { low < 16 }
    requires high { high < 16 }
    ensures { result ≡ low + 16 * high }
{
    low + 16 * high
}

/// Packs two codes of 4 bits into each byte, the first one into its low half.
///
/// # Errors
///
/// `Uneven` if the number of codes is odd, `Lengths` if there are not half as many bytes as codes, `CodeTooWide` if a
/// code is 16 or more. Nothing is written then.
pub fn pack_fours(codes: &[u8], bytes: &mut [u8]) -> Result<(), PackingError>
    ensures { IsPackedBy 4 2 codes.now bytes.old bytes.new result }
{
    if codes.len() % 2 != 0 {
        return Err(PackingError::Uneven);
    }
    if bytes.len() != codes.len() / 2 {
        return Err(PackingError::Lengths);
    }
    if !are_narrow(4, codes) {
        return Err(PackingError::CodeTooWide);
    }
    for index in 0..bytes.len() {
        bytes[index] = byte_of(codes[2 * index], codes[2 * index + 1]);
    }
    Ok(())
}

/// Takes two codes of 4 bits out of each byte, as `pack_fours` packs them.
///
/// # Errors
///
/// `Uneven` if there is room for an odd number of codes, `Lengths` if there is not room for twice as many codes as
/// bytes. Nothing is written then.
pub fn unpack_fours(bytes: &[u8], codes: &mut [u8]) -> Result<(), PackingError>
    ensures { IsUnpackedBy 4 2 bytes.now codes.old codes.new result }
{
    if codes.len() % 2 != 0 {
        return Err(PackingError::Uneven);
    }
    if bytes.len() != codes.len() / 2 {
        return Err(PackingError::Lengths);
    }
    for index in 0..bytes.len() {
        let byte = bytes[index];
        codes[2 * index] = byte % 16;
        codes[2 * index + 1] = byte / 16;
    }
    Ok(())
}
