//! Four codes of 6 bits in three bytes, from the lowest bit of the first byte on.

ghost use Rattle.std.specs.Prelude.{◌≡◌, ◌+◌, ◌*◌, ◌<◌};
ghost use Rattle.small_formats.specs.packing.Packed.{IsPackedBy, IsUnpackedBy};

use crate::packing::errors::PackingError;
use crate::packing::narrow::are_narrow;

/// Four codes as a number of 24 bits.
fn number_of(first: u8, second: u8, third: u8, fourth: u8) -> u32
    requires first { first < 64 }
    requires second { second < 64 }
    requires third { third < 64 }
    requires fourth { fourth < 64 }
    ensures value { result ≡ first + 64 * (second + 64 * (third + 64 * fourth)) }
    ensures below { result < 16777216 }
{
    let upper = u32::from(third) + 64 * u32::from(fourth);
    u32::from(first) + 64 * (u32::from(second) + 64 * upper)
}

/// Packs four codes of 6 bits into each three bytes, from the lowest bit of the first byte on.
///
/// # Errors
///
/// `Uneven` if the number of codes is not a multiple of four, `Lengths` if there are not three bytes for each four
/// codes, `CodeTooWide` if a code is 64 or more. Nothing is written then.
pub fn pack_sixes(codes: &[u8], bytes: &mut [u8]) -> Result<(), PackingError>
    ensures { IsPackedBy 6 4 codes.now bytes.old bytes.new result }
{
    if codes.len() % 4 != 0 {
        return Err(PackingError::Uneven);
    }
    let groups = codes.len() / 4;
    if bytes.len() % 3 != 0 || bytes.len() / 3 != groups {
        return Err(PackingError::Lengths);
    }
    if !are_narrow(6, codes) {
        return Err(PackingError::CodeTooWide);
    }
    for index in 0..groups {
        let (code, byte) = (4 * index, 3 * index);
        let number = number_of(
            codes[code],
            codes[code + 1],
            codes[code + 2],
            codes[code + 3],
        );
        bytes[byte] = (number % 256) as u8;
        bytes[byte + 1] = (number / 256 % 256) as u8;
        bytes[byte + 2] = (number / 65536) as u8;
    }
    Ok(())
}

/// Takes four codes of 6 bits out of each three bytes, as `pack_sixes` packs them.
///
/// # Errors
///
/// `Uneven` if there is room for a number of codes that is not a multiple of four, `Lengths` if there are not three
/// bytes for each four codes. Nothing is written then.
pub fn unpack_sixes(bytes: &[u8], codes: &mut [u8]) -> Result<(), PackingError>
    ensures { IsUnpackedBy 6 4 bytes.now codes.old codes.new result }
{
    if codes.len() % 4 != 0 {
        return Err(PackingError::Uneven);
    }
    let groups = codes.len() / 4;
    if bytes.len() % 3 != 0 || bytes.len() / 3 != groups {
        return Err(PackingError::Lengths);
    }
    for index in 0..groups {
        let (code, byte) = (4 * index, 3 * index);
        let (low, middle, high) = (bytes[byte], bytes[byte + 1], bytes[byte + 2]);
        codes[code] = low % 64;
        codes[code + 1] = low / 64 + 4 * (middle % 16);
        codes[code + 2] = middle / 16 + 16 * (high % 4);
        codes[code + 3] = high / 4;
    }
    Ok(())
}
