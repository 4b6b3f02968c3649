//! Elements times a scale that is a power of two, from code to bits: a product that is a normal number has the digits
//! of the element.

ghost use Rattle.std.specs.Prelude.{◌≡◌, ◌<◌, if◌then◌else◌, IfSome};
ghost use Rattle.rustc_apfloat.specs.FlaggedTypes.{constants_of};
ghost use Rattle.small_formats.specs.{Codes.is_negative_code, Types.constants_of as storage_constants_of};
ghost use Rattle.apfloat_arrays.specs.declared.scaled_blocks.formats.BlockFormat.{BlockFormat as Blocks};
ghost use Rattle.apfloat_arrays.specs.scaled_blocks.Products.{IsCodedAs, IsExactCode, IsExponent, IsProductAt};
ghost use Rattle.apfloat_arrays.specs.stored.NumberCodes.{IsWordSource};

use crate::scaled_blocks::scales::power_of_two;
use crate::stored::number_codes::{denormal_codes, first_place, is_word_source, unsigned_codes};
use apfloat_words::digits;
use rustc_apfloat::ieee::Flagged;
use small_formats::StorageFormat;

/// The bits of an element times its scale, if `T` has at most 24 digits and the product is zero or a normal number. The
/// element has the digits of `F`, and the largest one has the code `most`.
#[inline(always)]
pub(crate) fn product_bits<T: Flagged, F: StorageFormat>(
    scale: u8,
    code: u8,
    most: u32,
) -> Option<u32>
    requires { T.PRECISION < T.BITS }
    ensures { (format : Blocks) → IsCodedAs format (storage_constants_of F.StorageFormat) most
        → IfSome result (IsExactCode format (constants_of T.Flagged) scale code) }
{
    let negative = is_negative::<F>(code);
    let index = u32::from(code) - sign_if(negative, unsigned_codes::<F>());
    if !is_word_source::<T, F>() || scale == 255 || index > most {
        return None;
    }
    let sign = sign_if(negative, power_of_two(T::BITS - 1));
    Some(sign + magnitude_bits::<T, F>(scale, index)?)
}

/// Whether a code has the sign minus.
#[inline(always)]
fn is_negative<F: StorageFormat>(code: u8) -> bool
    ensures { result ≡ is_negative_code (storage_constants_of F.StorageFormat) code }
{
    u32::from(code) >= unsigned_codes::<F>()
}

/// The bit of the sign, if it is minus.
#[inline(always)]
fn sign_if(negative: bool, bit: u32) -> u32
    ensures { result ≡ (if negative then bit else 0) }
{
    if negative { bit } else { 0 }
}

/// The bits of the number with that index times the scale, which is not a NaN.
#[inline(always)]
fn magnitude_bits<T: Flagged, F: StorageFormat>(scale: u8, index: u32) -> Option<u32>
    requires written { T.PRECISION < T.BITS }
    requires source { IsWordSource (constants_of T.Flagged) (storage_constants_of F.StorageFormat) }
    requires few { index < 256 }
    ensures { IfSome result (IsProductAt (constants_of T.Flagged) (storage_constants_of F.StorageFormat)
        scale index) }
{
    if index == 0 {
        return Some(0);
    }
    let unit = denormal_codes::<F>();
    let place = (index / unit).saturating_sub(1);
    let significand = index - place * unit;
    let digits = digits(u128::from(significand));
    let exponent = exponent_of::<T, F>(scale, place + digits)?;
    let all = significand * power_of_two(T::PRECISION - digits as usize);
    Some(all + exponent * power_of_two(T::PRECISION - 1))
}

/// How far the exponent of a product is above the least one of `T`, if it is one of normal numbers; the first digit of
/// the element has that place.
#[inline(always)]
fn exponent_of<T: Flagged, F: StorageFormat>(scale: u8, place: u32) -> Option<u32>
    requires source { IsWordSource (constants_of T.Flagged) (storage_constants_of F.StorageFormat) }
    requires few { place < 512 }
    ensures { IfSome result (IsExponent (constants_of T.Flagged) (storage_constants_of F.StorageFormat)
        scale place) }
{
    let from = place + u32::from(scale) + first_place::<T, F>();
    let least = F::PRECISION as u32 + 127;
    if from < least || from - least + 2 >= power_of_two(T::EXP_BITS) {
        None
    } else {
        Some(from - least)
    }
}
