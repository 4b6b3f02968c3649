//! A value of a storage format.

ghost use Rattle.std.specs.Prelude.{◌≡◌, ◌-◌, ◌%◌, ◌^◌, ◌<◌, if◌then◌else◌};
ghost use Rattle.apfloat_model.specs.{arithmetic.Exact.signed, formats.Datum.finite};
ghost use Rattle.small_formats.specs.Codes.{datum_of, is_negative_code, largest_index, magnitude_of, point};
ghost use Rattle.small_formats.specs.{Orders.compared_codes, Types.constants_of};

use crate::format::StorageFormat;
use apfloat_words::{low_digits, power_of_two};
use std::cmp::Ordering;
use std::marker::{Model, PhantomData};

/// A value of the storage format `F`. Contracts see it as its code, and `datum_of` says which number a code means.
#[derive_where(Clone, Copy)]
pub struct StoredFloat<F: StorageFormat> {
    code: u8,
    marker: PhantomData<F>,
}

impl<F: StorageFormat> Model for StoredFloat<F> {
    ghost use Rattle.std.specs.Prelude.{ℕ, ◌^◌, ◌<◌, refl};

    ghost Value = { ℕ };

    ghost view = { λ x. x.code };

    ghost invariant = { λ x. x.code < 2 ^ F.BITS };

    ghost inverse = { λ code. record { code = code; marker = record {} } };

    ghost inverse_ok = { λ x h. refl };
}

/// How many codes have no sign bit: 2 to the power of the number of bits below it.
pub(crate) fn unsigned_codes<F: StorageFormat>() -> u8
    ensures { result ≡ 2 ^ (F.BITS - 1) }
{
    power_of_two(F::BITS as u32 - 1) as u8
}

/// The sign bit, if it is set.
fn sign_code<F: StorageFormat>(negative: bool) -> u8
    ensures { result ≡ (if negative then 2 ^ (F.BITS - 1) else 0) }
{
    if negative { unsigned_codes::<F>() } else { 0 }
}

impl<F: StorageFormat> StoredFloat<F> {
    /// The value with the code that the lowest `BITS` bits of `bits` are.
    pub fn from_bits(bits: u8) -> Self
        ensures { result ≡ bits % 2 ^ F.BITS }
    {
        StoredFloat {
            code: low_digits(u128::from(bits), F::BITS as u32) as u8,
            marker: PhantomData,
        }
    }

    /// The code, in the lowest `BITS` bits.
    pub fn to_bits(self) -> u8
        ensures code { result ≡ self }
        ensures below { result < 2 ^ F.BITS }
    {
        self.code
    }

    /// The number at that point.
    pub(crate) fn with_sign(negative: bool, magnitude: u8) -> Self
        requires { magnitude < 2 ^ (F.BITS - 1) }
        ensures { datum_of (constants_of F.StorageFormat) result
            ≡ finite negative (point F.PRECISION magnitude) }
    {
        StoredFloat {
            code: sign_code::<F>(negative) + magnitude,
            marker: PhantomData,
        }
    }

    /// Whether the sign is minus.
    pub fn is_negative(self) -> bool
        ensures { result ≡ is_negative_code (constants_of F.StorageFormat) self }
    {
        self.code >= unsigned_codes::<F>()
    }

    /// The code without its sign.
    pub(crate) fn magnitude(self) -> u8
        ensures value { result ≡ magnitude_of (constants_of F.StorageFormat) self }
        ensures below { result < 2 ^ (F.BITS - 1) }
    {
        self.code % unsigned_codes::<F>()
    }

    /// The code of the largest number.
    pub(crate) fn largest_index() -> u8
        ensures { result ≡ largest_index (constants_of F.StorageFormat) }
    {
        unsigned_codes::<F>() - 1
    }

    /// The code without its sign, with the sign of the number.
    fn signed_index(self) -> i16
        ensures { result ≡ signed (is_negative_code (constants_of F.StorageFormat) self)
            (magnitude_of (constants_of F.StorageFormat) self) }
    {
        let magnitude = i16::from(self.magnitude());
        if self.is_negative() {
            -magnitude
        } else {
            magnitude
        }
    }

    /// The order of two numbers (IEEE 754-2019 5.11): both zeros are equal.
    pub fn compare(self, other: Self) -> Ordering
        ensures { result ≡ compared_codes (constants_of F.StorageFormat) self other }
    {
        self.signed_index().cmp(&other.signed_index())
    }
}
