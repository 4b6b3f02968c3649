//! The constants of a format of IEEE P3109 as a value, and the codes that they decide.

ghost use Rattle.std.specs.Prelude.{◌≡◌, ◌%◌, ◌^◌, ◌<◌, ◌≤◌, IfSome, eqb, false, true};
ghost use Rattle.apfloat_model.specs.{declared.kinds.NonfiniteBehavior.TheVariants.NanNegativeZero, formats.Datum.nan};
ghost use Rattle.apfloat_model.specs.rounding.Rounding.{signed_quanta};
ghost use Rattle.small_formats.specs.Codes.{point};
ghost use Rattle.p3109_formats.specs.{LawTest.descriptor_with, LawTest.projection_test, Types.projection_of};
ghost use Rattle.p3109_formats.specs.Projections.{IsProjection, coded, is_negative_code, largest_index, last_index};
ghost use Rattle.p3109_formats.specs.Projections.{magnitude_of, nan_code, past_value, projected_datum, unsigned_codes};

use crate::projection::Projection;
use apfloat_words::{low_digits, power_of_two};

/// The constants of a format of IEEE P3109: those of a type (`Projection`), or chosen at run time.
#[derive(Clone, Copy)]
pub struct Descriptor {
    /// The width of a code in bits, 3 to 15.
    pub bits: u32,
    /// The number of binary digits in a significand, at least 1. At least one bit is left for the exponent.
    pub precision: u32,
    /// Whether there is a sign.
    pub signed: bool,
    /// Whether there are infinities.
    pub extended: bool,
}

impl Descriptor {
    /// The constants of a type.
    pub(crate) fn of<F: Projection>() -> Descriptor
        ensures is { result ≡ projection_of F.Projection }
        ensures lawful { IsProjection result }
    {
        Descriptor {
            bits: F::BITS as u32,
            precision: F::PRECISION as u32,
            signed: F::SIGNED,
            extended: F::EXTENDED,
        }
    }

    /// These constants, if a format has them.
    pub fn new(bits: u32, precision: u32, signed: bool, extended: bool) -> Option<Descriptor>
        ensures is { result ≡ descriptor_with bits precision signed extended }
        ensures lawful { IfSome result (λ it. IsProjection it) }
    {
        let made = Descriptor {
            bits,
            precision,
            signed,
            extended,
        };
        if made.is_projection() {
            Some(made)
        } else {
            None
        }
    }

    /// Whether a format has these constants.
    fn is_projection(self) -> bool
        ensures { result ≡ projection_test self }
    {
        let sign_and_digits = u64::from(self.precision) + u64::from(self.signed);
        3 <= self.bits
            && (self.bits <= 15 && (1 <= self.precision && sign_and_digits <= u64::from(self.bits)))
    }

    /// The code in the lowest bits.
    pub fn low_bits(self, bits: u32) -> u16
        requires { IsProjection self }
        ensures code { result ≡ bits % 2 ^ self.bits }
        ensures below { result < 2 ^ self.bits }
    {
        low_digits(u128::from(bits), self.bits) as u16
    }

    /// How many codes have no sign.
    pub(crate) fn unsigned_codes(self) -> u16
        requires { IsProjection self }
        ensures { result ≡ unsigned_codes self }
    {
        let bits = if self.signed {
            self.bits - 1
        } else {
            self.bits
        };
        power_of_two(bits) as u16
    }

    /// The code of the NaN.
    pub fn nan(self) -> u16
        requires { IsProjection self }
        ensures code { result ≡ nan_code self }
        ensures below { result < 2 ^ self.bits }
        ensures datum { projected_datum self result ≡ nan false 0 }
    {
        self.nan_code()
    }

    /// That code, by the sign.
    fn nan_code(self) -> u16
        requires { IsProjection self }
        ensures value { result ≡ nan_code self }
        ensures below { result < 2 ^ self.bits }
    {
        if self.signed {
            self.unsigned_codes()
        } else {
            self.unsigned_codes() - 1
        }
    }

    /// The code of the largest number. That of the smallest positive one is 1.
    pub fn largest_index(self) -> u16
        requires { IsProjection self }
        ensures { result ≡ largest_index self }
    {
        let codes = self.unsigned_codes();
        let last = if self.signed { codes - 1 } else { codes - 2 };
        if self.extended { last - 1 } else { last }
    }

    /// The code of the largest number, or of the infinity past it.
    pub(crate) fn last_index(self) -> u16
        requires { IsProjection self }
        ensures { result ≡ last_index self }
    {
        if self.extended {
            self.largest_index() + 1
        } else {
            self.largest_index()
        }
    }

    /// The code of a point with a sign; a zero has none.
    pub(crate) fn of_index(self, negative: bool, index: u16) -> u16
        requires lawful { IsProjection self }
        requires sign { negative ≡ true → self.signed ≡ true }
        requires index { index ≤ last_index self }
        ensures code { result ≡ coded self negative index }
        ensures below { result < 2 ^ self.bits }
    {
        if negative && index != 0 {
            self.unsigned_codes() + index
        } else {
            index
        }
    }

    /// The code of the number at that point. A zero has no sign.
    pub(crate) fn number(self, negative: bool, index: u16) -> u16
        requires lawful { IsProjection self }
        requires sign { negative ≡ true → self.signed ≡ true }
        requires index { index ≤ largest_index self }
        ensures datum { projected_datum self result
            ≡ signed_quanta NanNegativeZero negative (point self.precision index) }
        ensures below { result < 2 ^ self.bits }
    {
        self.of_index(negative, index)
    }

    /// The code of the infinity of that sign, or of the NaN in its place.
    pub(crate) fn past(self, negative: bool) -> u16
        requires lawful { IsProjection self }
        requires sign { negative ≡ true → self.signed ≡ true }
        ensures datum { projected_datum self result ≡ past_value self negative }
        ensures below { result < 2 ^ self.bits }
    {
        if self.extended {
            self.of_index(negative, self.last_index())
        } else {
            self.nan()
        }
    }

    /// Whether the code is that of the NaN.
    pub(crate) fn is_nan(self, code: u16) -> bool
        requires { IsProjection self }
        ensures { result ≡ eqb code (nan_code self) }
    {
        code == self.nan_code()
    }

    /// Whether the code has a sign.
    pub(crate) fn is_negative(self, code: u16) -> bool
        requires { IsProjection self }
        ensures { result ≡ is_negative_code self code }
    {
        self.signed && code >= self.unsigned_codes()
    }

    /// The code below the sign.
    pub(crate) fn magnitude(self, code: u16) -> u16
        requires { IsProjection self }
        ensures value { result ≡ magnitude_of self code }
        ensures below { result < unsigned_codes self }
    {
        code % self.unsigned_codes()
    }
}
