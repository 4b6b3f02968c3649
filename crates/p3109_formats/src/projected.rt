//! A value of a format of IEEE P3109.

ghost use Rattle.std.specs.Prelude.{◌≡◌, ◌+◌, ◌%◌, ◌^◌, ◌<◌, ◌≤◌, if◌then◌else◌, eqb, true, false};
ghost use Rattle.apfloat_model.specs.{arithmetic.Exact.signed, formats.Datum.nan};
ghost use Rattle.apfloat_model.specs.order.{Classes.category_of, Order.compared};
ghost use Rattle.p3109_formats.specs.Types.{projection_of};
ghost use Rattle.p3109_formats.specs.Projections.{code_above, code_below, coded, is_negative_code, largest_index};
ghost use Rattle.p3109_formats.specs.Projections.{last_index, magnitude_of, nan_code, projected_datum, unsigned_codes};

use crate::descriptor::Descriptor;
use crate::projection::Projection;
use apfloat_base::Category;
use apfloat_words::low_digits;
use std::cmp::Ordering;
use std::marker::{Model, PhantomData};

/// A value of the format `F` of P3109. Contracts see it as its code, and `projected_datum` says what a code means.
#[derive_where(Clone, Copy)]
pub struct Projected<F: Projection> {
    code: u16,
    marker: PhantomData<F>,
}

impl<F: Projection> Model for Projected<F> {
    ghost use Rattle.std.specs.Prelude.{ℕ, ◌^◌, ◌<◌, refl};

    ghost Value = { ℕ };

    ghost view = { λ x. x.code };

    ghost invariant = { λ x. x.code < 2 ^ F.BITS };

    ghost inverse = { λ code. record { code = code; marker = record {} } };

    ghost inverse_ok = { λ x h. refl };
}

/// The number of the largest point.
fn largest_index<F: Projection>() -> u16
    ensures { result ≡ largest_index (projection_of F.Projection) }
{
    Descriptor::of::<F>().largest_index()
}

/// The number of the largest point, or of the infinity past it.
fn last_index<F: Projection>() -> u16
    ensures { result ≡ last_index (projection_of F.Projection) }
{
    Descriptor::of::<F>().last_index()
}

impl<F: Projection> Projected<F> {
    /// The value with the code that the lowest `BITS` bits of `bits` are.
    pub fn from_bits(bits: u16) -> Self
        ensures { result ≡ bits % 2 ^ F.BITS }
    {
        Self::of_code(low_digits(u128::from(bits), F::BITS as u32) as u16)
    }

    /// The code, in the lowest `BITS` bits.
    pub fn to_bits(self) -> u16
        ensures code { result ≡ self }
        ensures below { result < 2 ^ F.BITS }
    {
        self.code
    }

    /// The value with that code.
    pub(crate) fn of_code(code: u16) -> Self
        requires { code < 2 ^ F.BITS }
        ensures { result ≡ code }
    {
        Projected {
            code,
            marker: PhantomData,
        }
    }

    /// The NaN.
    pub fn nan() -> Self
        ensures code { result ≡ nan_code (projection_of F.Projection) }
        ensures datum { projected_datum (projection_of F.Projection) result ≡ nan false 0 }
    {
        Self::of_code(Descriptor::of::<F>().nan())
    }

    /// The largest number.
    pub fn largest() -> Self
        ensures { result ≡ largest_index (projection_of F.Projection) }
    {
        Self::of_index(false, largest_index::<F>())
    }

    /// The code of a point with a sign.
    fn of_index(negative: bool, index: u16) -> Self
        requires sign { negative ≡ true → F.SIGNED ≡ true }
        requires index { index ≤ last_index (projection_of F.Projection) }
        ensures { result ≡ coded (projection_of F.Projection) negative index }
    {
        Self::of_code(Descriptor::of::<F>().of_index(negative, index))
    }

    /// The category (IEEE 754-2019 5.7.2).
    pub fn category(self) -> Category
        ensures { result ≡ category_of (projected_datum (projection_of F.Projection) self) }
    {
        if self.is_nan() {
            return Category::NaN;
        }
        let magnitude = self.magnitude();
        if magnitude > largest_index::<F>() {
            Category::Infinity
        } else if magnitude == 0 {
            Category::Zero
        } else {
            Category::Normal
        }
    }

    /// Whether it is the NaN.
    pub fn is_nan(self) -> bool
        ensures { result ≡ eqb self (nan_code (projection_of F.Projection)) }
    {
        Descriptor::of::<F>().is_nan(self.code)
    }

    /// Whether the code has a sign. In a format with a sign the NaN has one, since its code is that of -0.
    pub fn is_negative(self) -> bool
        ensures { result ≡ is_negative_code (projection_of F.Projection) self }
    {
        Descriptor::of::<F>().is_negative(self.code)
    }

    /// The code below the sign.
    fn magnitude(self) -> u16
        ensures value { result ≡ magnitude_of (projection_of F.Projection) self }
        ensures below { result < unsigned_codes (projection_of F.Projection) }
        ensures fits { self < 2 ^ F.BITS }
    {
        Descriptor::of::<F>().magnitude(self.code)
    }

    /// The code below the sign, with the sign.
    fn signed_index(self) -> i32
        ensures value { let c = projection_of F.Projection in
            result ≡ signed (is_negative_code c self) (magnitude_of c self) }
        ensures fits { self < 2 ^ F.BITS }
    {
        let magnitude = i32::from(self.magnitude());
        if self.is_negative() {
            -magnitude
        } else {
            magnitude
        }
    }

    /// The order of two values (IEEE 754-2019 5.11): the infinities are at the ends, and the NaN is unordered.
    pub fn compare(self, other: Self) -> Option<Ordering>
        ensures { let c = projection_of F.Projection in
            result ≡ compared (projected_datum c self) (projected_datum c other) }
    {
        if self.is_nan() {
            return None;
        }
        if other.is_nan() {
            return None;
        }
        Some(self.signed_index().cmp(&other.signed_index()))
    }

    /// The least value that is greater (IEEE 754-2019 5.3.1, nextUp). The next after the largest number is the
    /// infinity, or the NaN in its place; positive infinity and the NaN stay.
    pub fn next_up(self) -> Self
        ensures { result ≡ code_above (projection_of F.Projection) self }
    {
        if self.is_nan() {
            self
        } else if self.is_negative() {
            Self::of_index(true, self.magnitude() - 1)
        } else if F::EXTENDED && self.code == last_index::<F>() {
            self
        } else {
            Self::of_code(self.code + 1)
        }
    }

    /// The greatest value that is less (IEEE 754-2019 5.3.1, nextDown). Without a sign there is nothing below zero but
    /// the NaN.
    pub fn next_down(self) -> Self
        ensures { result ≡ code_below (projection_of F.Projection) self }
    {
        if self.is_nan() {
            self
        } else if self.is_negative() {
            self.next_magnitude()
        } else if self.code != 0 {
            Self::of_code(self.code - 1)
        } else if F::SIGNED {
            Self::of_index(true, 1)
        } else {
            Self::nan()
        }
    }

    /// The next value away from zero, of a negative one.
    fn next_magnitude(self) -> Self
        requires { is_negative_code (projection_of F.Projection) self ≡ true }
        ensures { let c = projection_of F.Projection in result
            ≡ (if eqb (magnitude_of c self) (last_index c)
            then (if c.extended then self else nan_code c) else self + 1) }
    {
        if self.magnitude() != last_index::<F>() {
            Self::of_code(self.code + 1)
        } else if F::EXTENDED {
            self
        } else {
            Self::nan()
        }
    }
}
