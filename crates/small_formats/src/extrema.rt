//! Minima and maxima of the numbers of a storage format, and their total order.

ghost use Rattle.std.specs.Prelude.{◌≡◌};
ghost use Rattle.apfloat_model.specs.order.{Classes.is_zero, Order.maximum, Order.minimum};
ghost use Rattle.small_formats.specs.{Codes.datum_of, Orders.total_codes, Types.constants_of};

use crate::format::StorageFormat;
use crate::stored::StoredFloat;
use std::cmp::Ordering;

impl<F: StorageFormat> StoredFloat<F> {
    /// Whether the number is +0 or -0 (IEEE 754-2019 5.7.2).
    pub fn is_zero(self) -> bool
        ensures { result ≡ is_zero (datum_of (constants_of F.StorageFormat) self) }
    {
        self.magnitude() == 0
    }

    /// The total order (5.10): that of the numbers, with -0 below +0.
    pub fn total_cmp(self, other: Self) -> Ordering
        ensures { result ≡ total_codes (constants_of F.StorageFormat) self other }
    {
        self.compare(other)
            .then(other.is_negative().cmp(&self.is_negative()))
    }

    /// The lesser number, and of two zeros -0 if one has that sign: minimum (9.6), and minimumNumber, which is the same
    /// without NaNs.
    pub fn minimum(self, other: Self) -> Self
        ensures { let c = constants_of F.StorageFormat in
            datum_of c result ≡ minimum (datum_of c self) (datum_of c other) }
    {
        if self.is_zero() && other.is_zero() {
            if self.is_negative() { self } else { other }
        } else if other.compare(self).is_lt() {
            other
        } else {
            self
        }
    }

    /// The greater number, and of two zeros +0 if one has that sign: maximum (9.6), and maximumNumber.
    pub fn maximum(self, other: Self) -> Self
        ensures { let c = constants_of F.StorageFormat in
            datum_of c result ≡ maximum (datum_of c self) (datum_of c other) }
    {
        if self.is_zero() && other.is_zero() {
            if self.is_negative() { other } else { self }
        } else if self.compare(other).is_lt() {
            other
        } else {
            self
        }
    }
}
