//! Values as decimals and back.

ghost use Rattle.std.specs.Prelude.{◌≡◌, ℕ, ℤ, ◌<◌, Some};
ghost use Rattle.apfloat_model.specs.declared.kinds.Round.TheVariants.{NearestTiesToEven};
ghost use Rattle.apfloat_model.specs.formats.{Datum.Datum, Format.Format, Members.IsMember};
ghost use Rattle.apfloat_decimals.specs.{declared.decimal.Decimal.Decimal, Decimals.IsDecimalDelivery};
ghost use Rattle.apfloat_decimals.specs.{Shortest.IsSameNumber, ShortestSearch.GivesShortest};

/// Each decimal that is the same number as the shortest one of a value, with its sign, is rounded to that value.
pub fn shortest_reads_back()
    ensures { (format : Format) (x : Datum) (decimal : Decimal) (digits : ℕ) (exponent : ℤ)
        (value : Datum) (status : ℕ) → 0 < format.precision → IsMember format x
        → GivesShortest format x (Some decimal)
        → IsSameNumber digits exponent decimal.digits decimal.exponent
        → IsDecimalDelivery format NearestTiesToEven decimal.negative digits exponent value status
        → value ≡ x }
{}
