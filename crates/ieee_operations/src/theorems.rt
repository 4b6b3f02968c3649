//! Theorems about the definitions that the calls cite, as contracts of functions with empty bodies.

ghost use Rattle.apfloat_model.specs.formats.Format.{Format};
ghost use Rattle.ieee_operations.specs.Comparisons.{IsComparedOnce};
ghost use Rattle.ieee_operations.specs.Exponents.{IsLogBOnce, IsIntegerLogBOnce, IsScaledOnce, IsScaledAlike};
ghost use Rattle.ieee_operations.specs.{TotalOrder.HasTotalOrder, TwoFormats.IsComparedBetweenOnce};
ghost use Rattle.ieee_operations.specs.{TwoFormats.IsOrderOfOneFormat, RaisedFlags.OperationFlagsGoTogether};
ghost use Rattle.ieee_operations.specs.WholeNumbers.{IsRoundedToIntegralOnce, IsConvertedOnce, IsConvertedExactlyOnce};

/// A comparison has one result and one status.
pub fn comparisons_have_one_answer()
    ensures { IsComparedOnce }
{}

/// The total order is reflexive, antisymmetric up to identical values, transitive and total, and it agrees with `<`.
pub fn total_order_is_total()
    ensures { (f : Format) → HasTotalOrder f }
{}

/// A comparison of values of two formats has one result and one status.
pub fn comparisons_between_have_one_answer()
    ensures { IsComparedBetweenOnce }
{}

/// The relation between values of two formats is that of `partial_cmp` if the formats are the same.
pub fn one_format_agrees()
    ensures { IsOrderOfOneFormat }
{}

/// logB as a value has one result and one status.
pub fn logarithms_have_one_answer()
    ensures { IsLogBOnce }
{}

/// logB as an integer has one result and one status.
pub fn integer_logarithms_have_one_answer()
    ensures { IsIntegerLogBOnce }
{}

/// scaleB has one result and one status.
pub fn scalings_have_one_answer()
    ensures { IsScaledOnce }
{}

/// The value of scaleB is that of `scalbn_r`.
pub fn scalings_agree()
    ensures { IsScaledAlike }
{}

/// Rounding to an integral value without INEXACT has one result and one status.
pub fn integral_roundings_have_one_answer()
    ensures { IsRoundedToIntegralOnce }
{}

/// A conversion to an integer has one integer and one status, with INEXACT and without it.
pub fn integer_conversions_have_one_answer()
    ensures exact { IsConvertedExactlyOnce }
    ensures quiet { IsConvertedOnce }
{}

/// Each operation of this crate, and scaleB, raises OVERFLOW and UNDERFLOW only together with INEXACT.
pub fn flags_go_together()
    ensures { (f : Format) → OperationFlagsGoTogether f }
{}
