//! Theorems about the definitions that the calls cite, as contracts of functions with empty bodies. How many of the
//! random numbers take a magnitude to the neighbour above is `random_numbers_are_counted` of `small_formats`, whose
//! pick is the one here.

ghost use Rattle.small_formats.specs.stochastic.ElementConversions.{IsE3M4ByOnce, IsUnsignedByOnce};
ghost use Rattle.small_formats.specs.stochastic.Laws.{AreConversionsOfModel, IsConversionByOnce};

/// A conversion by a mode of conversions has one answer.
pub fn mode_conversions_have_one_answer()
    ensures { IsConversionByOnce }
{}

/// In a mode of IEEE 754 a conversion is that of `convert_r`.
pub fn mode_conversions_are_conversions()
    ensures { AreConversionsOfModel }
{}

/// A conversion into `Float8E3M4` by a mode of conversions has one answer.
pub fn e3m4_conversions_by_mode_have_one_answer()
    ensures { IsE3M4ByOnce }
{}

/// A conversion into `UE4M3` by a mode of conversions has one answer.
pub fn unsigned_conversions_by_mode_have_one_answer()
    ensures { IsUnsignedByOnce }
{}
