//! Theorems about the definitions that the calls cite, as contracts of functions with empty bodies.

ghost use Rattle.small_formats.specs.{Float8E3M4.IsE3M4Once, ModeLaws.ArePicksOfModel, ScaleModes.AreScalesOfModes};
ghost use Rattle.small_formats.specs.{ScaleModes.IsScaleByOnce, Quotients.IsQuotientOnce, Arithmetic.IsStoredOnce};
ghost use Rattle.small_formats.specs.Laws.{AreCodesInOrder, IsCodeOnce, IsIntoOnce, IsScaleOnce, IsUnsignedOnce};
ghost use Rattle.small_formats.specs.ModeLaws.{AreRandomNumbersCounted, IsIntoByOnce, IsIntoOfModel, StaysExact};

/// A conversion into a storage format has one answer.
pub fn conversions_have_one_answer()
    ensures { IsIntoOnce }
{}

/// A conversion into a scale has one answer.
pub fn scales_have_one_answer()
    ensures { IsScaleOnce }
{}

/// A conversion into a scale by a mode of conversions has one answer.
pub fn scales_by_mode_have_one_answer()
    ensures { IsScaleByOnce }
{}

/// In a mode of IEEE 754 that conversion is the one of `Scales`.
pub fn scales_by_mode_are_scales()
    ensures { AreScalesOfModes }
{}

/// A conversion into `UE4M3` has one answer.
pub fn unsigned_conversions_have_one_answer()
    ensures { IsUnsignedOnce }
{}

/// A conversion into `Float8E3M4` has one answer.
pub fn e3m4_conversions_have_one_answer()
    ensures { IsE3M4Once }
{}

/// A quotient in a storage format has one answer.
pub fn quotients_have_one_answer()
    ensures { IsQuotientOnce }
{}

/// A minimum and a maximum have one answer, since no two codes mean one number.
pub fn extrema_have_one_answer()
    ensures { IsCodeOnce }
{}

/// Of two codes without a sign, the greater one is the greater number.
pub fn codes_are_in_order()
    ensures { AreCodesInOrder }
{}

/// The count of random numbers that take a value to its neighbour away from zero is the count of whole parts, of which
/// the distance of the neighbours has 2^digits, that the value is past the other neighbour.
pub fn random_numbers_are_counted()
    ensures { AreRandomNumbersCounted }
{}

/// A value that the format has is picked as it is, in each mode and with each random number.
pub fn exact_values_never_move()
    ensures { StaysExact }
{}

/// In a mode of IEEE 754 the picks and the conversions are those of the model.
pub fn picks_are_those_of_the_model()
    ensures picks { ArePicksOfModel }
    ensures conversions { IsIntoOfModel }
{}

/// A conversion by a mode of conversions has one answer.
pub fn conversions_by_mode_have_one_answer()
    ensures { IsIntoByOnce }
{}

/// The result of an operation in a storage format has one answer, if the operation has one in the model.
pub fn stored_results_have_one_answer()
    ensures { IsStoredOnce }
{}
