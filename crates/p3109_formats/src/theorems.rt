//! Theorems about the definitions that the calls cite, as contracts of functions with empty bodies.

ghost use Rattle.p3109_formats.specs.Laws.{AreCodePicksPicks, AreNextValues, IsOneInTheMiddle, IsProjectedOnce};
ghost use Rattle.p3109_formats.specs.ModeLaws.{AreCodePicksPicksBy, AreProjectionsOfModes, AreRandomCodesCounted};
ghost use Rattle.p3109_formats.specs.ModeLaws.{AreRoundedPartsCounted, IsProjectedByOnce};

/// In each format of P3109, 1 is the code in the middle of those without a sign.
pub fn one_is_in_the_middle()
    ensures { IsOneInTheMiddle }
{}

/// With two digits or more, the pick that goes to the even code on a tie is the one to the even significand.
pub fn picks_of_codes_are_picks()
    ensures { AreCodePicksPicks }
{}

/// A conversion into a format of P3109 has one answer.
pub fn projections_have_one_answer()
    ensures { IsProjectedOnce }
{}

/// In a format of P3109, `next_up` and `next_down` give the nearest value in that direction, if there is one.
pub fn next_values_are_nearest()
    ensures { AreNextValues }
{}

/// A conversion into a format of P3109 by a mode of conversions has one answer.
pub fn projections_by_mode_have_one_answer()
    ensures { IsProjectedByOnce }
{}

/// In a mode of IEEE 754 that conversion is the one of `Projections`. With two digits or more, the pick by codes is the
/// one by significands.
pub fn projections_by_mode_are_projections()
    ensures conversions { AreProjectionsOfModes }
    ensures picks { AreCodePicksPicksBy }
{}

/// The count of random numbers that take a value to the next code is the count of whole parts, of which the distance of
/// the codes has 2^digits, that the value is past the code below.
pub fn random_codes_are_counted()
    ensures { AreRandomCodesCounted }
{}

/// And if the parts are rounded, the rounded count.
pub fn rounded_parts_are_counted()
    ensures { AreRoundedPartsCounted }
{}
