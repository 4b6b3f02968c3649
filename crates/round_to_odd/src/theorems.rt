//! Theorems about the definitions that the calls cite, as contracts of functions with empty bodies.

ghost use Rattle.round_to_odd.specs.{Odd.IsOddOfTruncated, Odd.IsToOddOnce, Again.IsRoundedOnce};
ghost use Rattle.round_to_odd.specs.{Again.IsRoundedAgainOnce, Roots.IsRootRoundedOnce, Roots.IsOwnRootRoundedOnce};
ghost use Rattle.round_to_odd.specs.{Rooms.AreRooms, Rooms.HasNoRoom, Wholes.IsOddIntegralOnce};

/// What `to_odd` makes of an answer toward zero is the exact result rounded to odd.
pub fn odd_of_truncated_is_odd()
    ensures { IsOddOfTruncated }
{}

/// Rounding to odd has one result and one status.
pub fn odd_roundings_have_one_answer()
    ensures { IsToOddOnce }
{}

/// A nonzero exact result that is rounded to odd, and then to a format for which the first one has room, is rounded
/// once, in value and flags.
pub fn rounding_again_is_rounding_once()
    ensures { IsRoundedOnce }
{}

/// The square root of a positive number, rounded toward zero and then to odd (`to_odd`) in a format that has room for
/// another one, and then to that one, is rounded once, in value and flags: the root of a number of the first format
/// (`sqrt_r`), and that of a number of any format, delivered in the first one (`sqrt_to`).
pub fn rounding_roots_again_is_rounding_once()
    ensures own { IsOwnRootRoundedOnce }
    ensures in_another { IsRootRoundedOnce }
{}

/// Which built-in formats have room for others, with each rule of flags.
pub fn formats_have_room()
    ensures { AreRooms }
{}

/// `Half` has no room for `BFloat`, whose quantum is smaller.
pub fn half_has_no_room_for_bfloat()
    ensures { HasNoRoom }
{}

/// The second rounding has one result and one status.
pub fn second_roundings_have_one_answer()
    ensures { IsRoundedAgainOnce }
{}

/// Rounding to an odd integral value has one result and one status.
pub fn odd_integral_roundings_have_one_answer()
    ensures { IsOddIntegralOnce }
{}
