//! Operations on subsets of flags (IEEE 754-2019 5.7.4), on values of `Status`: the caller keeps the flags.
//!
//! A group is the `Status` with the flags of the group raised. `Flags` has these operations as methods too, except for
//! `restore_flags`.

ghost use Rattle.std.specs.Prelude.{◌≡◌};
ghost use Rattle.apfloat_model.specs.rounding.Flags.{bits_of};
ghost use Rattle.ieee_operations.specs.StatusFlags.{lowered, raised, is_raised, restored};

use apfloat_base::{Flags, Status};

/// The flags with those of the group lowered (5.7.4, lowerFlags).
pub fn lower_flags(flags: Status, group: Status) -> Status
    ensures { bits_of result ≡ lowered (bits_of flags) (bits_of group) }
{
    flags.difference(group)
}

/// The flags with those of the group raised (5.7.4, raiseFlags).
pub fn raise_flags(flags: Status, group: Status) -> Status
    ensures { bits_of result ≡ raised (bits_of flags) (bits_of group) }
{
    flags.union(group)
}

/// Whether any flag of the group is raised (5.7.4, testFlags).
pub fn test_flags(flags: Status, group: Status) -> bool
    ensures { result ≡ is_raised (bits_of flags) (bits_of group) }
{
    flags.intersects(group)
}

/// All flags, to be restored later (5.7.4, saveAllFlags).
pub fn save_all_flags(flags: Status) -> Status
    ensures { result ≡ flags }
{
    flags
}

/// Whether any flag of the group is raised among saved flags (5.7.4, testSavedFlags).
pub fn test_saved_flags(saved: Status, group: Status) -> bool
    ensures { result ≡ is_raised (bits_of saved) (bits_of group) }
{
    test_flags(saved, group)
}

/// The flags, with each flag of the group as it was saved (5.7.4, restoreFlags).
pub fn restore_flags(flags: Status, saved: Status, group: Status) -> Status
    ensures { bits_of result ≡ restored (bits_of flags) (bits_of saved) (bits_of group) }
{
    raise_flags(lower_flags(flags, group), saved.intersection(group))
}
