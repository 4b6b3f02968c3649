//! Theorems about the definitions that the calls cite, as contracts of functions with empty bodies.

ghost use Rattle.ieee_operations.specs.augmented.Augmented.{IsAugmentedSum, IsAugmentedDifference, IsAugmentedProduct};
ghost use Rattle.ieee_operations.specs.augmented.Augmented.{HasOneAugmented, IsExactSum, IsExactProduct};
ghost use Rattle.ieee_operations.specs.augmented.{Augmented.RaisesTogether, Payloads.ArePayloadsKept};

/// An augmented sum has one head, one tail and one status.
pub fn augmented_sums_have_one_answer()
    ensures { HasOneAugmented IsAugmentedSum }
{}

/// An augmented difference has one head, one tail and one status.
pub fn augmented_differences_have_one_answer()
    ensures { HasOneAugmented IsAugmentedDifference }
{}

/// An augmented product has one head, one tail and one status.
pub fn augmented_products_have_one_answer()
    ensures { HasOneAugmented IsAugmentedProduct }
{}

/// The head and the tail of an augmented sum of finite values are together exactly the sum, with no flag, unless the
/// head is past the largest value.
pub fn augmented_sums_are_exact()
    ensures { IsExactSum }
{}

/// The head and the tail of an augmented product of finite values that is an integral number of quanta are together
/// exactly the product, with no flag, unless the head is past the largest value.
pub fn augmented_products_are_exact()
    ensures { IsExactProduct }
{}

/// The payload of the NaN that `set_payload` or `set_payload_signaling` makes is the one that was set.
pub fn payloads_are_kept()
    ensures { ArePayloadsKept }
{}

/// Augmented sums, differences and products raise OVERFLOW and UNDERFLOW only together with INEXACT.
pub fn augmented_flags_go_together()
    ensures sum { RaisesTogether IsAugmentedSum }
    ensures difference { RaisesTogether IsAugmentedDifference }
    ensures product { RaisesTogether IsAugmentedProduct }
{}
