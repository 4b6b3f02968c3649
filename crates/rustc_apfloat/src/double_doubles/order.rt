//! The order of pairs: that of the high parts, and on a tie that of the low parts.

ghost use Rattle.std.specs.Prelude.{◌≡◌};
ghost use Rattle.std.specs.declared.cmp.Ordering.{Ordering};
ghost use Rattle.apfloat_pair_theory.specs.PairParts.{are_opposite, compared_low_magnitudes, compared_pair_magnitudes};
ghost use Rattle.apfloat_pair_theory.specs.PairParts.{CanComparePairMagnitudes};

use crate::double_doubles::DoubleFloat;
use apfloat_base::Float;
use std::cmp::Ordering;

/// Whether the low part reduces the magnitude of the high part.
#[inline]
fn is_opposite(x: DoubleFloat) -> bool
    ensures { result ≡ are_opposite x }
{
    x.0.is_negative() != x.1.is_negative()
}

/// The order of the magnitudes of two pairs whose high parts have equal magnitudes: from the order of the low
/// magnitudes, and whether each low part reduces the magnitude of its high part.
#[inline]
fn compare_low_magnitudes(order: Ordering, opposite: bool, other_opposite: bool) -> Ordering
    ensures { result ≡ compared_low_magnitudes order opposite other_opposite }
{
    match order {
        Ordering::Equal => Ordering::Equal,
        unlike => match (opposite, other_opposite) {
            (false, false) => unlike,
            (true, true) => unlike.reverse(),
            (true, false) => Ordering::Less,
            (false, true) => Ordering::Greater,
        },
    }
}

/// The order of the magnitudes of two pairs.
#[inline]
pub(crate) fn compare_magnitudes(x: DoubleFloat, y: DoubleFloat) -> Ordering
    requires { CanComparePairMagnitudes x y }
    ensures { result ≡ compared_pair_magnitudes x y }
{
    match x.0.cmp_abs_normal(y.0) {
        Ordering::Equal => compare_low_magnitudes(
            x.1.cmp_abs_normal(y.1),
            is_opposite(x),
            is_opposite(y),
        ),
        unlike => unlike,
    }
}

impl PartialEq for DoubleFloat {
    ghost use Rattle.apfloat_pair_theory.specs.PairParts.{is_equal_pair};
    ghost use Rattle.apfloat_pair_theory.proofs.parts.PairOrderLaws.{equal_pair_laws};

    ghost eq = { is_equal_pair };

    ghost laws = { equal_pair_laws };

    /// Whether the high parts are the same number, and so are the low parts.
    #[inline]
    fn eq(&self, other: &Self) -> bool {
        self.0 == other.0 && self.1 == other.1
    }
}

impl PartialOrd for DoubleFloat {
    ghost use Rattle.apfloat_pair_theory.specs.PairParts.{compared_pairs};
    ghost use Rattle.apfloat_pair_theory.proofs.parts.PairOrderLaws.{compared_pair_laws};

    ghost partial_cmp = { compared_pairs };

    ghost laws = { compared_pair_laws };

    /// The order of the high parts, and on a tie that of the low parts. For normalized pairs it is the order of their
    /// numbers.
    #[inline]
    fn partial_cmp(&self, other: &Self) -> Option<Ordering> {
        match self.0.partial_cmp(&other.0) {
            Some(Ordering::Equal) => self.1.partial_cmp(&other.1),
            unlike => unlike,
        }
    }
}
