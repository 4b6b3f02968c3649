//! Pairs of doubles: a number as the exact sum of two doubles, `high + low`.
//!
//! The format is also called double-double, and IBM's extended double. Sums and products are chains of operations on
//! doubles. Quotients, remainders, texts and integers are computed in the wide format `FallbackS`, of 106 binary
//! digits, which has the exact sum of the parts if that fits. Other operations act on the parts.
//!
//! `apfloat_pair_theory` defines what each call returns. The calls here use only the public calls of `Double` and of
//! the wide format.

ghost use Rattle.std.specs.Prelude.{◌≡◌};
ghost use Rattle.apfloat_pair_theory.specs.Pairs.{alone};

mod impls;
mod join;
mod operators;
mod order;
mod parts;
mod products;
mod roots;
mod sums;
mod wide;
mod wide_formats;

use apfloat_base::Float;
use apfloat_ieee::built_in_formats::{Double, IeeeFloat};
use std::marker::Model;
pub use wide_formats::{FallbackExtendedS, FallbackS};

/// A number as the exact sum of two doubles: a high part, and a low part, which is the rest.
///
/// Any two doubles are a pair. A pair is normalized if the parts are finite and the high part is the double nearest to
/// their sum. A high part that is zero, infinite or a NaN determines what the pair is, whatever the low part.
#[derive(Clone, Copy, Debug)]
pub struct DoubleFloat(Double, Double);

/// The pair of two binary64 values.
pub type DoubleDouble = DoubleFloat;

/// A value of the wide format, in which operations on pairs are computed.
type Fallback = IeeeFloat<FallbackS>;

impl Model for DoubleFloat {
    ghost use Rattle.apfloat_pair_theory.specs.Pairs.{Pair};

    ghost Value = { Pair };

    ghost view = { λ x. record { high = x.0; low = x.1 } };

    ghost inverse = { λ x. record { 0 = x.high; 1 = x.low } };
}

impl DoubleFloat {
    /// A pair with low part +0.
    #[inline]
    fn alone(high: Double) -> DoubleFloat
        ensures { result ≡ alone high }
    {
        DoubleFloat(high, Double::zero())
    }
}
