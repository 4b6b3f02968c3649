//! Small types in the signatures of calls: categories, rounding modes, kinds of non-finite behaviour, exponents.

ghost use Rattle.std.specs.Prelude.{◌≡◌};
ghost use Rattle.apfloat_model.specs.rounding.Negation.{swapped};

use std::ops::Neg;

/// The category of a value. Denormal values are `Normal` too.
#[derive(Clone, Copy, PartialEq, Eq, Debug)]
pub enum Category {
    /// An infinity of either sign.
    Infinity,
    /// A NaN, quiet or signaling.
    NaN,
    /// Finite and nonzero.
    Normal,
    /// A zero of either sign.
    Zero,
}

/// A rounding mode (IEEE 754-2019 4.3): which of its two neighbours in a format represents a result that lies between
/// them.
#[derive(Clone, Copy, PartialEq, Eq, Debug)]
pub enum Round {
    /// The nearer neighbour; on a tie, that with an even last digit (4.3.1).
    NearestTiesToEven,
    /// The upper neighbour (4.3.2).
    TowardPositive,
    /// The lower neighbour (4.3.2).
    TowardNegative,
    /// The neighbour of lesser magnitude (4.3.2).
    TowardZero,
    /// The nearer neighbour; on a tie, that of greater magnitude (4.3.1).
    NearestTiesToAway,
}

impl Neg for Round {
    type Output = Round;

    ghost neg_gives = { λ mode r. r ≡ swapped mode };

    /// The mode that rounds `-x` to the negation of what this mode rounds `x` to: the two directed modes are swapped.
    #[inline]
    fn neg(self) -> Round {
        match self {
            Round::TowardPositive => Round::TowardNegative,
            Round::TowardNegative => Round::TowardPositive,
            Round::NearestTiesToEven => Round::NearestTiesToEven,
            Round::TowardZero => Round::TowardZero,
            Round::NearestTiesToAway => Round::NearestTiesToAway,
        }
    }
}

/// Which non-finite values a format has, and how it writes them.
#[derive(Clone, Copy, PartialEq, Eq, Debug)]
pub enum NonfiniteBehavior {
    /// Infinities and NaNs with payloads, at the greatest biased exponent (IEEE 754-2019 3.4).
    IEEE754,
    /// No infinities, and one NaN of each sign, whose exponent and significand are all ones.
    NanOnly,
    /// No infinities and no negative zero: the bit pattern that would be -0 is the only NaN.
    NanNegativeZero,
}

/// A binary exponent.
pub type ExpInt = i32;

/// The greatest precision of a format that has `mul_r`: the exact product fits in 128 bits.
pub const PRODUCT_LIMIT: usize = 64;

/// The greatest precision of a format that has `mul_add_r`: a sum with the exact product fits in 128 bits.
pub const FUSED_LIMIT: usize = 63;

/// The exponent that `ilogb` and `frexp` return for an infinity.
pub const IEK_INF: ExpInt = ExpInt::MAX;

/// The exponent that `ilogb` and `frexp` return for a NaN.
pub const IEK_NAN: ExpInt = ExpInt::MIN;

/// The exponent that `ilogb` returns for a zero.
pub const IEK_ZERO: ExpInt = ExpInt::MIN + 1;
