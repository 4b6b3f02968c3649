//! The modes of conversions, and what a NaN becomes in a format without NaNs.

ghost use Rattle.std.specs.Prelude.{◌≡◌, MatchResult};
ghost use Rattle.small_formats.specs.{RandomDigits.AreRandomDigits, RandomErrors.IsRefused};

use apfloat_base::Round;
use apfloat_words::power_of_two;

/// Random binary digits for one conversion, handed in by the caller.
#[derive(Clone, Copy, Debug)]
pub struct RandomDigits {
    /// How many digits, 1 to 32.
    pub digits: u32,
    /// The digits as a number.
    pub random: u32,
    pub ghost are_random: { AreRandomDigits digits random },
}

/// Why random digits are refused.
#[derive(Clone, Copy, PartialEq, Eq, Debug)]
pub enum RandomError {
    /// There are no digits, or more than 32.
    DigitCount,
    /// The number has more digits.
    TooWide,
}

impl RandomDigits {
    /// `random` as a number of `digits` binary digits.
    ///
    /// # Errors
    ///
    /// `DigitCount` unless there are 1 to 32 digits, `TooWide` if `random` has more.
    pub fn new(digits: u32, random: u32) -> Result<RandomDigits, RandomError>
        ensures { MatchResult result
            (λ bits. (bits.digits ≡ digits) × (bits.random ≡ random))
            (λ error. IsRefused digits random error) }
    {
        if digits == 0 || digits > 32 {
            return Err(RandomError::DigitCount);
        }
        if u128::from(random) >= power_of_two(digits) {
            return Err(RandomError::TooWide);
        }
        Ok(RandomDigits { digits, random })
    }
}

/// How a conversion rounds. No operation but a conversion has the last two modes.
#[derive(Clone, Copy, Debug)]
pub enum ConversionRound {
    /// One of the five modes of IEEE 754 (2019, 4.3).
    Ieee(Round),
    /// The neighbour whose significand is odd. What is past the largest number becomes the largest number.
    ToOdd,
    /// The neighbour away from zero, if the random number and the parts by which the value is past the other neighbour
    /// are together at least 2^digits. The distance of the neighbours has 2^digits parts, and only whole ones count.
    /// Past the largest number as to nearest.
    Stochastic(RandomDigits),
}

/// What a NaN becomes in a format without NaNs.
#[derive(Clone, Copy, PartialEq, Eq, Debug)]
pub enum NanResult {
    /// +0, as an integer.
    Zero,
    /// The largest number, with sign plus.
    Largest,
}
