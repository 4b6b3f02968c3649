//! The constants that define a storage format.

ghost use Rattle.std.specs.Prelude.{ℕ, ℤ};
ghost use Rattle.small_formats.specs.Storage.{IsLawfulStorage, constants_with};

use apfloat_base::ExpInt;

/// A storage format all of whose codes are numbers.
///
/// The bits of a code are, from the top, the sign, the biased exponent, and `PRECISION - 1` bits of the significand.
/// The biased exponent 0 is that of zero and the denormal numbers, and there are no infinities or NaNs. A type gives
/// each constant twice, for code and for contracts, and proves that they are consistent (`lawful`); if they are
/// literals, the proof is `lawful_from_test _ refl`.
pub trait StorageFormat: Copy {
    /// The width of a code in bits, at most 8.
    const BITS: usize;

    /// The number of binary digits in a significand, at least 2, including the implied integer bit. At least one bit is
    /// left for the exponent.
    const PRECISION: usize;

    /// The exponent of the least number whose significand has all its digits, counted from its integer bit: -2^20 to 0.
    const MIN_EXP: ExpInt;

    ghost BITS: { ℕ };

    ghost PRECISION: { ℕ };

    ghost MIN_EXP: { ℤ };

    // The constants obey the rules above. If they are literals, the proof is `lawful_from_test _ refl`, with
    // `lawful_from_test` of `small_formats.specs.LawTest`.
    ghost lawful: { IsLawfulStorage (constants_with BITS PRECISION MIN_EXP) };
}
