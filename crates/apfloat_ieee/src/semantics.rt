//! The constants that define a format.

ghost use Rattle.std.specs.Prelude.{◌≡◌, ℕ, ℤ, ◌^◌, ◌<◌, Bool, false};
ghost use Rattle.apfloat_model.specs.declared.kinds.NonfiniteBehavior.{NonfiniteBehavior};
ghost use Rattle.apfloat_model.specs.bits.Layout.{IsEncodedBy, IsReadFrom};
ghost use Rattle.apfloat_model.specs.formats.Lawful.{IsLawful, constants_with, format_with, layout_with};

use crate::ieee_float::{IeeeFloat, decode, encode};
use apfloat_base::{ExpInt, NonfiniteBehavior};

/// A binary format.
///
/// A format is a type that gives each constant twice, for code and for contracts, and proves that they are consistent
/// (`lawful`); if they are literals, the proof is `lawful_from_test _ refl`.
pub trait Semantics: Copy {
    /// The width of an encoding in bits, at most 128: the sign, the biased exponent, and the trailing significand of
    /// `PRECISION - 1` bits, or of `PRECISION` bits with an explicit integer bit. 0 in a format for computing only,
    /// whose values have no encoding.
    const BITS: usize;

    /// The width of the biased exponent in bits, at least 1; 0 in a format without bits.
    const EXP_BITS: usize;

    /// The number of binary digits in a significand, 3 to 125, including the integer bit, whether explicit or not.
    const PRECISION: usize;

    /// Which non-finite values the format has.
    const NONFINITE_BEHAVIOR: NonfiniteBehavior;

    /// The greatest exponent of a finite value, counted from its integer bit: `PRECISION` to 2^20.
    ///
    /// In a format with bits it is `IEEE_MAX_EXP + (MIN_EXP - IEEE_MIN_EXP)`, and 1 more for the kinds `NanOnly` and
    /// `NanNegativeZero`, which have numbers at the greatest biased exponent too.
    const MAX_EXP: ExpInt;

    /// The greatest exponent in IEEE 754 for this number of exponent bits, `1 - IEEE_MIN_EXP`; 0 in a format without
    /// bits.
    const IEEE_MAX_EXP: ExpInt;

    /// The least exponent of a normal value, counted from its integer bit: -2^20 to -1. In a format with bits it may
    /// differ from `IEEE_MIN_EXP`: all exponents are then shifted by the difference.
    const MIN_EXP: ExpInt;

    /// The least exponent in IEEE 754 for this number of exponent bits, `2 - 2^(EXP_BITS - 1)`; 0 in a format without
    /// bits.
    const IEEE_MIN_EXP: ExpInt;

    /// The bits that every NaN's significand has: `2^(PRECISION - 1) - 1` for the kind `NanOnly`, and 0 otherwise.
    const NAN_SIGNIFICAND_BASE: u128;

    /// The bits that a NaN's payload may set: `2^(PRECISION - 1) - 1` for the kind `IEEE754`, and 0 otherwise.
    const NAN_PAYLOAD_MASK: u128;

    /// The bits that make a NaN quiet: for the kind `IEEE754`, `2^(PRECISION - 2)`, or `3 * 2^(PRECISION - 2)` with an
    /// explicit integer bit; 0 otherwise.
    const QNAN_SIGNIFICAND: u128;

    /// Whether encodings include the integer bit; only a format of the kind `IEEE754` with bits may.
    const EXPLICIT_INTEGER_BIT: bool;

    /// Whether tininess, a magnitude below 2 to the power of `MIN_EXP`, is detected before rounding rather than after
    /// it (IEEE 754-2019 7.5). Any format may choose either.
    const TINY_BEFORE_ROUNDING: bool;

    ghost BITS: { ℕ };

    ghost EXP_BITS: { ℕ };

    ghost PRECISION: { ℕ };

    ghost NONFINITE_BEHAVIOR: { NonfiniteBehavior };

    ghost MAX_EXP: { ℤ };

    ghost IEEE_MAX_EXP: { ℤ };

    ghost MIN_EXP: { ℤ };

    ghost IEEE_MIN_EXP: { ℤ };

    ghost NAN_SIGNIFICAND_BASE: { ℕ };

    ghost NAN_PAYLOAD_MASK: { ℕ };

    ghost QNAN_SIGNIFICAND: { ℕ };

    ghost EXPLICIT_INTEGER_BIT: { Bool };

    ghost TINY_BEFORE_ROUNDING: { Bool };

    /// The value whose encoding is `bits` (IEEE 754-2019 3.4), in a format with bits, with `PRECISION` below `BITS`.
    /// Bits at and above `BITS` are ignored.
    ///
    /// With an implied integer bit, all encodings below `2^BITS` are canonical: writing the value gives `bits` again.
    #[inline]
    final fn from_bits(bits: u128) -> IeeeFloat<Self>
        requires { PRECISION < BITS }
        ensures { let c = constants_with BITS EXP_BITS PRECISION NONFINITE_BEHAVIOR MAX_EXP
            IEEE_MAX_EXP MIN_EXP IEEE_MIN_EXP NAN_SIGNIFICAND_BASE NAN_PAYLOAD_MASK
            QNAN_SIGNIFICAND EXPLICIT_INTEGER_BIT TINY_BEFORE_ROUNDING in
            IsReadFrom (format_with c) (layout_with c) bits result }
    {
        decode::<Self>(bits)
    }

    /// The bits of the one canonical encoding of the value (IEEE 754-2019 3.4), in a format with bits, with `PRECISION`
    /// below `BITS`. `from_bits` of them returns the value.
    #[inline]
    final fn to_bits(x: IeeeFloat<Self>) -> u128
        requires { PRECISION < BITS }
        ensures written { let c = constants_with BITS EXP_BITS PRECISION NONFINITE_BEHAVIOR
            MAX_EXP IEEE_MAX_EXP MIN_EXP IEEE_MIN_EXP NAN_SIGNIFICAND_BASE NAN_PAYLOAD_MASK
            QNAN_SIGNIFICAND EXPLICIT_INTEGER_BIT TINY_BEFORE_ROUNDING in
            IsEncodedBy (format_with c) (layout_with c) result x }
        ensures only { let c = constants_with BITS EXP_BITS PRECISION NONFINITE_BEHAVIOR MAX_EXP
            IEEE_MAX_EXP MIN_EXP IEEE_MIN_EXP NAN_SIGNIFICAND_BASE NAN_PAYLOAD_MASK
            QNAN_SIGNIFICAND EXPLICIT_INTEGER_BIT TINY_BEFORE_ROUNDING in
            (other : ℕ) → IsEncodedBy (format_with c) (layout_with c) other x → other ≡ result }
    {
        encode::<Self>(x)
    }

    // The constants obey the rules above. If they are literals, the proof is `ghost lawful = { lawful_from_test _ refl
    // };`, with `lawful_from_test` of `rustc_apfloat.proofs.LawTest` and `refl` of the standard `Prelude`; it fails if
    // any of these rules is broken.
    ghost lawful: { IsLawful
        (constants_with BITS EXP_BITS PRECISION NONFINITE_BEHAVIOR MAX_EXP IEEE_MAX_EXP MIN_EXP
        IEEE_MIN_EXP NAN_SIGNIFICAND_BASE NAN_PAYLOAD_MASK QNAN_SIGNIFICAND EXPLICIT_INTEGER_BIT
        TINY_BEFORE_ROUNDING) };
}
