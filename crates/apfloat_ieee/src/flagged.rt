//! Formats together with their rule of flags.

ghost use Rattle.std.specs.Prelude.{ℕ, ℤ, Bool, true, false};
ghost use Rattle.apfloat_model.specs.declared.kinds.NonfiniteBehavior.{NonfiniteBehavior};
ghost use Rattle.apfloat_model.specs.formats.Lawful.{IsLawful, constants_with};
ghost use Rattle.apfloat_model.proofs.formats.OtherFlags.{other_flags};

use crate::semantics::Semantics;
use apfloat_base::{ExpInt, NonfiniteBehavior};
use std::marker::PhantomData;

/// A binary format together with the rule by which a rounding raises OVERFLOW and UNDERFLOW.
///
/// Each type that implements `Semantics` implements this too, with the rule of the built-in formats; `IeeeFlags<S>` is
/// the format `S` with the rule of IEEE 754-2019. The other constants are those of `Semantics`. No value depends on the
/// rule.
pub trait Flagged: Copy {
    /// `Semantics::BITS`.
    const BITS: usize;

    /// `Semantics::EXP_BITS`.
    const EXP_BITS: usize;

    /// `Semantics::PRECISION`.
    const PRECISION: usize;

    /// `Semantics::NONFINITE_BEHAVIOR`.
    const NONFINITE_BEHAVIOR: NonfiniteBehavior;

    /// `Semantics::MAX_EXP`.
    const MAX_EXP: ExpInt;

    /// `Semantics::IEEE_MAX_EXP`.
    const IEEE_MAX_EXP: ExpInt;

    /// `Semantics::MIN_EXP`.
    const MIN_EXP: ExpInt;

    /// `Semantics::IEEE_MIN_EXP`.
    const IEEE_MIN_EXP: ExpInt;

    /// `Semantics::NAN_SIGNIFICAND_BASE`.
    const NAN_SIGNIFICAND_BASE: u128;

    /// `Semantics::NAN_PAYLOAD_MASK`.
    const NAN_PAYLOAD_MASK: u128;

    /// `Semantics::QNAN_SIGNIFICAND`.
    const QNAN_SIGNIFICAND: u128;

    /// `Semantics::EXPLICIT_INTEGER_BIT`.
    const EXPLICIT_INTEGER_BIT: bool;

    /// `Semantics::TINY_BEFORE_ROUNDING`.
    const TINY_BEFORE_ROUNDING: bool;

    /// Whether flags are raised as IEEE 754-2019 asks: OVERFLOW whenever the result, rounded with an unbounded
    /// exponent, is past the largest value (7.4), even in the modes that then deliver the largest value; and UNDERFLOW
    /// if an inexact result, rounded with an unbounded exponent, is tiny, or, with `TINY_BEFORE_ROUNDING`, if the exact
    /// result is (7.5).
    const IEEE_FLAGS: bool;

    ghost BITS: { ℕ };

    ghost EXP_BITS: { ℕ };

    ghost PRECISION: { ℕ };

    ghost NONFINITE_BEHAVIOR: { NonfiniteBehavior };

    ghost MAX_EXP: { ℤ };

    ghost IEEE_MAX_EXP: { ℤ };

    ghost MIN_EXP: { ℤ };

    ghost IEEE_MIN_EXP: { ℤ };

    ghost NAN_SIGNIFICAND_BASE: { ℕ };

    ghost NAN_PAYLOAD_MASK: { ℕ };

    ghost QNAN_SIGNIFICAND: { ℕ };

    ghost EXPLICIT_INTEGER_BIT: { Bool };

    ghost TINY_BEFORE_ROUNDING: { Bool };

    ghost IEEE_FLAGS: { Bool };

    // the rules of `Semantics`
    ghost lawful: { IsLawful
        (record (constants_with BITS EXP_BITS PRECISION NONFINITE_BEHAVIOR MAX_EXP IEEE_MAX_EXP
        MIN_EXP IEEE_MIN_EXP NAN_SIGNIFICAND_BASE NAN_PAYLOAD_MASK QNAN_SIGNIFICAND
        EXPLICIT_INTEGER_BIT TINY_BEFORE_ROUNDING) { ieee_flags = IEEE_FLAGS }) };
}

impl<S: Semantics> Flagged for S {
    const BITS: usize = <S as Semantics>::BITS;

    const EXP_BITS: usize = <S as Semantics>::EXP_BITS;

    const PRECISION: usize = <S as Semantics>::PRECISION;

    const NONFINITE_BEHAVIOR: NonfiniteBehavior = <S as Semantics>::NONFINITE_BEHAVIOR;

    const MAX_EXP: ExpInt = <S as Semantics>::MAX_EXP;

    const IEEE_MAX_EXP: ExpInt = <S as Semantics>::IEEE_MAX_EXP;

    const MIN_EXP: ExpInt = <S as Semantics>::MIN_EXP;

    const IEEE_MIN_EXP: ExpInt = <S as Semantics>::IEEE_MIN_EXP;

    const NAN_SIGNIFICAND_BASE: u128 = <S as Semantics>::NAN_SIGNIFICAND_BASE;

    const NAN_PAYLOAD_MASK: u128 = <S as Semantics>::NAN_PAYLOAD_MASK;

    const QNAN_SIGNIFICAND: u128 = <S as Semantics>::QNAN_SIGNIFICAND;

    const EXPLICIT_INTEGER_BIT: bool = <S as Semantics>::EXPLICIT_INTEGER_BIT;

    const TINY_BEFORE_ROUNDING: bool = <S as Semantics>::TINY_BEFORE_ROUNDING;

    const IEEE_FLAGS: bool = false;

    ghost BITS = { S.BITS };

    ghost EXP_BITS = { S.EXP_BITS };

    ghost PRECISION = { S.PRECISION };

    ghost NONFINITE_BEHAVIOR = { S.NONFINITE_BEHAVIOR };

    ghost MAX_EXP = { S.MAX_EXP };

    ghost IEEE_MAX_EXP = { S.IEEE_MAX_EXP };

    ghost MIN_EXP = { S.MIN_EXP };

    ghost IEEE_MIN_EXP = { S.IEEE_MIN_EXP };

    ghost NAN_SIGNIFICAND_BASE = { S.NAN_SIGNIFICAND_BASE };

    ghost NAN_PAYLOAD_MASK = { S.NAN_PAYLOAD_MASK };

    ghost QNAN_SIGNIFICAND = { S.QNAN_SIGNIFICAND };

    ghost EXPLICIT_INTEGER_BIT = { S.EXPLICIT_INTEGER_BIT };

    ghost TINY_BEFORE_ROUNDING = { S.TINY_BEFORE_ROUNDING };

    ghost IEEE_FLAGS = { false };

    ghost lawful = { S.lawful };
}

/// The format `S` with the flags of IEEE 754-2019 and tininess detected after rounding, as on x86 and RISC-V.
/// `IeeeFlags<TinyBefore<S>>` detects it before rounding, as on Arm and POWER.
#[derive_where(Clone, Copy)]
pub struct IeeeFlags<S: Semantics> {
    marker: PhantomData<S>,
}

impl<S: Semantics> Flagged for IeeeFlags<S> {
    const BITS: usize = <S as Semantics>::BITS;

    const EXP_BITS: usize = <S as Semantics>::EXP_BITS;

    const PRECISION: usize = <S as Semantics>::PRECISION;

    const NONFINITE_BEHAVIOR: NonfiniteBehavior = <S as Semantics>::NONFINITE_BEHAVIOR;

    const MAX_EXP: ExpInt = <S as Semantics>::MAX_EXP;

    const IEEE_MAX_EXP: ExpInt = <S as Semantics>::IEEE_MAX_EXP;

    const MIN_EXP: ExpInt = <S as Semantics>::MIN_EXP;

    const IEEE_MIN_EXP: ExpInt = <S as Semantics>::IEEE_MIN_EXP;

    const NAN_SIGNIFICAND_BASE: u128 = <S as Semantics>::NAN_SIGNIFICAND_BASE;

    const NAN_PAYLOAD_MASK: u128 = <S as Semantics>::NAN_PAYLOAD_MASK;

    const QNAN_SIGNIFICAND: u128 = <S as Semantics>::QNAN_SIGNIFICAND;

    const EXPLICIT_INTEGER_BIT: bool = <S as Semantics>::EXPLICIT_INTEGER_BIT;

    const TINY_BEFORE_ROUNDING: bool = <S as Semantics>::TINY_BEFORE_ROUNDING;

    const IEEE_FLAGS: bool = true;

    ghost BITS = { S.BITS };

    ghost EXP_BITS = { S.EXP_BITS };

    ghost PRECISION = { S.PRECISION };

    ghost NONFINITE_BEHAVIOR = { S.NONFINITE_BEHAVIOR };

    ghost MAX_EXP = { S.MAX_EXP };

    ghost IEEE_MAX_EXP = { S.IEEE_MAX_EXP };

    ghost MIN_EXP = { S.MIN_EXP };

    ghost IEEE_MIN_EXP = { S.IEEE_MIN_EXP };

    ghost NAN_SIGNIFICAND_BASE = { S.NAN_SIGNIFICAND_BASE };

    ghost NAN_PAYLOAD_MASK = { S.NAN_PAYLOAD_MASK };

    ghost QNAN_SIGNIFICAND = { S.QNAN_SIGNIFICAND };

    ghost EXPLICIT_INTEGER_BIT = { S.EXPLICIT_INTEGER_BIT };

    ghost TINY_BEFORE_ROUNDING = { S.TINY_BEFORE_ROUNDING };

    ghost IEEE_FLAGS = { true };

    ghost lawful = { other_flags
        (constants_with S.BITS S.EXP_BITS S.PRECISION S.NONFINITE_BEHAVIOR S.MAX_EXP S.IEEE_MAX_EXP
        S.MIN_EXP S.IEEE_MIN_EXP S.NAN_SIGNIFICAND_BASE S.NAN_PAYLOAD_MASK S.QNAN_SIGNIFICAND
        S.EXPLICIT_INTEGER_BIT S.TINY_BEFORE_ROUNDING) S.TINY_BEFORE_ROUNDING true S.lawful };
}

/// The format `S` with tininess detected before rounding.
#[derive_where(Clone, Copy)]
pub struct TinyBefore<S: Semantics> {
    marker: PhantomData<S>,
}

impl<S: Semantics> Semantics for TinyBefore<S> {
    const BITS: usize = <S as Semantics>::BITS;

    const EXP_BITS: usize = <S as Semantics>::EXP_BITS;

    const PRECISION: usize = <S as Semantics>::PRECISION;

    const NONFINITE_BEHAVIOR: NonfiniteBehavior = <S as Semantics>::NONFINITE_BEHAVIOR;

    const MAX_EXP: ExpInt = <S as Semantics>::MAX_EXP;

    const IEEE_MAX_EXP: ExpInt = <S as Semantics>::IEEE_MAX_EXP;

    const MIN_EXP: ExpInt = <S as Semantics>::MIN_EXP;

    const IEEE_MIN_EXP: ExpInt = <S as Semantics>::IEEE_MIN_EXP;

    const NAN_SIGNIFICAND_BASE: u128 = <S as Semantics>::NAN_SIGNIFICAND_BASE;

    const NAN_PAYLOAD_MASK: u128 = <S as Semantics>::NAN_PAYLOAD_MASK;

    const QNAN_SIGNIFICAND: u128 = <S as Semantics>::QNAN_SIGNIFICAND;

    const EXPLICIT_INTEGER_BIT: bool = <S as Semantics>::EXPLICIT_INTEGER_BIT;

    const TINY_BEFORE_ROUNDING: bool = true;

    ghost BITS = { S.BITS };

    ghost EXP_BITS = { S.EXP_BITS };

    ghost PRECISION = { S.PRECISION };

    ghost NONFINITE_BEHAVIOR = { S.NONFINITE_BEHAVIOR };

    ghost MAX_EXP = { S.MAX_EXP };

    ghost IEEE_MAX_EXP = { S.IEEE_MAX_EXP };

    ghost MIN_EXP = { S.MIN_EXP };

    ghost IEEE_MIN_EXP = { S.IEEE_MIN_EXP };

    ghost NAN_SIGNIFICAND_BASE = { S.NAN_SIGNIFICAND_BASE };

    ghost NAN_PAYLOAD_MASK = { S.NAN_PAYLOAD_MASK };

    ghost QNAN_SIGNIFICAND = { S.QNAN_SIGNIFICAND };

    ghost EXPLICIT_INTEGER_BIT = { S.EXPLICIT_INTEGER_BIT };

    ghost TINY_BEFORE_ROUNDING = { true };

    ghost lawful = { other_flags
        (constants_with S.BITS S.EXP_BITS S.PRECISION S.NONFINITE_BEHAVIOR S.MAX_EXP S.IEEE_MAX_EXP
        S.MIN_EXP S.IEEE_MIN_EXP S.NAN_SIGNIFICAND_BASE S.NAN_PAYLOAD_MASK S.QNAN_SIGNIFICAND
        S.EXPLICIT_INTEGER_BIT S.TINY_BEFORE_ROUNDING) true false S.lawful };
}
