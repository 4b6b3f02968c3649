//! Arm's alternative half precision: 16 bits without infinities and NaNs, whose greatest exponent is one of numbers.

ghost use Rattle.std.specs.Prelude.{◌≡◌, ◌+◌, ◌-◌, ◌*◌, ◌/◌, ◌%◌, ◌^◌, ◌<◌, pos, negsuc, true, false, refl};
ghost use Rattle.std.specs.Prelude.{MatchOption};
ghost use Rattle.apfloat_model.specs.declared.kinds.NonfiniteBehavior.TheVariants.{IEEE754};
ghost use Rattle.apfloat_model.specs.{order.Classes.is_finite, rounding.Flags.Gives};
ghost use Rattle.apfloat_model.proofs.formats.LawTest.{lawful_from_test};
ghost use Rattle.apfloat_ieee.specs.FlaggedTypes.{constants_of, format_of};
ghost use Rattle.apfloat_machines.specs.AlternativeHalves.{IsAlternativeHalf, IsOfAlternativeHalf, greatest_code};
ghost use Rattle.apfloat_machines.specs.AlternativeHalves.{has_code, number_coded, wide_constants, zero_code};

use apfloat_base::{
    Category, ExpInt, Float, FloatConvert, NonfiniteBehavior, Round, Status, StatusAnd,
};
use apfloat_ieee::{Flagged, IeeeFlags, IeeeFloat, Semantics, TinyBefore};

/// The numbers of the alternative half precision, and greater ones, with a sixth exponent bit. Where it is 0, the other
/// bits are those in that precision.
#[derive(Clone, Copy)]
struct WideHalfS;

impl Semantics for WideHalfS {
    const BITS: usize = 17;

    const EXP_BITS: usize = 6;

    const PRECISION: usize = 11;

    const NONFINITE_BEHAVIOR: NonfiniteBehavior = NonfiniteBehavior::IEEE754;

    const MAX_EXP: ExpInt = 47;

    const IEEE_MAX_EXP: ExpInt = 31;

    const MIN_EXP: ExpInt = -14;

    const IEEE_MIN_EXP: ExpInt = -30;

    const NAN_SIGNIFICAND_BASE: u128 = 0;

    const NAN_PAYLOAD_MASK: u128 = (1 << 10) - 1;

    const QNAN_SIGNIFICAND: u128 = 1 << 9;

    const EXPLICIT_INTEGER_BIT: bool = false;

    const TINY_BEFORE_ROUNDING: bool = false;

    ghost BITS = { 17 };

    ghost EXP_BITS = { 6 };

    ghost PRECISION = { 11 };

    ghost NONFINITE_BEHAVIOR = { IEEE754 };

    ghost MAX_EXP = { pos 47 };

    ghost IEEE_MAX_EXP = { pos 31 };

    ghost MIN_EXP = { negsuc 13 };

    ghost IEEE_MIN_EXP = { negsuc 29 };

    ghost NAN_SIGNIFICAND_BASE = { 0 };

    ghost NAN_PAYLOAD_MASK = { 2 ^ 10 - 1 };

    ghost QNAN_SIGNIFICAND = { 2 ^ 9 };

    ghost EXPLICIT_INTEGER_BIT = { false };

    ghost TINY_BEFORE_ROUNDING = { false };

    ghost lawful = { lawful_from_test _ refl };
}

/// The bits of a value in Arm's alternative half precision (FCVT with FPCR.AHP), of which no result is flushed.
///
/// A number is rounded once, with the flags of IEEE 754-2019, tininess detected as in `S`. If its magnitude is then
/// 2^17 or more, in any mode, the result is the greatest number of its sign, 131008, and the flag is INVALID_OP alone;
/// so it is of an infinity. A NaN gives the zero of its sign, with INVALID_OP.
pub fn to_alternative_half<S: Flagged>(x: IeeeFloat<S>, round: Round) -> StatusAnd<u16>
    ensures { Gives (IsAlternativeHalf (format_of S.Flagged) round x) result }
{
    match x.category() {
        Category::NaN => Status::INVALID_OP.and(zero_code(x.is_negative())),
        Category::Infinity => Status::INVALID_OP.and(greatest_code(x.is_negative())),
        Category::Normal => number_to_code(x, round),
        Category::Zero => number_to_code(x, round),
    }
}

/// The value of bits of the alternative half precision in another format, rounded once; from 11 digits and 6 exponent
/// bits on it is exact.
pub fn from_alternative_half<T: Flagged>(bits: u16, round: Round) -> StatusAnd<IeeeFloat<T>>
    ensures { Gives (IsOfAlternativeHalf (format_of T.Flagged) round bits) result }
{
    code_to_number::<IeeeFlags<TinyBefore<WideHalfS>>, T>(bits, round)
}

/// The bits of a number.
fn number_to_code<S: Flagged>(x: IeeeFloat<S>, round: Round) -> StatusAnd<u16>
    requires { is_finite x ≡ true }
    ensures { Gives (IsAlternativeHalf (format_of S.Flagged) round x) result }
{
    if S::TINY_BEFORE_ROUNDING {
        rounded_to_code::<S, IeeeFlags<TinyBefore<WideHalfS>>>(x, round)
    } else {
        rounded_to_code::<S, IeeeFlags<WideHalfS>>(x, round)
    }
}

/// The bits of a number, by way of the wide format.
fn rounded_to_code<S: Flagged, W: Flagged>(x: IeeeFloat<S>, round: Round) -> StatusAnd<u16>
    requires wide { constants_of W.Flagged ≡ wide_constants S.TINY_BEFORE_ROUNDING }
    requires number { is_finite x ≡ true }
    ensures { Gives (IsAlternativeHalf (format_of S.Flagged) round x) result }
{
    let mut loses_info = false;
    let rounded: StatusAnd<IeeeFloat<W>> = x.convert_r(round, &mut loses_info);
    match code_of(rounded.value) {
        None => Status::INVALID_OP.and(greatest_code(x.is_negative())),
        Some(code) => rounded.status.and(code),
    }
}

/// The bits of a value, if it is a number of this precision.
fn code_of<W: Flagged>(x: IeeeFloat<W>) -> Option<u16>
    requires { constants_of W.Flagged ≡ wide_constants W.TINY_BEFORE_ROUNDING }
    ensures { MatchOption result (has_code x ≡ false) (λ code.
        (has_code x ≡ true) × ((code < 2 ^ 16) × (number_coded code ≡ x))) }
{
    let bits = x.to_bits();
    let magnitude = bits % 0x1_0000;
    if magnitude < 0x8000 {
        Some((bits / 0x1_0000 * 0x8000 + magnitude) as u16)
    } else {
        None
    }
}

/// The value of these bits, by way of the wide format.
fn code_to_number<W: Flagged, T: Flagged>(bits: u16, round: Round) -> StatusAnd<IeeeFloat<T>>
    requires { constants_of W.Flagged ≡ wide_constants true }
    ensures { Gives (IsOfAlternativeHalf (format_of T.Flagged) round bits) result }
{
    let mut loses_info = false;
    number_coded::<W>(bits).convert_r(round, &mut loses_info)
}

/// The number of these bits.
fn number_coded<W: Flagged>(bits: u16) -> IeeeFloat<W>
    requires { constants_of W.Flagged ≡ wide_constants true }
    ensures { result ≡ number_coded bits }
{
    IeeeFloat::from_bits((bits / 0x8000) as u128 * 0x1_0000 + (bits % 0x8000) as u128)
}

/// The bits of a zero.
fn zero_code(negative: bool) -> u16
    ensures { result ≡ zero_code negative }
{
    if negative { 0x8000 } else { 0 }
}

/// The bits of the greatest number of a sign.
fn greatest_code(negative: bool) -> u16
    ensures { result ≡ greatest_code negative }
{
    zero_code(negative) + 0x7fff
}
