//! Results of unmasked overflow and underflow: the exponent is wrapped (the trapped overflow and underflow of
//! IEEE 754-1985 7.3 and 7.4).

ghost use Rattle.std.proofs.Common.{inl, le_trans, le→leb, lit≤};
ghost use Rattle.std.specs.Prelude.{◌≡◌, ◌-◌, ◌^◌, pos, negsuc, true, false, refl, neg_ℤ};
ghost use lib.Signed.{le_z_yes};
ghost use Rattle.apfloat_model.specs.declared.kinds.NonfiniteBehavior.TheVariants.{IEEE754};
ghost use Rattle.apfloat_model.specs.rounding.Flags.{Gives, bits_of};
ghost use Rattle.apfloat_ieee.specs.FlaggedTypes.{format_of};
ghost use Rattle.apfloat_machines.specs.Flushing.{is_flushed};
ghost use Rattle.apfloat_machines.specs.Wrapping.{IsMoved, IsWrapped, bias_adjustment, half_of_exponents};

use apfloat_base::{ExpInt, Float, FloatConvert, NonfiniteBehavior, Round, Status, StatusAnd};
use apfloat_ieee::{Flagged, IeeeFloat, Semantics};
use ieee_operations::{raise_flags, test_flags};
use std::marker::PhantomData;

/// The digits of the format `S` and the exponents from -2^20 to 2^20, for results that neither overflow nor are tiny.
/// It is for computing only: its values have no encoding.
#[derive_where(Clone, Copy)]
pub struct Unbounded<S: Flagged> {
    marker: PhantomData<S>,
}

impl<S: Flagged> Semantics for Unbounded<S> {
    const BITS: usize = 0;

    const EXP_BITS: usize = 0;

    const PRECISION: usize = S::PRECISION;

    const NONFINITE_BEHAVIOR: NonfiniteBehavior = NonfiniteBehavior::IEEE754;

    const MAX_EXP: ExpInt = 1 << 20;

    const IEEE_MAX_EXP: ExpInt = 0;

    const MIN_EXP: ExpInt = -(1 << 20);

    const IEEE_MIN_EXP: ExpInt = 0;

    const NAN_SIGNIFICAND_BASE: u128 = 0;

    const NAN_PAYLOAD_MASK: u128 = (1 << (S::PRECISION - 1)) - 1;

    const QNAN_SIGNIFICAND: u128 = 1 << (S::PRECISION - 2);

    const EXPLICIT_INTEGER_BIT: bool = false;

    const TINY_BEFORE_ROUNDING: bool = false;

    ghost BITS = { 0 };

    ghost EXP_BITS = { 0 };

    ghost PRECISION = { S.PRECISION };

    ghost NONFINITE_BEHAVIOR = { IEEE754 };

    ghost MAX_EXP = { pos 1048576 };

    ghost IEEE_MAX_EXP = { pos 0 };

    ghost MIN_EXP = { negsuc 1048575 };

    ghost IEEE_MIN_EXP = { pos 0 };

    ghost NAN_SIGNIFICAND_BASE = { 0 };

    ghost NAN_PAYLOAD_MASK = { 2 ^ (S.PRECISION - 1) - 1 };

    ghost QNAN_SIGNIFICAND = { 2 ^ (S.PRECISION - 2) };

    ghost EXPLICIT_INTEGER_BIT = { false };

    ghost TINY_BEFORE_ROUNDING = { false };

    ghost lawful = { let digits = S.lawful.parameters in record {
      parameters = record {
        precision_low = digits.precision_low;
        precision_high = digits.precision_high;
        min_exp_low = le_z_yes tt;
        min_exp_high = le_z_yes tt;
        max_exp_low = le_z_yes (le→leb _ _ (le_trans digits.precision_high (lit≤ tt)));
        max_exp_high = le_z_yes tt;
      };
      layout = inl (record {
        bits = refl;
        exp_bits = refl;
        ieee_min_exp = refl;
        ieee_max_exp = refl;
        implied = refl;
      });
      explicit = tt;
      base = refl;
      mask = refl;
      quiet = refl;
    } };
}

/// One more than the greatest exponent of a number: half of the number of biased exponents.
fn half_of_exponents<S: Flagged>() -> ExpInt
    ensures { result ≡ pos (half_of_exponents (format_of S.Flagged)) }
{
    S::MAX_EXP + 1
}

/// How far an exponent is wrapped: three quarters of the number of biased exponents.
fn bias_adjustment<S: Flagged>() -> ExpInt
    ensures { result ≡ pos (bias_adjustment (format_of S.Flagged)) }
{
    3 * half_of_exponents::<S>() / 2
}

/// A result with wide exponents times two to a power, with this flag beside its own.
fn moved<S: Flagged, W: Flagged>(
    wide: StatusAnd<IeeeFloat<W>>,
    places: ExpInt,
    flag: Status,
) -> StatusAnd<IeeeFloat<S>>
    ensures { Gives (IsMoved (format_of W.Flagged) (format_of S.Flagged) places (bits_of flag)
        wide) result }
{
    let scaled = wide.value.scalbn_r(places, Round::TowardZero);
    let mut loses_info = false;
    let converted: StatusAnd<IeeeFloat<S>> = scaled.convert_r(Round::TowardZero, &mut loses_info);
    raise_flags(wide.status, flag).and(converted.value)
}

/// The result of an operation, where overflow and underflow are unmasked, as x87, POWER and s390x deliver it: what
/// overflows is divided by 2^a, and what is tiny, exact or not, is multiplied by 2^a, with `a` three quarters of the
/// number of biased exponents: 24 for half, 192 for single, 1536 for double, and 24576 for x87 and quad. Anything else
/// is `plain`, the answer of the operation in the format `S` with its flags by IEEE 754 (`IeeeFlags`).
///
/// `wide` is the answer of the same operation in the same mode in a format that has the digits of the result and wider
/// exponents, as `x.add_to::<Unbounded<S>>(y, round)` gives it. The flags are OVERFLOW or UNDERFLOW and those of
/// `wide`: INEXACT only if that rounding was inexact.
///
/// A number that the format `S` has is delivered exactly (`wrapped_answers_are_exact`). Any other, as some quotients of
/// half are, is rounded toward zero.
pub fn wrapped<S: Flagged, W: Flagged>(
    plain: StatusAnd<IeeeFloat<S>>,
    wide: StatusAnd<IeeeFloat<W>>,
) -> StatusAnd<IeeeFloat<S>>
    ensures { Gives (IsWrapped (format_of W.Flagged) (format_of S.Flagged) plain wide) result }
{
    if test_flags(plain.status, Status::OVERFLOW) {
        moved(wide, -bias_adjustment::<S>(), Status::OVERFLOW)
    } else if test_flags(plain.status, Status::UNDERFLOW) || plain.value.is_denormal() {
        moved(wide, bias_adjustment::<S>(), Status::UNDERFLOW)
    } else {
        plain
    }
}
