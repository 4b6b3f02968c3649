//! `Float8E3M4`, converted by a format with the same digits and one bit of exponent more.

ghost use Rattle.std.specs.Prelude.{◌≡◌, ◌+◌, ◌-◌, ◌^◌, if◌then◌else◌, pos, negsuc, false, refl};
ghost use Rattle.apfloat_model.specs.{formats.Datum.finite, formats.Datum.infinite, order.Classes.category_of};
ghost use Rattle.apfloat_model.specs.{order.Classes.is_negative, order.Order.compared, rounding.Flags.bits_of};
ghost use Rattle.apfloat_model.specs.declared.kinds.NonfiniteBehavior.TheVariants.{IEEE754};
ghost use Rattle.apfloat_model.specs.arithmetic.Conversions.{IsConversion, IsExactlyConverted};
ghost use Rattle.apfloat_model.specs.rounding.Rounding.{inexact_bit, leads_out, overflow_bit};
ghost use Rattle.apfloat_model.proofs.formats.LawTest.{lawful_from_test};
ghost use Rattle.apfloat_ieee.specs.FlaggedTypes.{format_of as flagged_format_of};
ghost use Rattle.apfloat_ieee.specs.Types.{format_of};
ghost use Rattle.small_formats.specs.Float8E3M4.{IsNarrow, e3m4_datum, e3m4_format, narrowed, widened};

use crate::statuses::status_past;
use apfloat_base::{
    Category, ExpInt, Float, FloatConvert, NonfiniteBehavior, Round, Status, StatusAnd,
};
use apfloat_ieee::{Flagged, IeeeFloat, Semantics};
use apfloat_rounding::rounding::leads_past;
use std::cmp::Ordering;
use std::marker::Model;

/// The same digits and the same least exponent, with one bit of exponent more.
#[derive(Clone, Copy)]
pub struct WideE3M4S;

impl Semantics for WideE3M4S {
    const BITS: usize = 9;

    const EXP_BITS: usize = 4;

    const PRECISION: usize = 5;

    const NONFINITE_BEHAVIOR: NonfiniteBehavior = NonfiniteBehavior::IEEE754;

    const MAX_EXP: ExpInt = 11;

    const IEEE_MAX_EXP: ExpInt = 7;

    const MIN_EXP: ExpInt = -2;

    const IEEE_MIN_EXP: ExpInt = -6;

    const NAN_SIGNIFICAND_BASE: u128 = 0;

    const NAN_PAYLOAD_MASK: u128 = (1 << 4) - 1;

    const QNAN_SIGNIFICAND: u128 = 1 << 3;

    const EXPLICIT_INTEGER_BIT: bool = false;

    const TINY_BEFORE_ROUNDING: bool = false;

    ghost BITS = { 9 };

    ghost EXP_BITS = { 4 };

    ghost PRECISION = { 5 };

    ghost NONFINITE_BEHAVIOR = { IEEE754 };

    ghost MAX_EXP = { pos 11 };

    ghost IEEE_MAX_EXP = { pos 7 };

    ghost MIN_EXP = { negsuc 1 };

    ghost IEEE_MIN_EXP = { negsuc 5 };

    ghost NAN_SIGNIFICAND_BASE = { 0 };

    ghost NAN_PAYLOAD_MASK = { 2 ^ 4 - 1 };

    ghost QNAN_SIGNIFICAND = { 2 ^ 3 };

    ghost EXPLICIT_INTEGER_BIT = { false };

    ghost TINY_BEFORE_ROUNDING = { false };

    ghost lawful = { lawful_from_test _ refl };
}

/// A value of eight bits, three of them the exponent and four the significand, with the infinities and NaNs of IEEE
/// 754. Up to 15.5, in steps of at least 2^-6.
#[derive(Clone, Copy)]
pub struct Float8E3M4 {
    code: u8,
}

impl Model for Float8E3M4 {
    ghost use Rattle.std.specs.Prelude.{ℕ, ◌<◌, refl};

    ghost Value = { ℕ };

    ghost view = { λ x. x.code };

    ghost invariant = { λ x. x.code < 256 };

    ghost inverse = { λ code. record { code = code } };

    ghost inverse_ok = { λ x h. refl };
}

// The code of 15.5 without a sign, and that of infinity.
const LARGEST: u8 = 111;

const INFINITY: u8 = 112;

/// The sign bit, if it is set.
fn sign_code(negative: bool) -> u8
    ensures { result ≡ (if negative then 128 else 0) }
{
    if negative { 128 } else { 0 }
}

/// The code of nine bits.
fn widened(code: u8) -> u16
    ensures { result ≡ widened code }
{
    let magnitude = u16::from(code % 128);
    let sign = u16::from(code / 128) * 256;
    if magnitude < u16::from(INFINITY) {
        sign + magnitude
    } else {
        sign + magnitude + 128
    }
}

/// The code of eight bits, of an infinity, a NaN, or a number of at most 15.5.
pub fn narrowed(code: u16) -> u8
    requires { IsNarrow code }
    ensures { result ≡ narrowed code }
{
    let magnitude = code % 256;
    let sign = code / 256 * 128;
    if magnitude < u16::from(INFINITY) {
        (sign + magnitude) as u8
    } else {
        (sign + magnitude - 128) as u8
    }
}

/// What is delivered past 15.5.
pub fn past(round: Round, negative: bool) -> StatusAnd<Float8E3M4>
    ensures value { e3m4_datum result.value
        ≡ (if leads_out round negative then infinite negative else finite negative 992) }
    ensures status { bits_of result.status
        ≡ (if leads_out round negative then overflow_bit + inexact_bit else inexact_bit) }
{
    let magnitude = if leads_past(round, negative) {
        INFINITY
    } else {
        LARGEST
    };
    status_past(round, negative).and(Float8E3M4 {
        code: sign_code(negative) + magnitude,
    })
}

impl Float8E3M4 {
    /// The value with that code.
    pub fn from_bits(bits: u8) -> Self
        ensures { result ≡ bits }
    {
        Float8E3M4 { code: bits }
    }

    /// The code.
    pub fn to_bits(self) -> u8
        ensures { result ≡ self }
    {
        self.code
    }

    /// The value in the format with one bit of exponent more.
    fn wide(self) -> IeeeFloat<WideE3M4S>
        ensures { result ≡ e3m4_datum self }
    {
        IeeeFloat::from_bits(u128::from(widened(self.code)))
    }

    /// The category (IEEE 754-2019 5.7.2).
    pub fn category(self) -> Category
        ensures { result ≡ category_of (e3m4_datum self) }
    {
        self.wide().category()
    }

    /// Whether the sign is minus, that of a zero or a NaN too.
    pub fn is_negative(self) -> bool
        ensures { result ≡ is_negative (e3m4_datum self) }
    {
        self.wide().is_negative()
    }

    /// The order of two values (IEEE 754-2019 5.11): both zeros are equal, the infinities are at the ends, and a NaN is
    /// unordered.
    pub fn compare(self, other: Self) -> Option<Ordering>
        ensures { result ≡ compared (e3m4_datum self) (e3m4_datum other) }
    {
        self.wide().partial_cmp(&other.wide())
    }

    /// A value of any format, rounded once (IEEE 754-2019 5.4.2), with the flags of that rounding, as into a format of
    /// the model. A NaN keeps the first digits of its payload.
    pub fn from_value<S: Semantics>(
        x: IeeeFloat<S>,
        round: Round,
        loses_info: &mut bool,
    ) -> StatusAnd<Self>
        ensures { IsConversion (format_of S.Semantics) e3m4_format round x
            (e3m4_datum result.value) (bits_of result.status) loses_info.new }
    {
        let answer: StatusAnd<IeeeFloat<WideE3M4S>> = x.convert_r(round, loses_info);
        let code = answer.value.to_bits() as u16;
        if !x.is_finite() {
            return answer.status.and(Float8E3M4::from_bits(narrowed(code)));
        }
        if code % 256 > u16::from(LARGEST) {
            *loses_info = true;
            return past(round, x.is_negative());
        }
        answer.status.and(Float8E3M4::from_bits(narrowed(code)))
    }

    /// The value in another format, rounded once (IEEE 754-2019 5.4.2), as a value of any format is converted.
    pub fn convert_r<T: Flagged>(
        self,
        round: Round,
        loses_info: &mut bool,
    ) -> StatusAnd<IeeeFloat<T>>
        ensures converted { IsConversion e3m4_format (flagged_format_of T.Flagged) round
            (e3m4_datum self) result.value (bits_of result.status) loses_info.new }
        ensures exact { IsExactlyConverted e3m4_format (flagged_format_of T.Flagged)
            (e3m4_datum self) result.value (bits_of result.status) loses_info.new }
    {
        self.wide().convert_r(round, loses_info)
    }
}
