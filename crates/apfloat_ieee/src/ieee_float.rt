//! A value of one format.

ghost use Rattle.std.specs.Prelude.{◌≡◌, ℕ, ◌-◌, ◌*◌, ◌^◌, ◌<◌, ◌≤◌, ◌⊎◌, pos, ◌+ℤ◌, ◌≤ℤ◌, false};
ghost use Rattle.apfloat_model.specs.{formats.Members.IsMember, rounding.Bounds.IsWithin};
ghost use Rattle.apfloat_model.specs.declared.{loss.Loss.Loss, kinds.Category.TheVariants.Normal};
ghost use Rattle.apfloat_model.specs.order.Classes.{category_of, quanta_of};
ghost use Rattle.apfloat_model.specs.rounding.{Bounds.exponent_bound, Flags.Gives, Rounding.IsDelivered};
ghost use Rattle.apfloat_model.specs.rounding.Standing.{StandsFor, IsFineFor, up, down};
ghost use Rattle.apfloat_model.specs.bits.{Interchange.IsInterchange, Layout.IsEncodedBy, Layout.IsReadFrom};
ghost use Rattle.apfloat_rounding.specs.{Encoded.layout_at, Stored.IsStored, Stored.datum_at};
ghost use Rattle.apfloat_ieee.specs.FlaggedTypes.{shape_of, format_of, layout_of};

use crate::flagged::Flagged;
use apfloat_base::{ExpInt, Round, StatusAnd};
use apfloat_model::Loss;
use apfloat_rounding::bits::{self, Widths};
use apfloat_rounding::rounding;
use apfloat_rounding::shape::Shape;
use apfloat_rounding::unpacked::Unpacked;
use std::marker::{Model, PhantomData};

/// A value of the format `S`, with the rule of flags of `S`.
#[derive_where(Clone, Copy)]
pub struct IeeeFloat<S: Flagged> {
    unpacked: Unpacked,
    marker: PhantomData<S>,
}

/// A nonzero number: its significand, whose integer bit is set, and the exponent of its last digit.
#[derive(Clone, Copy)]
pub struct Number {
    /// The digits, as an integer. Those of a denormal value below its quantum are zero.
    pub significand: u128,
    /// The exponent of two of the last digit.
    pub exponent: ExpInt,
}

impl<S: Flagged> Model for IeeeFloat<S> {
    ghost use Rattle.apfloat_model.specs.formats.Datum.{Datum};
    ghost use Rattle.apfloat_rounding.specs.Stored.{IsStored, datum_at, unpacked_of};
    ghost use Rattle.apfloat_rounding.proofs.StoredBack.{comes_back};
    ghost use Rattle.apfloat_ieee.specs.FlaggedTypes.{shape_of};

    ghost Value = { Datum };

    ghost view = { λ x. datum_at (shape_of S.Flagged) x.unpacked };

    ghost invariant = { λ x. IsStored (shape_of S.Flagged) x.unpacked };

    ghost inverse = { λ d.
        record { unpacked = unpacked_of (shape_of S.Flagged) d; marker = record {} } };

    ghost inverse_ok = { λ x h. Prim.rw (comes_back (shape_of S.Flagged) x.unpacked h) };
}

/// The constants of a format that rounding reads.
#[inline]
pub(crate) fn shape_of<S: Flagged>() -> Shape
    ensures { result ≡ shape_of S.Flagged }
{
    Shape {
        precision: S::PRECISION as u32,
        min_exp: S::MIN_EXP,
        max_exp: S::MAX_EXP,
        nonfinite: S::NONFINITE_BEHAVIOR,
        explicit_integer_bit: S::EXPLICIT_INTEGER_BIT,
        tiny_before_rounding: S::TINY_BEFORE_ROUNDING,
        ieee_flags: S::IEEE_FLAGS,
    }
}

/// The widths of a format's encodings.
#[inline]
fn widths_of<S: Flagged>() -> Widths
    requires { S.PRECISION < S.BITS }
    ensures value { layout_at result ≡ layout_of S.Flagged }
    ensures interchange { IsInterchange (format_of S.Flagged) (layout_of S.Flagged) }
{
    Widths {
        bits: S::BITS as u32,
        exponent_bits: S::EXP_BITS as u32,
    }
}

/// The value whose encoding is `bits`.
#[inline]
pub(crate) fn decode<S: Flagged>(bits: u128) -> IeeeFloat<S>
    requires { S.PRECISION < S.BITS }
    ensures { IsReadFrom (format_of S.Flagged) (layout_of S.Flagged) bits result }
{
    IeeeFloat::packed(bits::decode(shape_of::<S>(), widths_of::<S>(), bits))
}

/// The bits of the one canonical encoding of the value.
#[inline]
pub(crate) fn encode<S: Flagged>(x: IeeeFloat<S>) -> u128
    requires { S.PRECISION < S.BITS }
    ensures written { IsEncodedBy (format_of S.Flagged) (layout_of S.Flagged) result x }
    ensures only { (other : ℕ)
        → IsEncodedBy (format_of S.Flagged) (layout_of S.Flagged) other x → other ≡ result }
{
    bits::encode(shape_of::<S>(), widths_of::<S>(), x.unpacked())
}

impl<S: Flagged> IeeeFloat<S> {
    /// The value with this stored form.
    #[inline]
    pub(crate) fn packed(unpacked: Unpacked) -> Self
        requires { IsStored (shape_of S.Flagged) unpacked }
        ensures { result ≡ datum_at (shape_of S.Flagged) unpacked }
    {
        IeeeFloat {
            unpacked: Unpacked {
                significand: unpacked.significand,
                exponent: unpacked.exponent,
                category: unpacked.category,
                negative: unpacked.negative,
            },
            marker: PhantomData,
        }
    }

    /// The stored form of the value.
    #[inline]
    pub(crate) fn unpacked(self) -> Unpacked
        ensures stored { IsStored (shape_of S.Flagged) result }
        ensures datum { self ≡ datum_at (shape_of S.Flagged) result }
        ensures category { result.category ≡ category_of self }
        ensures member { IsMember (format_of S.Flagged) self }
    {
        self.unpacked
    }

    /// The significand of a nonzero number, with its sign dropped, and the exponent of its last digit.
    #[inline]
    pub fn number(self) -> Number
        requires { category_of self ≡ Normal }
        ensures fits { result.significand < 2 ^ S.PRECISION }
        ensures full { 2 ^ (S.PRECISION - 1) ≤ result.significand }
        ensures within { IsWithin (2 ^ 22) result.exponent }
        ensures number { let unit = result.exponent +ℤ pos (format_of S.Flagged).scale in
            quanta_of self * 2 ^ down unit ≡ result.significand * 2 ^ up unit }
    {
        let stored = self.unpacked();
        Number {
            significand: stored.significand,
            exponent: stored.exponent - (S::PRECISION as ExpInt - 1),
        }
    }

    /// The result with the value of this stored form.
    #[inline]
    pub(crate) fn answered(answer: StatusAnd<Unpacked>) -> StatusAnd<Self>
        requires { IsStored (shape_of S.Flagged) answer.value }
        ensures status { result.status ≡ answer.status }
        ensures value { result.value ≡ datum_at (shape_of S.Flagged) answer.value }
    {
        answer.status.and(Self::packed(answer.value))
    }
}

/// Delivers `significand * 2^exponent`, where `loss` says what was cut off below the last digit, rounded once to the
/// format (IEEE 754-2019 4.3), with exactly the flags of that rounding.
///
/// If something was lost, the unit of the last digit has to divide an ulp of the result: it is at most the quantum, or
/// the significand has all the digits of the format. Where tininess is judged with an unbounded exponent, it is at most
/// half a quantum instead of a quantum.
#[inline]
pub fn deliver<S: Flagged>(
    significand: u128,
    exponent: ExpInt,
    loss: Loss,
    round: Round,
    negative: bool,
) -> StatusAnd<IeeeFloat<S>>
    requires within { IsWithin exponent_bound exponent }
    requires fine { let format = format_of S.Flagged in
        IsFineFor format significand (exponent +ℤ pos format.scale) loss }
    ensures { let unit = exponent +ℤ pos (format_of S.Flagged).scale in (amount parts : ℕ)
        → 0 < parts → StandsFor significand loss (amount * 2 ^ down unit) (parts * 2 ^ up unit)
        → Gives (IsDelivered (format_of S.Flagged) round negative amount parts) result }
{
    IeeeFloat::answered(rounding::deliver(
        shape_of::<S>(),
        significand,
        exponent,
        loss,
        round,
        negative,
    ))
}
