//! Quotients of two values in a storage format.

ghost use Rattle.std.specs.Prelude.{◌≡◌, ℕ, ◌+◌, ◌-◌, ◌*◌, ◌^◌, ◌<◌, ◌≤◌, pos, ◌+ℤ◌, ◌-ℤ◌, true};
ghost use Rattle.apfloat_model.specs.order.{Classes.is_finite, Classes.is_negative, Positive.IsPositive};
ghost use Rattle.apfloat_model.specs.rounding.{Bounds.IsWithin, Bounds.unit_bound, Flags.Gives};
ghost use Rattle.apfloat_model.specs.rounding.Standing.{StandsFor, up, down};
ghost use Rattle.apfloat_ieee.specs.Types.{format_of};
ghost use Rattle.small_formats.specs.{Conversions.IsSaturated, Picks.IsPickedAt, Quotients.IsRatioOf};
ghost use Rattle.small_formats.specs.{Storage.format_with, Types.constants_of};

use crate::cuts::cut_number;
use crate::format::StorageFormat;
use crate::from_value::{deliver_pick, scale};
use crate::picks::{Picked, index_of, moved_index};
use crate::quanta::magnitude_of;
use crate::stored::StoredFloat;
use apfloat_base::{Category, ExpInt, Float, Round, Status, StatusAnd};
use apfloat_ieee::{IeeeFloat, Semantics};
use apfloat_model::Loss;
use apfloat_rounding::rounding::moves_up;
use apfloat_words::{digits, divide_u128, is_exact};

/// How many more digits of a quotient of two numbers of 125 digits are computed: it then has 126 or 127.
const PLACES: u32 = 126;

/// The unit of the last digit of a quotient, counted from a quantum, given the exponents of the last digits.
fn quotient_unit(dividend: ExpInt, divisor: ExpInt, scale: u32) -> ExpInt
    requires dividend { IsWithin (2 ^ 22 + 2 ^ 7) dividend }
    requires divisor { IsWithin (2 ^ 22 + 2 ^ 7) divisor }
    requires scale { scale ≤ 2 ^ 21 }
    ensures value { result ≡ ((dividend -ℤ divisor) -ℤ pos 126) +ℤ pos scale }
    ensures within { IsWithin (2 ^ 24) result }
{
    dividend - divisor - PLACES as ExpInt + scale as ExpInt
}

/// The point that is picked for `number * 2^unit` quanta, below which `loss` was lost.
fn pick_with_loss(
    precision: u32,
    number: u128,
    loss: Loss,
    unit: ExpInt,
    mode: Round,
    negative: bool,
) -> Picked
    requires some { 0 < precision }
    requires precise { precision ≤ 8 }
    requires long { 2 ^ 124 ≤ number }
    requires within { IsWithin unit_bound unit }
    ensures { (amount parts : ℕ) → 0 < parts
        → StandsFor number loss (amount * 2 ^ down unit) (parts * 2 ^ up unit)
        → IsPickedAt precision mode negative amount parts result.index result.exact }
{
    let kept = cut_number(precision, number, digits(number), unit, loss);
    let below = index_of(precision, kept.significand, kept.place);
    let moves = moves_up(mode, negative, kept.loss, kept.significand % 2 == 1);
    Picked {
        index: moved_index(below, moves),
        exact: is_exact(kept.loss),
    }
}

/// The quotient of two positive values with the sign that `negative` says, rounded once with that sign, and the largest
/// number in place of what is past it.
fn divide_positive<S: Semantics, R: Semantics, F: StorageFormat>(
    x: IeeeFloat<S>,
    y: IeeeFloat<R>,
    mode: Round,
    negative: bool,
) -> StatusAnd<StoredFloat<F>>
    requires x { IsPositive (format_of S.Semantics) x }
    requires y { IsPositive (format_of R.Semantics) y }
    ensures { let c = constants_of F.StorageFormat in (amount parts : ℕ) → 0 < parts
        → IsRatioOf (format_of S.Semantics) (format_of R.Semantics) (format_with c) x y amount parts
        → Gives (IsSaturated c mode negative amount parts) result }
{
    let dividend = magnitude_of(x);
    let divisor = magnitude_of(y);
    let quotient = divide_u128(dividend.digits, divisor.digits, PLACES);
    let unit = quotient_unit(dividend.exponent, divisor.exponent, scale::<F>());
    deliver_pick(
        pick_with_loss(
            F::PRECISION as u32,
            quotient.whole,
            quotient.loss,
            unit,
            mode,
            negative,
        ),
        mode,
        negative,
    )
}

impl<F: StorageFormat> StoredFloat<F> {
    /// The quotient of a finite value and a positive one, of any formats, rounded once (IEEE 754-2019 5.4.1,
    /// formatOf-division), with the flags of that rounding. Past the largest number the result is that number, as in
    /// `from_value`. A zero keeps its sign.
    pub fn from_quotient<S: Semantics, R: Semantics>(
        x: IeeeFloat<S>,
        y: IeeeFloat<R>,
        round: Round,
    ) -> StatusAnd<Self>
        requires finite { is_finite x ≡ true }
        requires positive { IsPositive (format_of R.Semantics) y }
        ensures { let c = constants_of F.StorageFormat in (amount parts : ℕ) → 0 < parts
            → IsRatioOf (format_of S.Semantics) (format_of R.Semantics) (format_with c) x y amount
            parts → Gives (IsSaturated c round (is_negative x) amount parts) result }
    {
        let negative = x.is_negative();
        match x.category() {
            Category::Normal => divide_positive(x.abs(), y, round, negative),
            // It is a zero.
            _ => Status::OK.and(Self::with_sign(negative, 0)),
        }
    }
}
