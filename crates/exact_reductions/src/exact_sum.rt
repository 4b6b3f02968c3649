//! A sum in progress, which takes its terms one after another.

ghost use Rattle.std.specs.Prelude.{◌≡◌, ◌+◌, ◌*◌, ◌/◌, ◌^◌, ◌<◌, ◌≤◌, false, true, length};
ghost use Rattle.apfloat_model.specs.arithmetic.Products.{product, IsProduct};
ghost use Rattle.apfloat_model.specs.{declared.kinds.Round.TheVariants.TowardZero, order.Classes.is_finite};
ghost use Rattle.apfloat_model.specs.rounding.Flags.{Gives, bits_of};
ghost use Rattle.apfloat_ieee.specs.FlaggedTypes.{format_of};
ghost use Rattle.exact_reductions.specs.BlockDots.{IsTotalTo};
ghost use Rattle.exact_reductions.specs.Reductions.{IsSummable, IsTotal, first_of, joined, no_terms, number_tally};
ghost use Rattle.exact_reductions.specs.Reductions.{special_tally, tally, tally_of, value_term, magnitude_of};
ghost use Rattle.exact_reductions.specs.Reductions.{value_terms, magnitude_terms, product_terms};
ghost use Rattle.apfloat_decimals.specs.Words.{weight};
ghost use Rattle.apfloat_words.specs.Wides.{whole};

use crate::counted::{deliver_sides, in_quanta, scale_of};
use crate::sides::Sides;
use apfloat_arithmetic::products::product_sign;
use apfloat_base::{Category, Float, Round, Status, StatusAnd};
use apfloat_ieee::format_of::{add, subtract};
use apfloat_ieee::{Flagged, IeeeFloat};
use apfloat_words::{Wide, full_product, full_wide_product};
use std::marker::Model;

/// The exact sum of the terms so far: values, products of two values, or both. It has a fixed size, and its result does
/// not depend on the order of the terms, but for the payload of a NaN.
///
/// It has two arrays of `WORDS` words: `NARROW_WORDS` do for the built-in formats of at most 64 bits, `WIDE_WORDS` for
/// all.
#[derive(Drop)]
pub struct ExactSum<S: Flagged, const WORDS: usize> {
    sides: Sides<WORDS>,
    terms: u64,
    first_nan: Option<IeeeFloat<S>>,
    invalid: bool,
    positive_infinity: bool,
    negative_infinity: bool,
    positive: bool,
    negative: bool,
}

impl<S: Flagged, const WORDS: usize> Model for ExactSum<S, WORDS> {
    ghost use Rattle.std.specs.Prelude.{◌≡◌, ◌+◌, ◌*◌, ◌^◌, ◌<◌, ◌≤◌, ◌||◌, true};
    ghost use Rattle.apfloat_model.specs.declared.kinds.NonfiniteBehavior.TheVariants.{IEEE754};
    ghost use Rattle.exact_reductions.specs.Amounts.{difference};
    ghost use Rattle.exact_reductions.specs.Reductions.{Tally};
    ghost use Rattle.apfloat_decimals.specs.Words.{weight};

    ghost Value = { Tally };

    ghost view = { λ x. record {
      terms = x.terms;
      first_nan = x.first_nan;
      invalid = x.invalid;
      positive_infinity = x.positive_infinity;
      negative_infinity = x.negative_infinity;
      positive = x.positive;
      negative = x.negative;
      exact = difference x.sides;
    } };

    ghost invariant = { λ x. ((x.sides.plus + x.sides.minus) * 2 ^ 64 ≤ x.terms * weight WORDS)
        × ((x.positive_infinity || x.negative_infinity) ≡ true → S.NONFINITE_BEHAVIOR ≡ IEEE754)
        × (WORDS < 2 ^ 16) };
}

/// The first of two NaNs, if there are any.
fn first_of<S: Flagged>(
    earlier: Option<IeeeFloat<S>>,
    later: Option<IeeeFloat<S>>,
) -> Option<IeeeFloat<S>>
    ensures { result ≡ first_of earlier later }
{
    match earlier {
        Some(nan) => Some(nan),
        None => later,
    }
}

/// A product that is an infinity or a NaN, apart from the steps of each term.
#[cold]
fn special_product<S: Flagged>(x: IeeeFloat<S>, y: IeeeFloat<S>) -> StatusAnd<IeeeFloat<S>>
    ensures { Gives (IsProduct (format_of S.Flagged) TowardZero x y) result }
{
    x.wide_mul_r(y, Round::TowardZero)
}

impl<S: Flagged, const WORDS: usize> ExactSum<S, WORDS> {
    /// The sum of no terms.
    pub fn new() -> Self
        requires { WORDS < 2 ^ 16 }
        ensures { result ≡ no_terms }
    {
        ExactSum {
            sides: Sides::new(),
            terms: 0,
            first_nan: None,
            invalid: false,
            positive_infinity: false,
            negative_infinity: false,
            positive: false,
            negative: false,
        }
    }

    /// Adds a finite term of `value * 2^shift` units.
    #[inline]
    fn add_wide_number(&mut self, negative: bool, value: Wide, shift: u32)
        requires near { shift / 64 + 5 ≤ WORDS }
        requires low { shift < 2 ^ 22 }
        requires small { whole value * 2 ^ shift * 2 ^ 64 ≤ weight WORDS }
        requires room { self.old.terms + 1 < 2 ^ 64 }
        ensures { self.new ≡ joined self.old (number_tally negative (whole value * 2 ^ shift)) }
    {
        self.sides.add(negative, value.low, shift);
        self.sides.add(negative, value.high, shift + 128);
        self.terms += 1;
        self.positive |= !negative;
        self.negative |= negative;
    }

    /// Adds a finite term of `value * 2^shift` units.
    #[inline]
    fn add_number(&mut self, negative: bool, value: u128, shift: u32)
        requires near { shift / 64 + 3 ≤ WORDS }
        requires small { value * 2 ^ shift * 2 ^ 64 ≤ weight WORDS }
        requires room { self.old.terms + 1 < 2 ^ 64 }
        ensures { self.new ≡ joined self.old (number_tally negative (value * 2 ^ shift)) }
    {
        self.sides.add(negative, value, shift);
        self.terms += 1;
        self.positive |= !negative;
        self.negative |= negative;
    }

    /// Adds a term that is an infinity or a NaN, with the flags of the operation that made it.
    #[cold]
    fn add_special(&mut self, term: StatusAnd<IeeeFloat<S>>)
        requires special { is_finite term.value ≡ false }
        requires room { self.old.terms + 1 < 2 ^ 64 }
        ensures { self.new ≡ joined self.old (special_tally term.value (bits_of term.status)) }
    {
        self.terms += 1;
        let negative = term.value.is_negative();
        match term.value.category() {
            Category::Infinity => {
                self.positive_infinity |= !negative;
                self.negative_infinity |= negative;
            }
            _ => {
                self.invalid |= term.status != Status::OK;
                self.first_nan = first_of(self.first_nan, Some(term.value));
            }
        }
    }

    /// Adds a value.
    #[inline]
    pub fn add(&mut self, x: IeeeFloat<S>)
        requires format { IsSummable WORDS (format_of S.Flagged) }
        requires room { self.old.terms + 1 < 2 ^ 64 }
        ensures { self.new ≡ joined self.old (tally_of (value_term (format_of S.Flagged) x)) }
    {
        if x.is_finite() {
            let value = in_quanta(x);
            let shift = value.place + scale_of::<S>();
            self.add_number(x.is_negative(), value.significand, shift);
        } else {
            // A NaN becomes quiet, and a signaling one raises INVALID_OP; an infinity stays.
            self.add_special(x.round_to_integral(Round::TowardZero));
        }
    }

    /// Adds a product.
    #[inline]
    pub fn add_product(&mut self, x: IeeeFloat<S>, y: IeeeFloat<S>)
        requires format { IsSummable WORDS (format_of S.Flagged) }
        requires room { self.old.terms + 1 < 2 ^ 64 }
        ensures { self.new ≡ joined self.old (tally_of (product (format_of S.Flagged) x y)) }
    {
        let finite = x.is_finite() & y.is_finite();
        if finite {
            let left = in_quanta(x);
            let right = in_quanta(y);
            let negative = product_sign(x.is_negative(), y.is_negative());
            let place = left.place + right.place;
            if S::PRECISION <= 64 {
                let product = full_product(left.significand, right.significand);
                self.add_number(negative, product, place);
            } else {
                let product = full_wide_product(left.significand, right.significand);
                self.add_wide_number(negative, product, place);
            }
        } else {
            self.add_special(special_product(x, y));
        }
    }

    /// Adds the terms of another sum, as if they came after its own.
    pub fn join(&mut self, later: Self)
        requires { self.old.terms + later.terms < 2 ^ 64 }
        ensures { self.new ≡ joined self.old later }
    {
        let ExactSum {
            sides,
            terms,
            first_nan,
            invalid,
            positive_infinity,
            negative_infinity,
            positive,
            negative,
        } = later;
        self.sides.join(sides);
        self.terms += terms;
        self.first_nan = first_of(self.first_nan, first_nan);
        self.invalid |= invalid;
        self.positive_infinity |= positive_infinity;
        self.negative_infinity |= negative_infinity;
        self.positive |= positive;
        self.negative |= negative;
    }

    /// The sum, rounded once, with the flags of that rounding.
    ///
    /// The first term that is a NaN is the result, quieted, also where there is an infinity; the product of an
    /// infinity and a zero is such a term, without a payload. `INVALID_OP` is raised if a NaN was signaling or a
    /// product invalid. Otherwise infinities of both signs give the quiet NaN without a payload, with `INVALID_OP`,
    /// and those of one sign are the result. An exact zero is +0, or -0 toward negative, but a sum of zeros of one
    /// sign keeps it; without terms it is +0.
    pub fn rounded(self, round: Round) -> StatusAnd<IeeeFloat<S>>
        requires { IsSummable WORDS (format_of S.Flagged) }
        ensures { Gives (IsTotal (format_of S.Flagged) round self) result }
    {
        if let Some(nan) = self.first_nan {
            let status = if self.invalid {
                Status::INVALID_OP
            } else {
                Status::OK
            };
            return status.and(nan);
        }
        match (self.positive_infinity, self.negative_infinity) {
            (true, true) => Status::INVALID_OP.and(IeeeFloat::nan()),
            (true, false) => Status::OK.and(IeeeFloat::infinity()),
            (false, true) => Status::OK.and(-IeeeFloat::<S>::infinity()),
            (false, false) => {
                deliver_sides::<S, S, WORDS>(self.sides, self.positive, self.negative, round)
            }
        }
    }

    /// The sum in the format `T`, rounded once. A NaN is the quiet one without a payload; an infinity raises INEXACT
    /// in a target without infinities.
    pub(crate) fn rounded_to<T: Flagged>(self, round: Round) -> StatusAnd<IeeeFloat<T>>
        requires { IsSummable WORDS (format_of S.Flagged) }
        ensures { Gives (IsTotalTo (format_of S.Flagged) (format_of T.Flagged) round self) result }
    {
        if self.first_nan.is_some() {
            let status = if self.invalid {
                Status::INVALID_OP
            } else {
                Status::OK
            };
            return status.and(IeeeFloat::nan());
        }
        let infinity = IeeeFloat::<S>::infinity();
        match (self.positive_infinity, self.negative_infinity) {
            (true, true) => subtract::<T, S, S>(infinity, infinity, round),
            (true, false) => add::<T, S, S>(infinity, infinity, round),
            (false, true) => add::<T, S, S>(-infinity, -infinity, round),
            (false, false) => {
                deliver_sides::<S, T, WORDS>(self.sides, self.positive, self.negative, round)
            }
        }
    }

    /// Adds values.
    pub fn add_values(&mut self, x: &[IeeeFloat<S>])
        requires format { IsSummable WORDS (format_of S.Flagged) }
        requires room { self.old.terms + length x.now < 2 ^ 64 }
        ensures { self.new ≡ joined self.old (tally (value_terms (format_of S.Flagged) x.now)) }
    {
        for i in 0..x.len() {
            self.add(x[i]);
        }
    }

    /// Adds the magnitudes of values: their `abs`.
    pub fn add_magnitudes(&mut self, x: &[IeeeFloat<S>])
        requires format { IsSummable WORDS (format_of S.Flagged) }
        requires room { self.old.terms + length x.now < 2 ^ 64 }
        ensures { self.new ≡ joined self.old (tally (magnitude_terms (format_of S.Flagged) x.now)) }
    {
        for i in 0..x.len() {
            self.add(x[i].abs());
        }
    }

    /// Adds the products of the values at the same places of two slices of one length.
    pub fn add_products(&mut self, x: &[IeeeFloat<S>], y: &[IeeeFloat<S>])
        requires format { IsSummable WORDS (format_of S.Flagged) }
        requires lengths { length y.now ≡ length x.now }
        requires room { self.old.terms + length x.now < 2 ^ 64 }
        ensures { self.new ≡ joined self.old
            (tally (product_terms (format_of S.Flagged) x.now y.now)) }
    {
        for i in 0..x.len() {
            self.add_product(x[i], y[i]);
        }
    }
}
