//! Significands of at most 24 digits, rounded in words: one is moved so that its last kept digit has a place of its
//! own, and one sum below that digit rounds it.

ghost use Rattle.std.specs.Prelude.{◌≡◌, ◌+◌, ◌-◌, ◌*◌, ◌/◌, ◌%◌, ◌^◌, ◌<◌, ◌≤◌, min, true, false, eqb};
ghost use Rattle.std.specs.Int.RustNames.{bit_and};
ghost use Rattle.apfloat_model.specs.rounding.Rounding.{leads_out};
ghost use Rattle.fast_bits.specs.{Addends.rounded_by, Words.IsWordSide};

use crate::addends::{LongAddend, addend_of};
use apfloat_model::Round;
use apfloat_rounding::rounding::leads_past;

/// How many places a significand is moved up, less one for each that the number is below the least normal one.
const ROOM: u32 = 32;

/// What a mode does with numbers of one sign.
#[derive(Clone, Copy)]
pub struct WordSide {
    /// What is added to round them.
    pub addend: LongAddend,
    /// Whether the mode leads past the largest number.
    pub leads_out: bool,
}

/// What is done with each number of either sign that has `low` binary digits below its last kept one.
#[derive(Clone, Copy)]
pub struct WordPlan {
    /// How many digits those are.
    pub low: u32,
    /// The rounding mode.
    pub round: Round,
    /// What it does with positive numbers.
    pub positive: WordSide,
    /// What it does with negative numbers.
    pub negative: WordSide,
    ghost some: { 32 ≤ low },
    ghost most: { low ≤ 56 },
    ghost positive_is: { IsWordSide low round false positive },
    ghost negative_is: { IsWordSide low round true negative },
}

/// A rounded significand.
#[derive(Clone, Copy)]
pub struct RoundedWord {
    /// What is kept of it, in units of its last kept digit.
    pub kept: u32,
    /// Whether there are no digits below that one.
    pub exact: bool,
    /// Whether the mode leads past the largest number.
    pub leads_out: bool,
}

/// What the mode does with numbers of this sign.
#[inline(always)]
fn side_of(low: u32, round: Round, negative: bool) -> WordSide
    requires some { 1 ≤ low }
    requires most { low ≤ 56 }
    ensures { IsWordSide low round negative result }
{
    WordSide {
        addend: addend_of(low, round, negative),
        leads_out: leads_past(round, negative),
    }
}

/// What the mode does with numbers of both signs.
#[inline(always)]
pub fn word_plan(low: u32, round: Round) -> WordPlan
    requires some { 32 ≤ low }
    requires most { low ≤ 56 }
    ensures low { result.low ≡ low }
    ensures round { result.round ≡ round }
{
    WordPlan {
        low,
        round,
        positive: side_of(low, round, false),
        negative: side_of(low, round, true),
    }
}

/// The same by a plan.
#[inline(always)]
fn side_in(plan: WordPlan, negative: bool) -> WordSide
    ensures { IsWordSide plan.low plan.round negative result }
{
    if negative {
        plan.negative
    } else {
        plan.positive
    }
}

/// The digits of a number at a place, the last kept one at a place of its own, if from `first` on all are kept.
#[inline(always)]
fn digits_at(significand: u32, place: u32, first: u32) -> u64
    requires { significand < 2 ^ 24 }
    ensures is { result ≡ significand * 2 ^ (32 - min (first - place) 32) }
    ensures below { result < 2 ^ 56 }
{
    u64::from(significand) << (ROOM - first.saturating_sub(place).min(ROOM))
}

/// What is kept, moved up where the mode rounds up.
#[inline(always)]
fn kept_of(low: u32, addend: LongAddend, digits: u64) -> u32
    requires some { 32 ≤ low }
    requires most { low ≤ 56 }
    requires digits { digits < 2 ^ 56 }
    requires always { addend.always < 2 ^ low }
    requires one { addend.if_odd ≤ 1 }
    ensures is { result
        ≡ (digits + (addend.always + bit_and (digits / 2 ^ low) addend.if_odd)) / 2 ^ low }
    ensures below { result ≤ 2 ^ 25 }
{
    let one = (digits >> low) & addend.if_odd;
    ((digits + (addend.always + one)) >> low) as u32
}

/// Whether there are no digits below the last kept one.
#[inline(always)]
fn is_exact(low: u32, digits: u64) -> bool
    requires { low ≤ 56 }
    ensures { result ≡ eqb (digits % 2 ^ low) 0 }
{
    digits % (1_u64 << low) == 0
}

/// The significand of a number at a place, rounded once. From the place `first` on, all its digits are kept but
/// `low - 32`; below it, one fewer for each place. The caller knows `low`, that of the plan, when it is compiled.
#[inline(always)]
pub fn round_word(
    plan: WordPlan,
    low: u32,
    negative: bool,
    significand: u32,
    place: u32,
    first: u32,
) -> RoundedWord
    requires same { low ≡ plan.low }
    requires fits { significand < 2 ^ 24 }
    ensures kept { let digits = significand * 2 ^ (32 - min (first - place) 32) in
        result.kept ≡ rounded_by plan.low plan.round negative digits }
    ensures below { result.kept ≤ 2 ^ 25 }
    ensures exact { let digits = significand * 2 ^ (32 - min (first - place) 32) in
        result.exact ≡ eqb (digits % 2 ^ plan.low) 0 }
    ensures out { result.leads_out ≡ leads_out plan.round negative }
{
    let side = side_in(plan, negative);
    let digits = digits_at(significand, place, first);
    RoundedWord {
        kept: kept_of(low, side.addend, digits),
        exact: is_exact(low, digits),
        leads_out: side.leads_out,
    }
}
