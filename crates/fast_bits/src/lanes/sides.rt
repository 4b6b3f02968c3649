//! The constants by which numbers of one sign are rounded and delivered.

ghost use Rattle.std.specs.Prelude.{◌≡◌, ℕ, ◌+◌, ◌-◌, ◌*◌, ◌^◌, ◌<◌, ◌≤◌, ◌↔◌};
ghost use Rattle.std.specs.Prelude.{Bool, true, false, if◌then◌else◌, IsTrue};
ghost use Rattle.apfloat_model.specs.declared.kinds.Round.{Round as Mode};
ghost use Rattle.fast_bits.specs.{Addends.IsAddendOf, lanes.At.format_at};
ghost use Rattle.fast_bits.specs.lanes.{At.layout_at, Sides.IsSideOf, Sides.LeadsPast, Targets.IsShortFormat};

use crate::addends::addend_of;
use crate::lanes::constants::{Addend, Side, Target};
use crate::lanes::plans::{Plan, ShortPlan};
use crate::lanes::targets::largest_code;
use apfloat_model::Round;
use apfloat_rounding::rounding::leads_past;

/// What is added to numbers of this sign, with `low` digits below the last kept one.
#[inline(always)]
fn short_addend(low: u32, round: Round, negative: bool) -> Addend
    requires some { 1 ≤ low }
    requires most { low ≤ 16 }
    ensures rounds { IsAddendOf low round negative result.always result.if_odd }
    ensures below { low ≤ 15 → result.always < 2 ^ 15 }
{
    let addend = addend_of(low, round, negative);
    Addend {
        always: addend.always as u32,
        if_odd: addend.if_odd as u32,
    }
}

/// What the mode does with numbers of this sign, with `low` digits below the last kept one.
#[inline(always)]
fn side_of(low: u32, target: Target, saturates: bool, round: Round, negative: bool) -> Side
    requires some { 1 ≤ low }
    requires most { low ≤ 16 }
    ensures side { IsSideOf low saturates (format_at target) round negative result }
    ensures below { low ≤ 15 → result.addend.always < 2 ^ 15 }
{
    let past = leads_past(round, negative);
    let largest = largest_code(target);
    Side {
        addend: short_addend(low, round, negative),
        greatest: if past & !saturates {
            largest + 1
        } else {
            largest
        },
        raises: target.ieee_flags | past,
    }
}

/// What is done with each number. If a conversion saturates, the largest value stands for what is past it.
#[inline(always)]
pub fn plan_of(target: Target, saturates: bool, round: Round) -> Plan
    ensures target { result.target ≡ target }
    ensures saturates { result.saturates ≡ saturates }
    ensures round { result.round ≡ round }
{
    Plan {
        target,
        saturates,
        round,
        positive: side_of(16, target, saturates, round, false),
        negative: side_of(16, target, saturates, round, true),
    }
}

/// What is done with each upper half of a single, where the target is a short format: one of at most eight bits and six
/// digits, with a least normal number far above denormal singles, so that sixteen bits of a single are enough.
#[inline(always)]
pub fn short_format_plan(target: Target, saturates: bool, round: Round) -> ShortPlan
    requires short { IsShortFormat (layout_at target) target.precision target.min_exp }
    ensures target { result.target ≡ target }
    ensures saturates { result.saturates ≡ saturates }
    ensures round { result.round ≡ round }
{
    let low = 15 - target.precision;
    ShortPlan {
        target,
        saturates,
        round,
        positive: side_of(low, target, saturates, round, false),
        negative: side_of(low, target, saturates, round, true),
    }
}

/// Whether numbers of either sign past the largest value become what is past it.
#[inline(always)]
pub fn delivers_past(target: Target, positive: Side, negative: Side) -> bool
    ensures { (low : ℕ) (saturates : Bool) (mode : Mode)
        → IsSideOf low saturates (format_at target) mode false positive
        → IsSideOf low saturates (format_at target) mode true negative
        → IsTrue result ↔ LeadsPast saturates mode }
{
    (positive.greatest > largest_code(target)) & (negative.greatest > largest_code(target))
}
