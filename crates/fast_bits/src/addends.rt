//! What is added below the last kept digit of a number to round it.

ghost use Rattle.std.specs.Prelude.{◌≡◌, ◌-◌, ◌*◌, ◌^◌, ◌≤◌, if◌then◌else◌};
ghost use Rattle.fast_bits.specs.Words.{IsLongAddend};

use apfloat_model::Round;

/// What is added to the digits below the last kept one, so that it carries where the mode rounds up.
#[derive(Clone, Copy)]
pub struct LongAddend {
    /// In each case.
    pub always: u64,
    /// More where the last kept digit is odd.
    pub if_odd: u64,
}

/// What a directed mode adds, if it rounds away from zero or toward it.
#[inline(always)]
fn directed(half: u64, away: bool) -> LongAddend
    requires some { 1 ≤ half }
    requires most { half ≤ 2 ^ 55 }
    ensures always { result.always ≡ (if away then 2 * half - 1 else 0) }
    ensures if_odd { result.if_odd ≡ 0 }
{
    LongAddend {
        always: if away { 2 * half - 1 } else { 0 },
        if_odd: 0,
    }
}

/// What is added to numbers of this sign, with `low` digits below the last kept one.
#[inline(always)]
pub(crate) fn addend_of(low: u32, round: Round, negative: bool) -> LongAddend
    requires some { 1 ≤ low }
    requires most { low ≤ 56 }
    ensures { IsLongAddend low round negative result }
{
    let half = 1_u64 << (low - 1);
    match round {
        Round::NearestTiesToEven => LongAddend {
            always: half - 1,
            if_odd: 1,
        },
        Round::NearestTiesToAway => LongAddend {
            always: half,
            if_odd: 0,
        },
        Round::TowardZero => directed(half, false),
        Round::TowardPositive => directed(half, !negative),
        Round::TowardNegative => directed(half, negative),
    }
}
