//! Singles converted to formats of at most eight bits, a block at a time, by their upper sixteen bits. The loops are
//! those in `singles`, which also converts the last values.

ghost use Rattle.std.specs.Prelude.{◌≡◌, ℕ, ◌<◌, slice_index};
ghost use Rattle.std.proofs.Common.{ap};
ghost use Rattle.apfloat_model.specs.bits.Layout.{Layout};
ghost use Rattle.fast_bits.specs.lanes.{Sides.LeadsPast, Targets.IsShortFormat};
ghost use Rattle.apfloat_arrays.specs.{Rows.AreFiniteHalves, Rows.number_in, Singles.IsPlanFor, Singles.IsShortHalf};

use crate::single_plans::{BlockPlan, SinglesPlan};
use crate::single_targets::target_of;
use crate::specials::{are_finite, number_in, word_of};
use fast_bits::lanes::{
    Lane, ShortPlan, convert_half, delivers_past, short_format_plan, upper_half,
};
use rustc_apfloat::Round;
use rustc_apfloat::ieee::Flagged;

/// Zeros in place of infinities and NaNs.
#[inline(never)]
fn clear_specials<const N: usize>(halves: &mut [u16; N])
    ensures finite { AreFiniteHalves N halves.new }
    ensures kept { (index : ℕ) → index < N
        → slice_index halves.new index ≡ number_in (slice_index halves.old index) }
{
    for index in 0..N {
        halves[index] = number_in(halves[index]);
    }
}

impl SinglesPlan for ShortPlan {
    ghost can = { λ layout precision least. IsShortFormat layout precision least };

    ghost is_for = { λ plan overflow d mode. IsPlanFor overflow d mode plan.target plan.saturates plan.round };

    ghost bits = { λ plan. plan.target.bits };

    ghost leads = { λ plan. LeadsPast plan.saturates plan.round };

    ghost takes = { IsShortHalf };

    #[inline(always)]
    fn plan_to<T: Flagged>(saturating: bool, round: Round) -> ShortPlan {
        short_format_plan(target_of::<T>(), saturating, round)
    }

    #[inline(always)]
    fn leads_past(self) -> bool {
        delivers_past(self.target, self.positive, self.negative)
    }

    #[inline(always)]
    fn convert(self, specials: bool, upper: u16, _lower: u16) -> Lane {
        convert_half(self, specials, upper)
    }

    ghost fits = { λ plan overflow d mode it. ap (λ (l : Layout). l.bits) it.layout };
}

impl<const N: usize> BlockPlan<N> for ShortPlan {
    #[inline(always)]
    fn read_halves(bytes: &[u8], uppers: &mut [u16; N], _lowers: &mut [u16; N]) {
        for index in 0..N {
            let from = index * 4;
            uppers[index] = upper_half(word_of(&bytes[from..from + 4]));
        }
    }

    #[inline(always)]
    fn leave_numbers(uppers: &mut [u16; N], _lowers: &mut [u16; N]) -> bool {
        if are_finite(uppers) {
            true
        } else {
            clear_specials(uppers);
            false
        }
    }
}
