//! Singles converted a block at a time. The loops below have no jump that depends on a value, and compute everything in
//! words of sixteen bits, so that a compiler can work on several values at once.

ghost use Rattle.std.specs.Prelude.{◌≡◌, ℕ, ⊤, ◌+◌, ◌*◌, ◌/◌, ◌%◌, ◌^◌, ◌≤◌};
ghost use Rattle.std.specs.Prelude.{◌<◌, List, length, replicate, false, IsTrue};
ghost use Rattle.std.proofs.Common.{ap};
ghost use Rattle.apfloat_model.specs.bits.Layout.{Layout};
ghost use Rattle.fast_bits.specs.lanes.{FewCounts.FewAreAtMost, Sides.LeadsPast};
ghost use Rattle.fast_bits.specs.lanes.Targets.{IsSingleFormat, IsTarget};
ghost use Rattle.rustc_apfloat.specs.declared.Round.{Round as Mode};
ghost use Rattle.rustc_apfloat.specs.Lawful.{Constants, format_with, layout_with};
ghost use Rattle.rustc_apfloat.specs.FlaggedTypes.{constants_of, format_of, layout_of};
ghost use Rattle.small_formats.specs.declared.saturation.saturation.Overflow.{Overflow};
ghost use Rattle.apfloat_arrays.specs.{Blocks.value_at, Outcomes.with_outcome, Rows.AreFiniteHalves, Rows.AreTaken};
ghost use Rattle.apfloat_arrays.specs.{Rows.IsRow, Rows.number_from, Singles.AreHalves, Singles.IsPlanFor};
ghost use Rattle.apfloat_arrays.specs.{Singles.counts_with, Singles.outcome_of, Tasks.AreConverted, Tasks.AreSingles};
ghost use Rattle.apfloat_arrays.specs.{Tasks.HasConverted, Tasks.HasSingles, Values.IsConvertedBy, Widths.bytes_of};

use crate::bytes::write_number;
use crate::counts::Counts;
use crate::one_by_one::convert_one_by_one;
use crate::single_plans::{BlockPlan, SinglesPlan};
use crate::single_targets::{is_single, is_target, saturates, target_of};
use crate::specials::{BLOCK, are_finite, convert_specials, lower_in, number_in, word_of};
use crate::task::Task;
use crate::widths::{Widths, bytes_of};
use fast_bits::lanes::{FewCounts, Lane, Plan, convert_single, delivers_past, plan_of, with_lane};
use rustc_apfloat::Round;
use rustc_apfloat::ieee::Flagged;

/// From how many values on it takes less time to convert a whole block than each of them.
const FEWEST: usize = 20;

/// Zeros in place of infinities and NaNs.
#[inline(never)]
fn clear_specials<const N: usize>(uppers: &mut [u16; N], lowers: &mut [u16; N])
    ensures finite { AreFiniteHalves N uppers.new }
    ensures kept { (input : List ℕ)
        → AreTaken AreHalves N uppers.old lowers.old (λ index. value_at 4 index input)
        → AreTaken AreHalves N uppers.new lowers.new (number_from 0 input) }
{
    for index in 0..N {
        lowers[index] = lower_in(uppers[index], lowers[index]);
        uppers[index] = number_in(uppers[index]);
    }
}

/// The counts after one more value.
#[inline(always)]
pub(crate) fn counted(few: FewCounts, lane: Lane) -> FewCounts
    requires { FewAreAtMost 65534 few }
    ensures counts { (values : ℕ) → counts_with result (values + 1)
        ≡ with_outcome (counts_with few values) (outcome_of lane) }
    ensures most { (most : ℕ) → FewAreAtMost most few → FewAreAtMost (most + 1) result }
{
    with_lane(few, lane)
}

/// All counts of a block.
#[inline(always)]
pub(crate) fn all_counts(few: FewCounts, values: usize) -> Counts
    ensures { result ≡ counts_with few values }
{
    Counts {
        values: values as u64,
        inexact: u64::from(few.inexact),
        underflow: u64::from(few.underflow),
        overflow: u64::from(few.overflow),
        invalid: u64::from(few.invalid),
        nans: u64::from(few.nans),
    }
}

/// Converts the values of a block, each to its place. With `specials`, infinities and NaNs may be among them.
#[inline(always)]
pub(crate) fn convert_halves<P: SinglesPlan, const N: usize>(
    plan: P,
    specials: bool,
    width: usize,
    uppers: &[u16; N],
    lowers: &[u16; N],
    output: &mut [u8],
) -> FewCounts
    requires width { P.bits plan ≤ 8 * width }
    requires finite { specials ≡ false → AreFiniteHalves N uppers.now }
    requires past { IsTrue specials → P.leads plan }
    requires few { N < 2 ^ 16 }
    requires output { length output.old ≡ N * width }
    ensures { (overflow : Overflow) (c d : Constants) (mode : Mode) (given : ℕ → List ℕ)
        → IsSingleFormat (format_with c) (layout_with c) → P.is_for plan overflow d mode
        → AreTaken P.takes N uppers.now lowers.now given
        → IsRow (IsConvertedBy overflow c d mode) given width N output.new (counts_with result N) }
{
    let mut few = FewCounts {
        inexact: 0,
        underflow: 0,
        overflow: 0,
        invalid: 0,
        nans: 0,
    };
    for index in 0..N {
        let from = index * width;
        let target = &mut output[from..from + width];
        let lane = plan.convert(specials, uppers[index], lowers[index]);
        write_number(u128::from(lane.bits), target);
        few = counted(few, lane);
    }
    few
}

/// Converts the values of a block, where infinities and NaNs take the same steps as numbers.
#[inline(always)]
fn convert_alike<P: SinglesPlan, const N: usize>(
    plan: P,
    width: usize,
    uppers: &[u16; N],
    lowers: &[u16; N],
    output: &mut [u8],
) -> Counts
    requires width { P.bits plan ≤ 8 * width }
    requires past { P.leads plan }
    requires few { N < 2 ^ 16 }
    requires output { length output.old ≡ N * width }
    ensures { (overflow : Overflow) (c d : Constants) (mode : Mode) (given : ℕ → List ℕ)
        → IsSingleFormat (format_with c) (layout_with c) → P.is_for plan overflow d mode
        → AreTaken P.takes N uppers.now lowers.now given
        → IsRow (IsConvertedBy overflow c d mode) given width N output.new result }
{
    if are_finite(uppers) {
        let few = convert_halves(plan, false, width, uppers, lowers, output);
        all_counts(few, N)
    } else {
        let few = convert_halves(plan, true, width, uppers, lowers, output);
        all_counts(few, N)
    }
}

/// Converts the values of a block. The halves of their words that the plan takes are written to `uppers` and `lowers`.
#[inline(always)]
pub(crate) fn convert_block<P: BlockPlan<N>, S: Flagged, T: Flagged, const N: usize>(
    plan: P,
    task: Task,
    width: usize,
    uppers: &mut [u16; N],
    lowers: &mut [u16; N],
    output: &mut [u8],
) -> Counts
    requires plan { P.is_for plan task.overflow (constants_of T.Flagged) task.round }
    requires groups { N % 16 ≡ 0 }
    requires few { N < 2 ^ 16 }
    requires given { AreSingles (constants_of S.Flagged) (constants_of T.Flagged) width N
        task.input.now output.old }
    ensures { AreConverted (constants_of S.Flagged) (constants_of T.Flagged) task.entry width N
        output.new result }
{
    P::read_halves(task.input, uppers, lowers);
    if plan.leads_past() {
        return convert_alike(plan, width, uppers, lowers, output);
    }
    let finite = P::leave_numbers(uppers, lowers);
    let few = convert_halves(plan, false, width, uppers, lowers, output);
    let counts = all_counts(few, N);
    if finite {
        counts
    } else {
        convert_specials::<S, T, N>(task, width, counts, output)
    }
}

impl SinglesPlan for Plan {
    ghost can = { λ layout precision least. ⊤ };

    ghost is_for = { λ plan overflow d mode.
        IsPlanFor overflow d mode plan.target plan.saturates plan.round };

    ghost bits = { λ plan. plan.target.bits };

    ghost leads = { λ plan. LeadsPast plan.saturates plan.round };

    ghost takes = { AreHalves };

    #[inline(always)]
    fn plan_to<T: Flagged>(saturating: bool, round: Round) -> Plan {
        plan_of(target_of::<T>(), saturating, round)
    }

    #[inline(always)]
    fn leads_past(self) -> bool {
        delivers_past(self.target, self.positive, self.negative)
    }

    #[inline(always)]
    fn convert(self, specials: bool, upper: u16, lower: u16) -> Lane {
        convert_single(self, specials, upper, lower)
    }

    ghost fits = { λ plan overflow d mode it. ap (λ (l : Layout). l.bits) it.layout };
}

impl<const N: usize> BlockPlan<N> for Plan {
    #[inline(always)]
    fn read_halves(bytes: &[u8], uppers: &mut [u16; N], lowers: &mut [u16; N]) {
        for index in 0..N {
            let from = index * 4;
            let word = word_of(&bytes[from..from + 4]);
            uppers[index] = (word / 0x1_0000) as u16;
            lowers[index] = (word % 0x1_0000) as u16;
        }
    }

    #[inline(always)]
    fn leave_numbers(uppers: &mut [u16; N], lowers: &mut [u16; N]) -> bool {
        if are_finite(uppers) {
            true
        } else {
            clear_specials(uppers, lowers);
            false
        }
    }
}

/// Converts a few values, padded in `singles` to a block by zeros, which raise no flag and are not NaNs. Their results
/// are made in `room` and copied to `output`.
#[inline(always)]
fn convert_between<S: Flagged, T: Flagged>(
    task: Task,
    singles: &mut [u8],
    room: &mut [u8],
    output: &mut [u8],
) -> Counts
    requires few { task.count ≤ 64 }
    requires zeros { singles.old ≡ replicate 256 0 }
    requires room { length room.old ≡ 128 }
    requires given { HasSingles (constants_of S.Flagged) (constants_of T.Flagged) task output.old }
    ensures { HasConverted (constants_of S.Flagged) (constants_of T.Flagged) task.entry output.new
        result }
{
    let count = task.count;
    let width = bytes_of(T::BITS);
    let plan = plan_of(target_of::<T>(), saturates(task.overflow), task.round);
    singles[..count * 4].copy_from_slice(task.input);
    let padded = Task {
        input: singles,
        ..task
    };
    let made = &mut room[..BLOCK * width];
    let counts = convert_block::<Plan, S, T, BLOCK>(
        plan,
        padded,
        width,
        &mut [0; BLOCK],
        &mut [0; BLOCK],
        made,
    );
    output.copy_from_slice(&made[..count * width]);
    Counts {
        values: count as u64,
        ..counts
    }
}

/// Converts a few values as a block.
#[inline(always)]
fn convert_padded<S: Flagged, T: Flagged>(task: Task, output: &mut [u8]) -> Counts
    requires few { task.count ≤ 64 }
    requires given { HasSingles (constants_of S.Flagged) (constants_of T.Flagged) task output.old }
    ensures { HasConverted (constants_of S.Flagged) (constants_of T.Flagged) task.entry output.new
        result }
{
    let mut singles = [0; BLOCK * 4];
    let mut room = [0; BLOCK * 2];
    convert_between::<S, T>(task, &mut singles, &mut room, output)
}

/// Converts the last values of an array, fewer than a block has.
#[inline(never)]
pub(crate) fn convert_last<S: Flagged, T: Flagged>(task: Task, output: &mut [u8]) -> Counts
    requires few { task.count < 64 }
    requires given { HasSingles (constants_of S.Flagged) (constants_of T.Flagged) task output.old }
    ensures { HasConverted (constants_of S.Flagged) (constants_of T.Flagged) task.entry output.new
        result }
{
    if task.count < FEWEST {
        let widths = Widths {
            source: 4,
            target: bytes_of(T::BITS),
        };
        convert_one_by_one::<S, T>(
            task.overflow,
            task.round,
            widths,
            task.count,
            task.input,
            output,
        )
    } else {
        convert_padded::<S, T>(task, output)
    }
}

/// Whether values of these widths are singles, and converted so to `T`, in the usual number of bytes.
#[inline(always)]
pub fn has_singles<S: Flagged, T: Flagged>(widths: Widths) -> bool
    requires written { T.PRECISION < T.BITS }
    ensures single { IsTrue result → IsSingleFormat (format_of S.Flagged) (layout_of S.Flagged) }
    ensures target { IsTrue result
        → IsTarget (format_of T.Flagged) (layout_of T.Flagged) T.MIN_EXP T.MAX_EXP }
    ensures source_width { IsTrue result → widths.source ≡ 4 }
    ensures target_width { IsTrue result → widths.target ≡ bytes_of T.BITS }
{
    is_single::<S>()
        & is_target::<T>()
        & (widths.source == 4)
        & (widths.target == bytes_of(T::BITS))
}
