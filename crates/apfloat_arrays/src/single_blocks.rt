//! Arrays of singles, converted in blocks by one of two plans: by both halves of their words, or, to formats of at
//! most eight bits, by the upper ones.

ghost use Rattle.std.specs.Prelude.{◌*◌, ◌%◌, ◌^◌, ◌≤◌, ◌<◌, ◌≡◌};
ghost use Rattle.rustc_apfloat.specs.FlaggedTypes.{constants_of, layout_of};
ghost use Rattle.apfloat_arrays.specs.Tasks.{AreConverted, AreSingles, HasConverted, HasSingles};

use crate::counts::Counts;
use crate::single_plans::BlockPlan;
use crate::single_targets::{is_short_target, saturates};
use crate::singles::{convert_block, convert_last};
use crate::specials::{BLOCK, LONG};
use crate::task::Task;
use crate::widths::bytes_of;
use fast_bits::lanes::{Plan, ShortPlan};
use rustc_apfloat::Round;
use rustc_apfloat::ieee::Flagged;

/// Converts the first values of an array, in blocks; without any block it does not clear the buffers first.
#[inline(always)]
fn convert_blocks<P: BlockPlan<N>, S: Flagged, T: Flagged, const N: usize>(
    plan: P,
    task: Task,
    width: usize,
    blocks: usize,
    output: &mut [u8],
) -> Counts
    requires plan { P.is_for plan task.overflow (constants_of T.Flagged) task.round }
    requires groups { N % 16 ≡ 0 }
    requires few { N < 2 ^ 16 }
    requires blocks { blocks * N ≤ task.count }
    requires given { AreSingles (constants_of S.Flagged) (constants_of T.Flagged) width task.count
        task.input.now output.old }
    ensures { AreConverted (constants_of S.Flagged) (constants_of T.Flagged) task.entry width
        (blocks * N) output.new result }
{
    let mut counts = Counts::NONE;
    if blocks == 0 {
        return counts;
    }
    let mut uppers = [0; N];
    let mut lowers = [0; N];
    for index in 0..blocks {
        let first = index * N;
        let last = first + N;
        let block = Task {
            input: &task.input[first * 4..last * 4],
            ..task
        };
        let target = &mut output[first * width..last * width];
        counts.add(convert_block::<P, S, T, N>(
            plan,
            block,
            width,
            &mut uppers,
            &mut lowers,
            target,
        ));
    }
    counts
}

/// Converts singles, each in its place, by a plan.
#[inline(always)]
fn convert_few<P: BlockPlan<BLOCK>, S: Flagged, T: Flagged>(
    plan: P,
    task: Task,
    output: &mut [u8],
) -> Counts
    requires plan { P.is_for plan task.overflow (constants_of T.Flagged) task.round }
    requires given { HasSingles (constants_of S.Flagged) (constants_of T.Flagged) task output.old }
    ensures { HasConverted (constants_of S.Flagged) (constants_of T.Flagged) task.entry output.new
        result }
{
    let count = task.count;
    if count < BLOCK {
        return convert_last::<S, T>(task, output);
    }
    let width = bytes_of(T::BITS);
    let blocks = count / BLOCK;
    let mut counts = convert_blocks::<P, S, T, BLOCK>(plan, task, width, blocks, output);
    let done = blocks * BLOCK;
    if done == count {
        return counts;
    }
    let rest = Task {
        count: count - done,
        input: &task.input[done * 4..count * 4],
        ..task
    };
    let target = &mut output[done * width..count * width];
    counts.add(convert_last::<S, T>(rest, target));
    counts
}

/// Converts singles, fewer than a long block has, each in its place. It makes the plan anew: one that is passed to it
/// would not be a constant for its callers either.
#[inline(never)]
fn convert_rest<P: BlockPlan<BLOCK>, S: Flagged, T: Flagged>(
    task: Task,
    output: &mut [u8],
) -> Counts
    requires can { P.can (layout_of T.Flagged) T.PRECISION T.MIN_EXP }
    requires given { HasSingles (constants_of S.Flagged) (constants_of T.Flagged) task output.old }
    ensures { HasConverted (constants_of S.Flagged) (constants_of T.Flagged) task.entry output.new
        result }
{
    let saturates = saturates(task.overflow);
    match (task.round, saturates) {
        (Round::NearestTiesToEven, false) => {
            convert_few::<P, S, T>(
                P::plan_to::<T>(false, Round::NearestTiesToEven),
                task,
                output,
            )
        }
        (Round::NearestTiesToEven, true) => {
            convert_few::<P, S, T>(
                P::plan_to::<T>(true, Round::NearestTiesToEven),
                task,
                output,
            )
        }
        _ => convert_few::<P, S, T>(P::plan_to::<T>(saturates, task.round), task, output),
    }
}

/// Converts singles, each in its place, by a plan: in long blocks as long as there are enough values.
#[inline(always)]
fn convert_many<P: BlockPlan<BLOCK> + BlockPlan<LONG>, S: Flagged, T: Flagged>(
    plan: P,
    task: Task,
    output: &mut [u8],
) -> Counts
    requires plan { P.is_for plan task.overflow (constants_of T.Flagged) task.round }
    requires can { P.can (layout_of T.Flagged) T.PRECISION T.MIN_EXP }
    requires given { HasSingles (constants_of S.Flagged) (constants_of T.Flagged) task output.old }
    ensures { HasConverted (constants_of S.Flagged) (constants_of T.Flagged) task.entry output.new
        result }
{
    let count = task.count;
    let width = bytes_of(T::BITS);
    let blocks = count / LONG;
    let mut counts = convert_blocks::<P, S, T, LONG>(plan, task, width, blocks, output);
    let done = blocks * LONG;
    let rest = Task {
        count: count - done,
        input: &task.input[done * 4..count * 4],
        ..task
    };
    let target = &mut output[done * width..count * width];
    counts.add(convert_rest::<P, S, T>(rest, target));
    counts
}

/// Converts singles, each in its place. The widths and the format are constants, so that the loops know how many bytes
/// they read and write, and where a significand is cut; and so is the usual mode, and with it whether conversions
/// saturate.
#[inline(never)]
fn convert_singles<P: BlockPlan<BLOCK> + BlockPlan<LONG>, S: Flagged, T: Flagged>(
    task: Task,
    output: &mut [u8],
) -> Counts
    requires can { P.can (layout_of T.Flagged) T.PRECISION T.MIN_EXP }
    requires given { HasSingles (constants_of S.Flagged) (constants_of T.Flagged) task output.old }
    ensures { HasConverted (constants_of S.Flagged) (constants_of T.Flagged) task.entry output.new
        result }
{
    if task.count < LONG {
        return convert_rest::<P, S, T>(task, output);
    }
    match (task.round, saturates(task.overflow)) {
        (Round::NearestTiesToEven, false) => {
            convert_many::<P, S, T>(
                P::plan_to::<T>(false, Round::NearestTiesToEven),
                task,
                output,
            )
        }
        (Round::NearestTiesToEven, true) => {
            convert_many::<P, S, T>(
                P::plan_to::<T>(true, Round::NearestTiesToEven),
                task,
                output,
            )
        }
        _ => convert_rest::<P, S, T>(task, output),
    }
}

/// Converts singles, each in its place.
#[inline(always)]
pub fn convert_all_singles<S: Flagged, T: Flagged>(task: Task, output: &mut [u8]) -> Counts
    requires { HasSingles (constants_of S.Flagged) (constants_of T.Flagged) task output.old }
    ensures { HasConverted (constants_of S.Flagged) (constants_of T.Flagged) task.entry output.new
        result }
{
    if is_short_target::<T>() {
        convert_singles::<ShortPlan, S, T>(task, output)
    } else {
        convert_singles::<Plan, S, T>(task, output)
    }
}
