//! Values in consecutive bytes, converted one after another.

ghost use Rattle.rustc_apfloat.specs.FlaggedTypes.{constants_of};
ghost use Rattle.apfloat_arrays.specs.{Blocks.IsBlock, Tasks.HasBytes, Tasks.IsDone, Tasks.IsGiven};
ghost use Rattle.apfloat_arrays.specs.Values.{IsConvertedBy};

use crate::counts::Counts;
use crate::each::convert_each;
use crate::far_numbers::far_answers_for;
use crate::one_value::Between;
use crate::task::Task;
use crate::widths::{Widths, bytes_of};
use rustc_apfloat::Round;
use rustc_apfloat::ieee::Flagged;
use small_formats::saturation::Overflow;
use std::marker::PhantomData;

/// Converts `count` values, each in its place. The widths that most values have are constants of their formats, so that
/// the loop knows how many bytes it reads and writes. It takes no `Task`: read from one in memory, the arguments add 5
/// to 7 percent to the instructions of a value.
#[inline(never)]
pub fn convert_one_by_one<S: Flagged, T: Flagged>(
    overflow: Overflow,
    round: Round,
    widths: Widths,
    count: usize,
    input: &[u8],
    output: &mut [u8],
) -> Counts
    requires { HasBytes (constants_of S.Flagged) (constants_of T.Flagged) widths count input.now
        output.old }
    ensures { IsBlock
        (IsConvertedBy overflow (constants_of S.Flagged) (constants_of T.Flagged) round)
        widths.source widths.target count input.now output.new result }
{
    let task = Task {
        overflow,
        round,
        count,
        input,
    };
    let usual = Widths {
        source: bytes_of(S::BITS),
        target: bytes_of(T::BITS),
    };
    if widths.source == usual.source && widths.target == usual.target {
        convert_with::<S, T>(true, task, usual, output)
    } else {
        convert_apart::<S, T>(task, widths, output)
    }
}

/// The same for other widths, such as those of padded values: a small loop, since most programs have none.
#[inline(never)]
fn convert_apart<S: Flagged, T: Flagged>(task: Task, widths: Widths, output: &mut [u8]) -> Counts
    requires { IsGiven (constants_of S.Flagged) (constants_of T.Flagged) task widths output.old }
    ensures { IsDone (constants_of S.Flagged) (constants_of T.Flagged) task.entry widths output.new
        result }
{
    convert_with::<S, T>(false, task, widths, output)
}

/// Converts each value, with the code for it in the loop or in a function of its own.
#[inline(always)]
fn convert_with<S: Flagged, T: Flagged>(
    in_line: bool,
    task: Task,
    widths: Widths,
    output: &mut [u8],
) -> Counts
    requires { IsGiven (constants_of S.Flagged) (constants_of T.Flagged) task widths output.old }
    ensures { IsDone (constants_of S.Flagged) (constants_of T.Flagged) task.entry widths output.new
        result }
{
    let far = far_answers_for::<S, T>(task.overflow, task.round, task.count);
    let between = Between::<S, T> {
        in_line,
        far: &far,
        overflow: task.overflow,
        round: task.round,
        formats: PhantomData,
    };
    convert_each(&between, widths, task.count, task.input, output)
}
