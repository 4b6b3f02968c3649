//! Values of one byte, converted by a table of all 256.

ghost use Rattle.std.specs.Prelude.{◌≡◌, ◌≤◌, IsTrue};
ghost use Rattle.rustc_apfloat.specs.FlaggedTypes.{constants_of};
ghost use Rattle.apfloat_arrays.specs.{Tasks.IsDone, Tasks.IsGiven, Widths.bytes_of};

use crate::byte_tables::{PLACES, convert_by_table};
use crate::counts::Counts;
use crate::far_numbers::far_answers_for;
use crate::one_value::Between;
use crate::task::Task;
use crate::widths::{Widths, bytes_of};
use rustc_apfloat::ieee::Flagged;
use std::marker::PhantomData;

/// The least number of values for which the table is filled.
const LEAST_COUNT: usize = 2 * PLACES;

/// Whether a table of all bytes has the results, and there are enough values to fill it.
#[inline(always)]
pub fn has_byte_table<S: Flagged, T: Flagged>(widths: Widths, count: usize) -> bool
    ensures { IsTrue result → (widths.source ≡ 1) × (widths.target ≡ bytes_of T.BITS)
        × (T.BITS ≤ 128) }
{
    (S::BITS <= 8)
        & (T::BITS <= 128)
        & (widths.source == 1)
        & (widths.target == bytes_of(T::BITS))
        & (count >= LEAST_COUNT)
}

/// Converts values of one byte, each in its place.
#[inline(never)]
pub fn convert_bytes<S: Flagged, T: Flagged>(
    task: Task,
    widths: Widths,
    output: &mut [u8],
) -> Counts
    requires few { T.BITS ≤ 128 }
    requires source { widths.source ≡ 1 }
    requires target { widths.target ≡ bytes_of T.BITS }
    requires given { IsGiven (constants_of S.Flagged) (constants_of T.Flagged) task widths
        output.old }
    ensures { IsDone (constants_of S.Flagged) (constants_of T.Flagged) task.entry widths output.new
        result }
{
    let far = far_answers_for::<S, T>(task.overflow, task.round, PLACES);
    let between = Between::<S, T> {
        in_line: true,
        far: &far,
        overflow: task.overflow,
        round: task.round,
        formats: PhantomData,
    };
    convert_by_table(&between, bytes_of(T::BITS), task.count, task.input, output)
}
