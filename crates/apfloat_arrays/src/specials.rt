//! Infinities and NaNs in blocks of singles that are converted all at once: until they are converted one by one, zeros
//! take their places, since these raise no flag and are not counted as NaNs.

ghost use Rattle.std.specs.Prelude.{◌≡◌, ℕ, ◌+◌, ◌*◌, ◌%◌, ◌^◌, ◌<◌, ◌≤◌, length, slice_index, IsTrue};
ghost use Rattle.rustc_apfloat.specs.FlaggedTypes.{constants_of};
ghost use Rattle.apfloat_arrays.specs.{Blocks.value_at, Bytes.number_of, Rows.AreFiniteHalves, Rows.lower_in};
ghost use Rattle.apfloat_arrays.specs.{Rows.number_in, Tasks.AreConverted, Tasks.AreNumbersOf, Tasks.AreSingles};

use crate::bytes::number_of;
use crate::counts::Counts;
use crate::one_value::convert_slowly;
use crate::task::Task;
use fast_bits::lanes::{is_finite, is_finite_half};
use rustc_apfloat::ieee::Flagged;

/// How many values are converted at once.
pub(crate) const BLOCK: usize = 64;

/// How many are in a long array. Its counts are added up less often.
pub(crate) const LONG: usize = 256;

/// How many values are looked through at once for infinities and NaNs.
const GROUP: usize = 16;

/// The bits of a single.
#[inline(always)]
pub(crate) fn word_of(bytes: &[u8]) -> u32
    requires { length bytes.now ≡ 4 }
    ensures { result ≡ number_of bytes.now }
{
    number_of(bytes) as u32
}

/// Whether all of these are upper halves of numbers.
#[inline(always)]
pub(crate) fn are_finite<const N: usize>(halves: &[u16; N]) -> bool
    ensures { IsTrue result → AreFiniteHalves N halves.now }
{
    let mut finite = true;
    for index in 0..N {
        finite = finite & is_finite_half(halves[index]);
    }
    finite
}

/// The upper half of a single, and zero in place of that of an infinity or a NaN.
#[inline(always)]
pub(crate) fn number_in(half: u16) -> u16
    ensures { result ≡ number_in half }
{
    if is_finite_half(half) { half } else { 0 }
}

/// The lower half of the same single, and zero where `number_in` puts zero.
#[inline(always)]
pub(crate) fn lower_in(upper: u16, lower: u16) -> u16
    ensures { result ≡ lower_in upper lower }
{
    if is_finite_half(upper) { lower } else { 0 }
}

/// Whether all of sixteen singles are numbers.
#[inline(always)]
fn are_numbers(bytes: &[u8]) -> bool
    requires { length bytes.now ≡ 64 }
    ensures { IsTrue result → (index : ℕ) → index < 16
        → number_of (value_at 4 index bytes.now) % 2 ^ 31 < 255 * 2 ^ 23 }
{
    let mut numbers = true;
    for index in 0..GROUP {
        let from = index * 4;
        numbers = numbers & is_finite(word_of(&bytes[from..from + 4]));
    }
    numbers
}

/// Converts the infinities and NaNs among the sixteen singles from `first` on, as `convert_specials` does.
#[inline(always)]
fn convert_group<S: Flagged, T: Flagged, const N: usize>(
    task: Task,
    width: usize,
    first: usize,
    counts: Counts,
    output: &mut [u8],
) -> Counts
    requires within { first + 16 ≤ N }
    requires given { AreSingles (constants_of S.Flagged) (constants_of T.Flagged) width N
        task.input.now output.old }
    requires numbers { AreNumbersOf (constants_of S.Flagged) (constants_of T.Flagged) task first
        width N output.old counts }
    ensures { AreNumbersOf (constants_of S.Flagged) (constants_of T.Flagged) task.entry (first + 16)
        width N output.new result }
{
    let mut counts = counts;
    for index in first..first + GROUP {
        let from = index * 4;
        let source = &task.input[from..from + 4];
        if !is_finite(word_of(source)) {
            let to = index * width;
            let target = &mut output[to..to + width];
            counts.raise(convert_slowly::<S, T>(task.overflow, task.round, source, target));
        }
    }
    counts
}

/// Converts the infinities and NaNs among the singles of a block, each to its place, where a converted zero is.
/// `counts` are those with the zeros.
#[inline(never)]
pub(crate) fn convert_specials<S: Flagged, T: Flagged, const N: usize>(
    task: Task,
    width: usize,
    counts: Counts,
    output: &mut [u8],
) -> Counts
    requires groups { N % 16 ≡ 0 }
    requires given { AreSingles (constants_of S.Flagged) (constants_of T.Flagged) width N
        task.input.now output.old }
    requires numbers { AreNumbersOf (constants_of S.Flagged) (constants_of T.Flagged) task 0 width N
        output.old counts }
    ensures { AreConverted (constants_of S.Flagged) (constants_of T.Flagged) task.entry width N
        output.new result }
{
    let mut counts = counts;
    for group in 0..N / GROUP {
        let first = group * GROUP;
        if !are_numbers(&task.input[first * 4..(first + GROUP) * 4]) {
            counts = convert_group::<S, T, N>(task, width, first, counts, output);
        }
    }
    counts
}
