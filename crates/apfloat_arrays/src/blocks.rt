//! Values in consecutive bytes.

ghost use Rattle.std.specs.Prelude.{◌≡◌, ◌*◌, ◌<◌, ◌≤◌, length};
ghost use Rattle.rustc_apfloat.specs.FlaggedTypes.{constants_of};
ghost use Rattle.apfloat_arrays.specs.{Values.IsConvertedBy, Blocks.IsBlock, OneBlock.IsBlockOnce};

use crate::byte_sources::{convert_bytes, has_byte_table};
use crate::counts::Counts;
use crate::one_by_one::convert_one_by_one;
use crate::short_sources::{ShortHalfS, ShortSingleS, convert_shortened, has_short_table};
use crate::single_blocks::convert_all_singles;
use crate::singles::has_singles;
use crate::task::Task;
use crate::widths::Widths;
use rustc_apfloat::Round;
use rustc_apfloat::ieee::Flagged;
use small_formats::saturation::Overflow;
use std::marker::PhantomData;

/// Which ways a pair of formats may have. They are constants, so that nothing of a way which a pair cannot have is
/// compiled for it.
struct Ways<S, T> {
    source: PhantomData<S>,
    target: PhantomData<T>,
}

impl<S: Flagged, T: Flagged> Ways<S, T> {
    const SINGLES: bool = S::BITS == 32 && T::BITS <= 16;

    const BYTES: bool = S::BITS <= 8;

    const SHORT: bool = 8 < S::BITS && S::BITS <= 32 && T::BITS <= 8;
}

/// Converts `count` values, each in its place: the bytes of the first value to the bytes of the first value, and so on.
/// `overflow` says what a number that overflows becomes.
pub fn convert_block_by<S: Flagged, T: Flagged>(
    overflow: Overflow,
    round: Round,
    widths: Widths,
    count: usize,
    input: &[u8],
    output: &mut [u8],
) -> Counts
    requires read { S.PRECISION < S.BITS }
    requires written { T.PRECISION < T.BITS }
    requires source { widths.source ≤ 16 }
    requires target { T.BITS ≤ 8 * widths.target }
    requires input { length input.now ≡ count * widths.source }
    requires output { length output.old ≡ count * widths.target }
    ensures { let c = constants_of S.Flagged in let d = constants_of T.Flagged in
        IsBlock (IsConvertedBy overflow c d round) widths.source widths.target count
        input.now output.new result }
{
    let task = Task {
        overflow,
        round,
        count,
        input,
    };
    if Ways::<S, T>::SINGLES && has_singles::<S, T>(widths) {
        convert_all_singles::<S, T>(task, output)
    } else if Ways::<S, T>::BYTES && has_byte_table::<S, T>(widths, count) {
        convert_bytes::<S, T>(task, widths, output)
    } else if Ways::<S, T>::SHORT && has_short_table::<S, ShortSingleS, T>(widths, count) {
        convert_shortened::<S, ShortSingleS, T>(task, widths, output)
    } else if Ways::<S, T>::SHORT && has_short_table::<S, ShortHalfS, T>(widths, count) {
        convert_shortened::<S, ShortHalfS, T>(task, widths, output)
    } else {
        convert_one_by_one::<S, T>(overflow, round, widths, count, input, output)
    }
}

/// The conversion of a block has one result: the same bytes, with the same counts.
pub fn one_block()
    ensures { IsBlockOnce }
{}
