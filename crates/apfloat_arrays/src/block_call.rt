//! The call that converts a block, at the types of both formats.

ghost use Rattle.std.specs.Prelude.{◌≡◌, ◌*◌, ◌<◌, ◌≤◌, length, take};
ghost use Rattle.rustc_apfloat.specs.Types.{constants_of};
ghost use Rattle.formats_at_run_time.specs.BuiltIns.{constants_in};
ghost use Rattle.apfloat_arrays.specs.{Calls.at_format, Widths.source_width, Widths.target_width, Values.IsConvertedBy};
ghost use Rattle.apfloat_arrays.specs.Blocks.{IsBlock};

use crate::blocks::convert_block_by;
use crate::conversion::Conversion;
use crate::counts::Counts;
use crate::widths::Widths;
use formats_at_run_time::InFormat;
use rustc_apfloat::Round;
use rustc_apfloat::ieee::Semantics;
use small_formats::saturation::Overflow;
use std::marker::PhantomData;

/// The call that converts a block, made at the type of the source format.
#[derive(Drop)]
pub struct BlockCall<'a> {
    /// The conversion.
    pub conversion: Conversion,
    /// What a number that overflows becomes.
    pub overflow: Overflow,
    /// The number of values in the block.
    pub count: usize,
    /// Their bytes.
    pub input: &'a [u8],
    /// A buffer with room for the converted values.
    pub output: Vec<u8>,
}

/// The same call, made at the type of the target format; `S` is the source format.
#[derive(Drop)]
struct BlockCallFrom<'a, S: Semantics> {
    call: BlockCall<'a>,
    source: PhantomData<S>,
}

/// The counts of a block, and the buffer, which begins with its converted values.
#[derive(Drop)]
pub struct BlockAnswer {
    /// The counts.
    pub counts: Counts,
    /// The buffer.
    pub output: Vec<u8>,
}

impl<'a> InFormat for BlockCall<'a> {
    type Output = BlockAnswer;

    ghost can = { λ it kind.
        (length it.input.now ≡ it.count * source_width it.conversion)
        × (it.count * target_width it.conversion ≤ length it.output.items) };

    ghost gives = { λ it kind answer.
        (length answer.output.items ≡ length it.output.items)
        × at_format kind (λ c. let d = constants_in it.conversion.target in
        IsBlock (IsConvertedBy it.overflow c d it.conversion.round) (source_width it.conversion)
        (target_width it.conversion) it.count it.input.now
        (take (it.count * target_width it.conversion) answer.output.items) answer.counts) };

    fn in_format<S: Semantics>(self) -> BlockAnswer {
        let target = self.conversion.target;
        target.run(BlockCallFrom::<S> {
            call: self,
            source: PhantomData,
        })
    }
}

impl<'a, S: Semantics> InFormat for BlockCallFrom<'a, S> {
    type Output = BlockAnswer;

    ghost can = { λ it kind. (S.PRECISION < S.BITS)
        × (length it.call.input.now ≡ it.call.count * source_width it.call.conversion)
        × (it.call.count * target_width it.call.conversion ≤ length it.call.output.items)
        × at_format kind (λ d. d.bits ≤ 8 * target_width it.call.conversion) };

    ghost gives = { λ it kind answer.
        (length answer.output.items ≡ length it.call.output.items)
        × at_format kind (λ d. let c = constants_of S.Semantics in
        IsBlock (IsConvertedBy it.call.overflow c d it.call.conversion.round) (source_width it.call.conversion)
        (target_width it.call.conversion) it.call.count it.call.input.now
        (take (it.call.count * target_width it.call.conversion) answer.output.items)
        answer.counts) };

    fn in_format<T: Semantics>(self) -> BlockAnswer {
        let BlockCall {
            conversion,
            overflow,
            count,
            input,
            mut output,
        } = self.call;
        let widths = conversion.widths();
        let round = conversion.round;
        let front = output.as_mut_slice();
        let counts = convert_front::<S, T>(overflow, round, widths, count, input, front);
        BlockAnswer { counts, output }
    }
}

/// Converts a block to the front of a buffer.
fn convert_front<S: Semantics, T: Semantics>(
    overflow: Overflow,
    round: Round,
    widths: Widths,
    count: usize,
    input: &[u8],
    buffer: &mut [u8],
) -> Counts
    requires read { S.PRECISION < S.BITS }
    requires written { T.PRECISION < T.BITS }
    requires source { widths.source ≤ 16 }
    requires target { T.BITS ≤ 8 * widths.target }
    requires input { length input.now ≡ count * widths.source }
    requires room { count * widths.target ≤ length buffer.old }
    ensures { let c = constants_of S.Semantics in let d = constants_of T.Semantics in
        IsBlock (IsConvertedBy overflow c d round) widths.source widths.target count
        input.now (take (count * widths.target) buffer.new) result }
{
    let front = &mut buffer[..count * widths.target];
    convert_block_by::<S, T>(overflow, round, widths, count, input, front)
}
