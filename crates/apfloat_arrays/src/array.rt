//! Conversion of arrays, in bytes that the caller lends.

ghost use Rattle.std.specs.Prelude.{◌≡◌, ◌*◌, ◌<◌, ◌≤◌, length};
ghost use Rattle.rustc_apfloat.specs.FlaggedTypes.{constants_of};
ghost use Rattle.formats_at_run_time.specs.{BuiltIns.constants_in, FlaggedKinds.flagged_constants};
ghost use Rattle.apfloat_arrays.specs.{Calls.at_format, Widths.array_widths, Values.IsConvertedBy, Blocks.IsBlock};

use crate::blocks::convert_block_by;
use crate::counts::Counts;
use crate::widths::{Extended, Widths, width};
use formats_at_run_time::{BuiltInFormat, FlaggedFormat, WritesInFormat};
use rustc_apfloat::Round;
use rustc_apfloat::ieee::Flagged;
use small_formats::saturation::Overflow;
use std::marker::PhantomData;

/// A conversion of arrays. Values of the x87 format take ten bytes. The rule of flags is that of the target.
#[derive(Clone, Copy)]
pub struct ArrayConversion {
    /// The source format.
    pub source: BuiltInFormat,
    /// The target format, with its rule of flags.
    pub target: FlaggedFormat,
    /// The rounding mode.
    pub round: Round,
    /// What a number that overflows becomes.
    pub overflow: Overflow,
}

impl ArrayConversion {
    /// The widths of a value in bytes, before and after its conversion.
    pub fn widths(self) -> Widths
        ensures is { result ≡ array_widths self }
        ensures least { (1 ≤ result.source) × (1 ≤ result.target) }
        ensures greatest { (result.source ≤ 16) × (result.target ≤ 16) }
    {
        Widths {
            source: width(self.source, Extended::Packed),
            target: width(self.target.built_in(), Extended::Packed),
        }
    }

    /// Converts `count` values, each in its place.
    pub fn convert(self, count: usize, input: &[u8], output: &mut [u8]) -> Counts
        requires input { length input.now ≡ count * (array_widths self).source }
        requires output { length output.old ≡ count * (array_widths self).target }
        ensures { let c = constants_in self.source in let d = flagged_constants self.target in
            IsBlock (IsConvertedBy self.overflow c d self.round) (array_widths self).source
            (array_widths self).target count input.now output.new result }
    {
        let widths = self.widths();
        self.source.write(
            ArrayCall {
                conversion: self,
                widths,
                count,
                input,
            },
            output,
        )
    }
}

/// The call that converts an array, made at the type of the source format.
#[derive(Clone, Copy)]
struct ArrayCall<'a> {
    conversion: ArrayConversion,
    widths: Widths,
    count: usize,
    input: &'a [u8],
}

/// The same call, made at the type of the target format; `S` is the source format.
#[derive(Drop)]
struct ArrayCallFrom<'a, S: Flagged> {
    call: ArrayCall<'a>,
    source: PhantomData<S>,
}

impl WritesInFormat for ArrayCall<'_> {
    type Output = Counts;

    ghost can = { λ it kind old.
        (it.widths ≡ array_widths it.conversion)
        × (it.widths.source ≤ 16)
        × (length it.input.now ≡ it.count * it.widths.source)
        × (length old ≡ it.count * it.widths.target) };

    ghost gives = { λ it kind old new counts.
        at_format kind (λ c. let d = flagged_constants it.conversion.target in
        IsBlock (IsConvertedBy it.conversion.overflow c d it.conversion.round) it.widths.source
        it.widths.target it.count it.input.now new counts) };

    fn write_in_format<S: Flagged>(self, bytes: &mut [u8]) -> Counts {
        let target = self.conversion.target;
        target.write(
            ArrayCallFrom::<S> {
                call: self,
                source: PhantomData,
            },
            bytes,
        )
    }
}

impl<S: Flagged> WritesInFormat for ArrayCallFrom<'_, S> {
    type Output = Counts;

    ghost can = { λ it kind old. (S.PRECISION < S.BITS)
        × (it.call.widths.source ≤ 16)
        × (length it.call.input.now ≡ it.call.count * it.call.widths.source)
        × (length old ≡ it.call.count * it.call.widths.target)
        × at_format kind (λ d. d.bits ≤ 8 * it.call.widths.target) };

    ghost gives = { λ it kind old new counts.
        at_format kind (λ d. let c = constants_of S.Flagged in
        IsBlock (IsConvertedBy it.call.conversion.overflow c d it.call.conversion.round)
        it.call.widths.source it.call.widths.target it.call.count it.call.input.now new counts) };

    fn write_in_format<T: Flagged>(self, bytes: &mut [u8]) -> Counts {
        let ArrayCall {
            conversion,
            widths,
            count,
            input,
        } = self.call;
        let ArrayConversion {
            overflow,
            round,
            ..
        } = conversion;
        convert_block_by::<S, T>(overflow, round, widths, count, input, bytes)
    }
}
