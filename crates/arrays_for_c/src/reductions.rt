//! Exact sums of arrays (IEEE 754-2019 9.4), rounded once, for C programs: of values, of their magnitudes, of their
//! squares, and of products, also of vectors in blocks.

ghost use Rattle.std.specs.Prelude.{◌≡◌, ◌+◌, ◌*◌, ◌^◌, ◌<◌, ◌≤◌, length, pos};
ghost use Rattle.rustc_apfloat.specs.{FlaggedTypes.constants_of, FlaggedTypes.format_of, Lawful.format_with};
ghost use Rattle.exact_reductions.specs.Reductions.{IsReducible, IsSummable, joined, tally_of};
ghost use Rattle.formats_at_run_time.specs.{FlaggedKinds.flagged_kind_coded, FormatKinds.IfFormat, Modes.mode_coded};
ghost use Rattle.formats_at_run_time.specs.Relations.{in_format};
ghost use Rattle.coded_calls.specs.Answers.{IsValueWritten};
ghost use Rattle.arrays_for_c.specs.declared.reductions.Reduction.TheVariants.{Sum, Magnitudes, Products};
ghost use Rattle.arrays_for_c.specs.Reductions.{IsDotBlocksCall, IsDotReply, IsReducedCall, IsReducedIn};
ghost use Rattle.arrays_for_c.specs.Reductions.{known_reduction, term_of, values_from, vector_coded};

use crate::array_calls::bytes_in;
use crate::blocks::element_coded;
use crate::elements::number_at;
use coded_calls::codes::{
    ANSWERED, NO_SUCH_OPERATION, UNKNOWN_FORMAT, UNKNOWN_MODE, WIDE_OPERAND, WRONG_LENGTH,
};
use coded_calls::data::Answer;
use exact_reductions::{
    BlockScaling, BlockVector, DotError, ExactSum, NARROW_WORDS, WIDE_WORDS, are_enough,
    dot_blocks_r,
};
use formats_at_run_time::{FillsInFormat, FlaggedFormat, FlaggedKind, WritesInFormat, mode_coded};
use rustc_apfloat::ieee::{Flagged, IeeeFloat, Single};
use rustc_apfloat::{Float, Round, StatusAnd};
use small_formats::blocks::is_positive;

/// The code of NVFP4 in the place of that of a format of elements.
const NVFP4: u32 = 64;

/// What is added.
#[derive(Clone, Copy)]
pub enum Reduction {
    /// The values.
    Sum,
    /// Their magnitudes.
    Magnitudes,
    /// The products of the values at the same places of two arrays.
    Products,
}

/// A format that has exact sums, and the mode in which they are rounded.
#[derive(Clone, Copy)]
pub struct KnownReduction {
    /// The format.
    pub format: FlaggedFormat,
    /// The rounding mode.
    pub round: Round,
}

/// The sum of the values of an array (IEEE 754-2019 9.4, sum).
#[unsafe(no_mangle)]
pub extern "C" fn apfloat_sum(format: u32, mode: u32, xs: &[u8], answer: &mut Answer) -> u32
    ensures { let size = length xs.now in
        let known = known_reduction (flagged_kind_coded format) (mode_coded mode) size size in
        IsReducedCall Sum known xs.now xs.now answer.old answer.new result }
{
    reduce(Reduction::Sum, format, mode, xs, xs, answer)
}

/// The sum of the magnitudes of the values of an array (IEEE 754-2019 9.4, sumAbs).
#[unsafe(no_mangle)]
pub extern "C" fn apfloat_sum_abs(format: u32, mode: u32, xs: &[u8], answer: &mut Answer) -> u32
    ensures { let size = length xs.now in
        let known = known_reduction (flagged_kind_coded format) (mode_coded mode) size size in
        IsReducedCall Magnitudes known xs.now xs.now answer.old answer.new result }
{
    reduce(Reduction::Magnitudes, format, mode, xs, xs, answer)
}

/// The sum of the squares of the values of an array (IEEE 754-2019 9.4, sumSquare).
#[unsafe(no_mangle)]
pub extern "C" fn apfloat_sum_square(format: u32, mode: u32, xs: &[u8], answer: &mut Answer) -> u32
    ensures { let size = length xs.now in
        let known = known_reduction (flagged_kind_coded format) (mode_coded mode) size size in
        IsReducedCall Products known xs.now xs.now answer.old answer.new result }
{
    reduce(Reduction::Products, format, mode, xs, xs, answer)
}

/// The sum of the products of the values at the same places of two arrays (IEEE 754-2019 9.4, dot).
#[unsafe(no_mangle)]
pub extern "C" fn apfloat_dot(
    format: u32,
    mode: u32,
    xs: &[u8],
    ys: &[u8],
    answer: &mut Answer,
) -> u32
    ensures { let known = known_reduction (flagged_kind_coded format) (mode_coded mode)
        (length xs.now) (length ys.now) in
        IsReducedCall Products known xs.now ys.now answer.old answer.new result }
{
    reduce(Reduction::Products, format, mode, xs, ys, answer)
}

/// The dot product of two vectors in blocks, the sum of the products of their elements, each times its scales.
#[unsafe(no_mangle)]
pub extern "C" fn apfloat_dot_blocks(
    format: u32,
    mode: u32,
    x_element: u32,
    x_tensor: u32,
    x_length: usize,
    x_scales: &[u8],
    x_codes: &[u8],
    y_element: u32,
    y_tensor: u32,
    y_length: usize,
    y_scales: &[u8],
    y_codes: &[u8],
    answer: &mut Answer,
) -> u32
    ensures { let known = known_reduction (flagged_kind_coded format) (mode_coded mode) 0 0 in
        let x = vector_coded x_element x_tensor x_length x_scales.entry x_codes.entry in
        let y = vector_coded y_element y_tensor y_length y_scales.entry y_codes.entry in
        IsDotBlocksCall known x y answer.old answer.new result }
{
    let x = vector_coded(x_element, x_tensor, x_length, x_scales, x_codes);
    let y = vector_coded(y_element, y_tensor, y_length, y_scales, y_codes);
    dot_blocks(known_reduction(format, mode, 0, 0), x, y, answer)
}

/// The sum, as the decoded arguments ask.
fn reduce(
    reduction: Reduction,
    format: u32,
    mode: u32,
    xs: &[u8],
    ys: &[u8],
    answer: &mut Answer,
) -> u32
    ensures { let known = known_reduction (flagged_kind_coded format) (mode_coded mode)
        (length xs.now) (length ys.now) in
        IsReducedCall reduction known xs.now ys.now answer.old answer.new result }
{
    let known = known_reduction(format, mode, xs.len(), ys.len());
    match known {
        Err(error) => error,
        Ok(call) => {
            let width = bytes_in(FlaggedKind::OfFormat(call.format));
            let count = xs.len() / width;
            let terms = TermsCall {
                reduction,
                round: call.round,
                width,
                xs,
                ys,
                count,
            };
            *answer = call.format.write(terms, &mut []);
            ANSWERED
        }
    }
}

/// The format and the mode of a sum of arrays of these lengths, or the code of the first error.
fn known_reduction(
    format: u32,
    mode: u32,
    first: usize,
    second: usize,
) -> Result<KnownReduction, u32>
    ensures { result ≡ known_reduction (flagged_kind_coded format) (mode_coded mode) first second }
{
    let Some(kind) = FlaggedKind::coded(format) else {
        return Err(UNKNOWN_FORMAT);
    };
    let Some(round) = mode_coded(mode) else {
        return Err(UNKNOWN_MODE);
    };
    let FlaggedKind::OfFormat(format) = kind else {
        return Err(NO_SUCH_OPERATION);
    };
    if first % bytes_in(kind) == 0 && second == first {
        Ok(KnownReduction { format, round })
    } else {
        Err(WRONG_LENGTH)
    }
}

/// A vector in blocks, by the code of its elements, or the code of the first error.
fn vector_coded<'a>(
    element: u32,
    tensor: u32,
    length: usize,
    scales: &'a [u8],
    codes: &'a [u8],
) -> Result<BlockVector<'a>, u32>
    ensures { result ≡ vector_coded element tensor length scales.entry codes.entry }
{
    let scaling = if element == NVFP4 {
        BlockScaling::Nvfp4(tensor)
    } else {
        match element_coded(element) {
            None => return Err(UNKNOWN_FORMAT),
            Some(element) => BlockScaling::Mx(element),
        }
    };
    if length == 0 || codes.len() % length != 0 || scales.len() != codes.len() / length {
        return Err(WRONG_LENGTH);
    }
    if element == NVFP4 && !is_positive(Single::from_bits(u128::from(tensor))) {
        return Err(NO_SUCH_OPERATION);
    }
    Ok(BlockVector {
        scaling,
        length,
        scales,
        codes,
    })
}

/// The dot product of two vectors in blocks, as the decoded arguments ask.
fn dot_blocks(
    known: Result<KnownReduction, u32>,
    x: Result<BlockVector, u32>,
    y: Result<BlockVector, u32>,
    answer: &mut Answer,
) -> u32
    ensures { IsDotBlocksCall known x.entry y.entry answer.old answer.new result }
{
    match (known, x, y) {
        (Err(error), _, _) => error,
        (Ok(_), Err(error), _) => error,
        (Ok(_), Ok(_), Err(error)) => error,
        (Ok(KnownReduction { format, round }), Ok(x), Ok(y)) => {
            format.fill(BlocksCall { round, x, y }, answer)
        }
    }
}

/// A dot product of vectors in blocks.
#[derive(Clone, Copy)]
struct BlocksCall<'a> {
    round: Round,
    x: BlockVector<'a>,
    y: BlockVector<'a>,
}

impl FillsInFormat for BlocksCall<'_> {
    type Place = Answer;

    type Output = u32;

    ghost gives = { λ it kind old new code.
        IfFormat kind (λ c. IsDotReply c it.round it.x it.y old new code) };

    fn fill_in_format<S: Flagged>(self, answer: &mut Answer) -> u32 {
        match dot_blocks_r::<S>(self.x, self.y, self.round) {
            Err(DotError::LengthsDiffer) => WRONG_LENGTH,
            Err(DotError::NotBlocks) => WIDE_OPERAND,
            Ok(made) => {
                *answer = in_bits(made);
                ANSWERED
            }
        }
    }
}

/// A sum of `count` terms of arrays whose values take `width` bytes each.
#[derive(Clone, Copy)]
struct TermsCall<'a> {
    reduction: Reduction,
    round: Round,
    width: usize,
    xs: &'a [u8],
    ys: &'a [u8],
    count: usize,
}

impl WritesInFormat for TermsCall<'_> {
    type Output = Answer;

    ghost can = { λ it kind old. IfFormat kind (λ c. IsReducible (format_with c)) × (it.width ≤ 16)
        × (length it.xs.now ≡ it.count * it.width) × (length it.ys.now ≡ it.count * it.width) };

    ghost gives = { λ it kind old new answer. IfFormat kind (λ c.
        IsReducedIn c it.reduction it.round (values_from c it.width it.xs.now 0 it.count)
        (values_from c it.width it.ys.now 0 it.count) answer) };

    fn write_in_format<S: Flagged>(self, bytes: &mut [u8]) -> Answer {
        let TermsCall {
            reduction,
            round,
            width,
            xs,
            ys,
            count,
        } = self;
        if are_enough::<S>(NARROW_WORDS) {
            reduced_in::<S, NARROW_WORDS>(reduction, round, width, xs, ys, count)
        } else {
            reduced_in::<S, WIDE_WORDS>(reduction, round, width, xs, ys, count)
        }
    }
}

/// The sum in the format `S`, in so many words.
fn reduced_in<S: Flagged, const WORDS: usize>(
    reduction: Reduction,
    round: Round,
    width: usize,
    xs: &[u8],
    ys: &[u8],
    count: usize,
) -> Answer
    requires written { S.PRECISION < S.BITS }
    requires format { IsSummable WORDS (format_of S.Flagged) }
    requires few { width ≤ 16 }
    requires xs { length xs.now ≡ count * width }
    requires ys { length ys.now ≡ count * width }
    ensures { let c = constants_of S.Flagged in
        IsReducedIn c reduction round (values_from c width xs.now 0 count)
        (values_from c width ys.now 0 count) result }
{
    let mut sum = ExactSum::<S, WORDS>::new();
    for index in 0..count {
        let place = index * width;
        let x = number_at(xs, place, width);
        let y = number_at(ys, place, width);
        add_term(&mut sum, reduction, x, y);
    }
    in_bits(sum.rounded(round))
}

/// A value with its flags.
fn in_bits<S: Flagged>(total: StatusAnd<IeeeFloat<S>>) -> Answer
    requires { S.PRECISION < S.BITS }
    ensures { IsValueWritten (in_format (constants_of S.Flagged)) total (pos 0) result }
{
    Answer::of(total.value.to_bits(), total.status, 0)
}

/// Adds the term of values of these bits.
#[inline(always)]
fn add_term<S: Flagged, const WORDS: usize>(
    sum: &mut ExactSum<S, WORDS>,
    reduction: Reduction,
    x: u128,
    y: u128,
)
    requires written { S.PRECISION < S.BITS }
    requires format { IsSummable WORDS (format_of S.Flagged) }
    requires room { sum.old.terms + 1 < 2 ^ 64 }
    ensures { sum.new
        ≡ joined sum.old (tally_of (term_of reduction (constants_of S.Flagged) x y)) }
{
    let x = IeeeFloat::<S>::from_bits(x);
    match reduction {
        Reduction::Sum => sum.add(x),
        Reduction::Magnitudes => sum.add(x.abs()),
        Reduction::Products => sum.add_product(x, IeeeFloat::<S>::from_bits(y)),
    }
}
