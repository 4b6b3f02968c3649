//! Operations on arrays, element by element. The type of their values is found once for an array.

ghost use Rattle.std.specs.Prelude.{◌≡◌, ◌⊎◌, ◌+◌, ◌<◌, ◌≤◌, length, slice_range, true};
ghost use Rattle.rustc_apfloat.specs.FlaggedTypes.{constants_of};
ghost use Rattle.formats_at_run_time.specs.{declared.FlaggedKind.TheVariants.Pairs, FlaggedKinds.flagged_kind_of};
ghost use Rattle.formats_at_run_time.specs.ValueKinds.{of_format, of_pairs};
ghost use Rattle.apfloat_arrays.specs.Bytes.{number_of};
ghost use Rattle.arrays_for_c.specs.declared.array_calls.MapCall.{MapCall};
ghost use Rattle.arrays_for_c.specs.ArrayCalls.{bytes_in, has_element_operation};
ghost use Rattle.arrays_for_c.specs.Arrays.{AreElements, AreOperands, IsElement, call_of, is_nan_in};
ghost use Rattle.coded_calls.specs.Answers.{IsKindAnswer};

use crate::array_calls::{ElementOperation, MapCall, bytes_in};
use crate::array_data::{Element, ElementCounts};
use crate::normal_elements::{NormalDifference, NormalProduct, NormalSum, normal_elements};
use apfloat_arrays::{number_of, write_number};
use coded_calls::data::Answer;
use coded_calls::operations::{
    DifferenceCall, FusedSumCall, InType, KindOperation, NearestRemainderCall, ProductCall,
    QuotientCall, SquareRootCall, SumCall, TruncatedRemainderCall,
};
use formats_at_run_time::{Arithmetic, FlaggedKind, WritesInFormat};
use rustc_apfloat::Float;
use rustc_apfloat::ieee::{Flagged, IeeeFloat};
use rustc_apfloat::ppc::DoubleDouble;
use std::marker::PhantomData;

/// Makes the calls of an operation on arrays in the type of its elements.
pub trait ElementCalls: Copy {
    // The operation.
    ghost map: { Self → MapCall };

    // Whether its elements have this type, and the type has the operation.
    ghost can: { Self → Type 0 };

    /// Makes the call on single values.
    fn call(self, x: u128, y: u128, z: u128, answer: &mut Answer) -> u32
        requires { can self }
        ensures { IsKindAnswer (flagged_kind_of (map self).kind) (map self).round
            (call_of (map self).operation x y z) answer.new };

    /// Whether these are the bits of a NaN.
    fn is_nan(self, bits: u128) -> bool
        requires { can self }
        ensures { result ≡ is_nan_in (flagged_kind_of (map self).kind) bits };
}

/// Calls in the format `S`.
#[derive_where(Clone, Copy)]
pub struct FormatCalls<S: Flagged> {
    /// The operation.
    pub map: MapCall,
    /// The format.
    pub format: PhantomData<S>,
}

/// Calls in pairs of doubles.
#[derive(Clone, Copy)]
struct PairCalls {
    map: MapCall,
}

impl<S: Flagged> ElementCalls for FormatCalls<S> {
    ghost map = { λ it. it.map };

    ghost can = { λ it. (S.PRECISION < S.BITS)
        × (of_format (constants_of S.Flagged) ≡ flagged_kind_of it.map.kind) };

    #[inline(always)]
    fn call(self, x: u128, y: u128, z: u128, answer: &mut Answer) -> u32 {
        call_in_format::<S>(self.map, x, y, z, answer)
    }

    #[inline(always)]
    fn is_nan(self, bits: u128) -> bool {
        IeeeFloat::<S>::from_bits(bits).is_nan()
    }
}

impl ElementCalls for PairCalls {
    ghost map = { λ it. it.map };

    ghost can = { λ it. (of_pairs ≡ flagged_kind_of it.map.kind)
        × (has_element_operation Pairs it.map.operation ≡ true) };

    fn call(self, x: u128, y: u128, z: u128, answer: &mut Answer) -> u32 {
        call_in_pairs(self.map, x, y, z, answer)
    }

    fn is_nan(self, bits: u128) -> bool {
        DoubleDouble::from_bits(bits).is_nan()
    }
}

/// Makes a call on single values of the format `S`.
#[inline(always)]
fn call_in_format<S: Flagged>(map: MapCall, x: u128, y: u128, z: u128, answer: &mut Answer) -> u32
    requires { S.PRECISION < S.BITS }
    ensures { IsKindAnswer (of_format (constants_of S.Flagged)) map.round
        (call_of map.operation x y z) answer.new }
{
    let round = map.round;
    match map.operation {
        ElementOperation::OfTwo(arithmetic) => match arithmetic {
            Arithmetic::Sum => SumCall { x, y }.in_format::<S>(round, answer),
            Arithmetic::Difference => DifferenceCall { x, y }.in_format::<S>(round, answer),
            Arithmetic::Product => ProductCall { x, y }.in_format::<S>(round, answer),
            Arithmetic::Quotient => QuotientCall { x, y }.in_format::<S>(round, answer),
            Arithmetic::NearestRemainder => {
                let operation = NearestRemainderCall { x, y };
                InType { operation }.in_format::<S>(round, answer)
            }
            Arithmetic::TruncatedRemainder => {
                let operation = TruncatedRemainderCall { x, y };
                InType { operation }.in_format::<S>(round, answer)
            }
        },
        ElementOperation::FusedSum => FusedSumCall { x, y, z }.in_format::<S>(round, answer),
        ElementOperation::SquareRoot => SquareRootCall { x }.in_format::<S>(round, answer),
    }
}

/// Makes a call on pairs of doubles.
fn call_in_pairs(map: MapCall, x: u128, y: u128, z: u128, answer: &mut Answer) -> u32
    requires { has_element_operation Pairs map.operation ≡ true }
    ensures { IsKindAnswer of_pairs map.round (call_of map.operation x y z) answer.new }
{
    let round = map.round;
    match map.operation {
        ElementOperation::OfTwo(arithmetic) => match arithmetic {
            Arithmetic::Sum => SumCall { x, y }.in_pairs(round, answer),
            Arithmetic::Difference => DifferenceCall { x, y }.in_pairs(round, answer),
            Arithmetic::Product => ProductCall { x, y }.in_pairs(round, answer),
            Arithmetic::Quotient => QuotientCall { x, y }.in_pairs(round, answer),
            Arithmetic::NearestRemainder => {
                let operation = NearestRemainderCall { x, y };
                InType { operation }.in_pairs(round, answer)
            }
            Arithmetic::TruncatedRemainder => {
                let operation = TruncatedRemainderCall { x, y };
                InType { operation }.in_pairs(round, answer)
            }
        },
        ElementOperation::FusedSum => FusedSumCall { x, y, z }.in_pairs(round, answer),
        ElementOperation::SquareRoot => SquareRootCall { x }.in_pairs(round, answer),
    }
}

/// The number of the bytes from this place on.
#[inline(always)]
pub fn number_in(bytes: &[u8], place: usize, width: usize) -> u128
    requires few { width ≤ 16 }
    requires within { place + width ≤ length bytes.now }
    ensures { result ≡ number_of (slice_range bytes.now place (place + width)) }
{
    number_of(&bytes[place..place + width])
}

/// The same, or 0 if there are no bytes at all.
#[inline]
pub fn number_at(bytes: &[u8], place: usize, width: usize) -> u128
    requires few { width ≤ 16 }
    requires within { (length bytes.now ≡ 0) ⊎ (place + width ≤ length bytes.now) }
    ensures { result ≡ number_of (slice_range bytes.now place (place + width)) }
{
    if bytes.is_empty() {
        0
    } else {
        number_in(bytes, place, width)
    }
}

/// Applies the operation to an element, and writes the bytes of its result.
#[inline(always)]
pub fn element<C: ElementCalls>(calls: C, x: u128, y: u128, z: u128, bytes: &mut [u8]) -> Element
    requires can { C.can calls }
    requires bytes { length bytes.old ≡ bytes_in (C.map calls).kind }
    ensures { IsElement (C.map calls) x y z bytes.new result }
{
    let mut answer = Answer::number(0);
    calls.call(x, y, z, &mut answer);
    let bits = answer.bits.number();
    write_number(bits, bytes);
    Element {
        status: answer.status,
        is_nan: calls.is_nan(bits),
    }
}

/// `element` out of line.
#[inline(never)]
pub fn element_apart<C: ElementCalls>(
    calls: C,
    x: u128,
    y: u128,
    z: u128,
    bytes: &mut [u8],
) -> Element
    requires can { C.can calls }
    requires bytes { length bytes.old ≡ bytes_in (C.map calls).kind }
    ensures { IsElement (C.map calls) x y z bytes.new result }
{
    element(calls, x, y, z, bytes)
}

/// Applies the operation to each element, each of which takes `width` bytes. The arrays of operands that it does not
/// take are empty.
#[inline(always)]
fn elements<C: ElementCalls>(
    calls: C,
    width: usize,
    xs: &[u8],
    ys: &[u8],
    zs: &[u8],
    count: usize,
    output: &mut [u8],
) -> ElementCounts
    requires can { C.can calls }
    requires operands { AreOperands (C.map calls).kind width count xs.now ys.now zs.now output.old }
    requires few { width ≤ 16 }
    ensures { AreElements (C.map calls) xs.now ys.now zs.now count output.new result }
{
    let mut counted = ElementCounts::NONE;
    for index in 0..count {
        let place = index * width;
        let x = number_at(xs, place, width);
        let y = number_at(ys, place, width);
        let z = number_at(zs, place, width);
        let target = &mut output[place..place + width];
        counted.count(element(calls, x, y, z, target));
    }
    counted
}

/// `elements` out of line, for values with padding: of more bytes than their bits take.
#[inline(never)]
pub fn elements_apart<C: ElementCalls>(
    calls: C,
    width: usize,
    xs: &[u8],
    ys: &[u8],
    zs: &[u8],
    count: usize,
    output: &mut [u8],
) -> ElementCounts
    requires can { C.can calls }
    requires operands { AreOperands (C.map calls).kind width count xs.now ys.now zs.now output.old }
    requires few { width ≤ 16 }
    ensures { AreElements (C.map calls) xs.now ys.now zs.now count output.new result }
{
    elements(calls, width, xs, ys, zs, count, output)
}

/// Applies the operation to each element in the format `S`, where sums, differences and products have their own loops.
/// If a value has the fewest bytes that the format fits in, these are a constant that the loop over values knows.
#[inline(always)]
fn elements_in_format<S: Flagged>(
    calls: FormatCalls<S>,
    width: usize,
    xs: &[u8],
    ys: &[u8],
    zs: &[u8],
    count: usize,
    output: &mut [u8],
) -> ElementCounts
    requires format { S.PRECISION < S.BITS }
    requires kind { of_format (constants_of S.Flagged) ≡ flagged_kind_of calls.map.kind }
    requires operands { AreOperands calls.map.kind width count xs.now ys.now zs.now output.old }
    requires few { width ≤ 16 }
    ensures { AreElements calls.map xs.now ys.now zs.now count output.new result }
{
    match calls.map.operation {
        ElementOperation::OfTwo(Arithmetic::Sum) => {
            normal_elements(NormalSum, calls, width, xs, ys, zs, count, output)
        }
        ElementOperation::OfTwo(Arithmetic::Difference) => {
            normal_elements(NormalDifference, calls, width, xs, ys, zs, count, output)
        }
        ElementOperation::OfTwo(Arithmetic::Product) => {
            normal_elements(NormalProduct, calls, width, xs, ys, zs, count, output)
        }
        _ => if width == S::BITS.div_ceil(8) {
            elements(calls, S::BITS.div_ceil(8), xs, ys, zs, count, output)
        } else {
            elements_apart(calls, width, xs, ys, zs, count, output)
        },
    }
}

/// An operation on arrays with its operands, each of which takes `width` bytes.
#[derive(Clone, Copy)]
struct ArraysCall<'a> {
    map: MapCall,
    width: usize,
    xs: &'a [u8],
    ys: &'a [u8],
    zs: &'a [u8],
    count: usize,
}

impl WritesInFormat for ArraysCall<'_> {
    type Output = ElementCounts;

    ghost can = { λ it kind old. (kind ≡ flagged_kind_of it.map.kind) × (it.width ≤ 16)
        × AreOperands it.map.kind it.width it.count it.xs.now it.ys.now it.zs.now old };

    ghost gives = { λ it kind old new counted.
        AreElements it.map it.xs.now it.ys.now it.zs.now it.count new counted };

    fn write_in_format<S: Flagged>(self, output: &mut [u8]) -> ElementCounts {
        let ArraysCall {
            map,
            width,
            xs,
            ys,
            zs,
            count,
        } = self;
        let calls = FormatCalls::<S> {
            map,
            format: PhantomData,
        };
        elements_in_format(calls, width, xs, ys, zs, count, output)
    }
}

impl MapCall {
    /// Applies the operation to each element. The arrays of operands that it does not take are empty.
    pub fn over(
        self,
        xs: &[u8],
        ys: &[u8],
        zs: &[u8],
        count: usize,
        output: &mut [u8],
    ) -> ElementCounts
        requires has { has_element_operation self.kind self.operation ≡ true }
        requires operands { AreOperands self.kind (bytes_in self.kind) count xs.now ys.now zs.now
            output.old }
        ensures { AreElements self xs.now ys.now zs.now count output.new result }
    {
        let width = bytes_in(self.kind);
        match self.kind {
            FlaggedKind::OfFormat(format) => format.write(
                ArraysCall {
                    map: self,
                    width,
                    xs,
                    ys,
                    zs,
                    count,
                },
                output,
            ),
            FlaggedKind::Pairs => {
                elements_apart(PairCalls { map: self }, width, xs, ys, zs, count, output)
            }
        }
    }
}
