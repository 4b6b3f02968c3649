//! Operations on arrays that go from bits to bits in line as long as operands and results are normal numbers.

ghost use Rattle.std.specs.Prelude.{◌≡◌, ◌*◌, ◌<◌, ◌≤◌, length, IfSome};
ghost use Rattle.rustc_apfloat.specs.FlaggedTypes.{constants_of};
ghost use Rattle.formats_at_run_time.specs.declared.Arithmetic.{Arithmetic};
ghost use Rattle.formats_at_run_time.specs.declared.Arithmetic.TheVariants.{Sum, Difference, Product};
ghost use Rattle.formats_at_run_time.specs.{FlaggedKinds.flagged_kind_of, ValueKinds.of_format, ValueKinds.value_of};
ghost use Rattle.fast_bits.specs.Encoded.{IsNumberAnswer};
ghost use Rattle.arrays_for_c.specs.declared.array_calls.ElementOperation.TheVariants.{OfTwo};
ghost use Rattle.arrays_for_c.specs.Arrays.{AreElements, AreOperands, relation_of_two};

use crate::array_data::{Element, ElementCounts};
use crate::elements::{FormatCalls, element_apart, elements_apart, number_at, number_in};
use apfloat_arrays::write_number;
use fast_bits::{Encoded, add_normal, multiply_normal, subtract_normal};
use rustc_apfloat::ieee::Flagged;
use rustc_apfloat::{Flags, Round};

/// An operation on two values that goes from bits to bits if they and the result are normal numbers.
pub trait NormalOperation: Copy {
    // Which operation it is.
    ghost arithmetic: { Self → Arithmetic };

    /// The result, if all three are normal numbers of a format that fits in a word.
    fn normal_in<S: Flagged>(self, x: u128, y: u128, round: Round) -> Option<Encoded>
        requires { S.PRECISION < S.BITS }
        ensures { let c = constants_of S.Flagged in
            IfSome result (IsNumberAnswer c
            (relation_of_two c (arithmetic self) round (value_of c x) (value_of c y))) };
}

/// The sum of two values.
#[derive(Clone, Copy)]
pub struct NormalSum;

/// The difference of two values.
#[derive(Clone, Copy)]
pub struct NormalDifference;

/// The product of two values.
#[derive(Clone, Copy)]
pub struct NormalProduct;

impl NormalOperation for NormalSum {
    ghost arithmetic = { λ it. Sum };

    #[inline(always)]
    fn normal_in<S: Flagged>(self, x: u128, y: u128, round: Round) -> Option<Encoded> {
        add_normal::<S>(x, y, round)
    }
}

impl NormalOperation for NormalDifference {
    ghost arithmetic = { λ it. Difference };

    #[inline(always)]
    fn normal_in<S: Flagged>(self, x: u128, y: u128, round: Round) -> Option<Encoded> {
        subtract_normal::<S>(x, y, round)
    }
}

impl NormalOperation for NormalProduct {
    ghost arithmetic = { λ it. Product };

    #[inline(always)]
    fn normal_in<S: Flagged>(self, x: u128, y: u128, round: Round) -> Option<Encoded> {
        multiply_normal::<S>(x, y, round)
    }
}

/// Applies the operation to each element, each of which takes `width` bytes. What is not normal is left to a call, so
/// that the loop keeps in registers what it needs of each element, and counts only what a normal result can raise.
#[inline(always)]
fn normal_elements_of<S: Flagged, O: NormalOperation>(
    operation: O,
    calls: FormatCalls<S>,
    width: usize,
    xs: &[u8],
    ys: &[u8],
    zs: &[u8],
    count: usize,
    output: &mut [u8],
) -> ElementCounts
    requires format { S.PRECISION < S.BITS }
    requires kind { of_format (constants_of S.Flagged) ≡ flagged_kind_of calls.map.kind }
    requires operation { calls.map.operation ≡ OfTwo (O.arithmetic operation) }
    requires operands { AreOperands calls.map.kind width count xs.now ys.now zs.now output.old }
    requires few { width ≤ 16 }
    requires ys { length ys.now ≡ count * width }
    ensures { AreElements calls.map xs.now ys.now zs.now count output.new result }
{
    let round = calls.map.round;
    let mut counted = ElementCounts::NONE;
    for index in 0..count {
        let place = index * width;
        let x = number_in(xs, place, width);
        let y = number_in(ys, place, width);
        let target = &mut output[place..place + width];
        if let Some(normal) = operation.normal_in::<S>(x, y, round) {
            write_number(normal.bits, target);
            counted.count(Element {
                status: normal.status.bits() as u32,
                is_nan: false,
            });
        } else {
            let z = number_at(zs, place, width);
            counted.count(element_apart(calls, x, y, z, target));
        }
    }
    counted
}

/// `normal_elements_of` out of line. The fewest bytes are a constant of the format, so that the loop knows how many it
/// reads, and with arrays of one length one test of the place serves all.
#[inline(never)]
pub fn normal_elements<S: Flagged, O: NormalOperation>(
    operation: O,
    calls: FormatCalls<S>,
    width: usize,
    xs: &[u8],
    ys: &[u8],
    zs: &[u8],
    count: usize,
    output: &mut [u8],
) -> ElementCounts
    requires format { S.PRECISION < S.BITS }
    requires kind { of_format (constants_of S.Flagged) ≡ flagged_kind_of calls.map.kind }
    requires operation { calls.map.operation ≡ OfTwo (O.arithmetic operation) }
    requires operands { AreOperands calls.map.kind width count xs.now ys.now zs.now output.old }
    requires few { width ≤ 16 }
    ensures { AreElements calls.map xs.now ys.now zs.now count output.new result }
{
    let like = ys.len() == xs.len() && output.len() == xs.len();
    if like && width == S::BITS.div_ceil(8) {
        normal_elements_of(
            operation,
            calls,
            S::BITS.div_ceil(8),
            xs,
            ys,
            zs,
            count,
            output,
        )
    } else {
        elements_apart(calls, width, xs, ys, zs, count, output)
    }
}
