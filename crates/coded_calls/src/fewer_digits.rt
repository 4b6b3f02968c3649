//! Results with fewer digits than the format x87 has: what the precision control of its unit asks for.

ghost use Rattle.std.specs.Prelude.{◌≡◌, ◌<◌};
ghost use Rattle.rustc_apfloat.specs.FlaggedTypes.{constants_of, format_of};
ghost use Rattle.coded_calls.specs.FewerDigits.{IsShorter, IsYielded, exact_in, exact_of, exact_of_two, widened};
ghost use Rattle.coded_calls.specs.FewerDigits.{exact_of_any, exact_of_three};
ghost use Rattle.coded_calls.specs.declared.machine_call.MachineOperation.TheVariants.{OfTwo, SquareRoot};

use crate::ieee_answers::value;
use crate::machine_call::{MachineCall, MachineOperation};
use crate::usual_operands::{are_usual, are_usual_of_three, is_root_of};
use formats_at_run_time::Arithmetic;
use rustc_apfloat::ieee::{Flagged, IeeeFloat};
use rustc_apfloat::{Float, FloatConvert, Round, StatusAnd};

/// A precision with fewer digits than the format x87 has.
#[derive(Clone, Copy)]
pub enum Precision {
    /// The 24 digits of binary32.
    Single,
    /// The 53 digits of binary64.
    Double,
}

/// An operation whose digits the precision control counts, rounded once to the format `T`.
fn of_two<S: Flagged, T: Flagged>(
    arithmetic: Arithmetic,
    x: IeeeFloat<S>,
    y: IeeeFloat<S>,
    round: Round,
) -> Option<StatusAnd<IeeeFloat<T>>>
    ensures { let g = format_of T.Flagged in
        IsYielded g round (exact_of_two (format_of S.Flagged) g arithmetic x y) result }
{
    match arithmetic {
        Arithmetic::Sum => Some(x.add_to::<T>(y, round)),
        Arithmetic::Difference => Some(x.sub_to::<T>(y, round)),
        Arithmetic::Product => Some(x.mul_to::<T>(y, round)),
        Arithmetic::Quotient => Some(x.div_to::<T>(y, round)),
        Arithmetic::NearestRemainder => None,
        Arithmetic::TruncatedRemainder => None,
    }
}

/// The same of two values by their bits, if every machine gives the plain result of them.
fn two_rounded_to<S: Flagged, T: Flagged>(
    arithmetic: Arithmetic,
    x: u128,
    y: u128,
    round: Round,
) -> Option<StatusAnd<IeeeFloat<T>>>
    requires { S.PRECISION < S.BITS }
    ensures { let g = format_of T.Flagged in
        IsYielded g round (exact_in (constants_of S.Flagged) g (OfTwo arithmetic x y)) result }
{
    let (first, second) = (value::<S>(x), value::<S>(y));
    if are_usual::<S>(arithmetic, x, y) {
        of_two(arithmetic, first, second, round)
    } else {
        None
    }
}

/// The same of a square root.
fn root_rounded_to<S: Flagged, T: Flagged>(x: u128, round: Round) -> Option<StatusAnd<IeeeFloat<T>>>
    requires { S.PRECISION < S.BITS }
    ensures { let g = format_of T.Flagged in
        IsYielded g round (exact_in (constants_of S.Flagged) g (SquareRoot x)) result }
{
    let radicand = value::<S>(x);
    if is_root_of::<S>(x) {
        Some(radicand.sqrt_to::<T>(round))
    } else {
        None
    }
}

/// The same of an operation.
fn operation_rounded_to<S: Flagged, T: Flagged>(
    operation: MachineOperation,
    round: Round,
) -> Option<StatusAnd<IeeeFloat<T>>>
    requires { S.PRECISION < S.BITS }
    ensures { let g = format_of T.Flagged in
        IsYielded g round (exact_in (constants_of S.Flagged) g operation) result }
{
    match operation {
        MachineOperation::OfTwo(arithmetic, x, y) => {
            two_rounded_to::<S, T>(arithmetic, x, y, round)
        }
        MachineOperation::SquareRoot(x) => root_rounded_to::<S, T>(x, round),
        _ => None,
    }
}

/// The same of a call.
pub fn rounded_to<S: Flagged, T: Flagged>(
    call: MachineCall,
    round: Round,
) -> Option<StatusAnd<IeeeFloat<T>>>
    requires { S.PRECISION < S.BITS }
    ensures { let g = format_of T.Flagged in
        IsYielded g round (exact_of (constants_of S.Flagged) g call) result }
{
    match call {
        MachineCall::Operation(operation) => operation_rounded_to::<S, T>(operation, round),
        MachineCall::Conversion(_, _) => None,
    }
}

/// The same of a fused sum of three values by their bits.
fn fused_rounded_to<S: Flagged, T: Flagged>(
    x: u128,
    y: u128,
    z: u128,
    round: Round,
) -> Option<StatusAnd<IeeeFloat<T>>>
    requires { S.PRECISION < S.BITS }
    ensures { let g = format_of T.Flagged in
        IsYielded g round (exact_of_three (constants_of S.Flagged) g x y z) result }
{
    let (first, second, third) = (value::<S>(x), value::<S>(y), value::<S>(z));
    if are_usual_of_three::<S>(x, y, z) {
        Some(first.mul_add_to::<T>(second, third, round))
    } else {
        None
    }
}

/// The same of a call that may be a fused sum too.
pub fn any_rounded_to<S: Flagged, T: Flagged>(
    call: MachineCall,
    round: Round,
) -> Option<StatusAnd<IeeeFloat<T>>>
    requires { S.PRECISION < S.BITS }
    ensures { let g = format_of T.Flagged in
        IsYielded g round (exact_of_any (constants_of S.Flagged) g call) result }
{
    match call {
        MachineCall::Operation(MachineOperation::FusedSum(x, y, z)) => {
            fused_rounded_to::<S, T>(x, y, z, round)
        }
        _ => rounded_to::<S, T>(call, round),
    }
}

/// A value in a format that has as many digits or more, and the same exponents.
pub fn widened<T: Flagged, S: Flagged>(x: IeeeFloat<T>) -> IeeeFloat<S>
    ensures { let g = format_of T.Flagged in let f = format_of S.Flagged in
        IsShorter g f → result ≡ widened g f x }
{
    let _ = x.category();
    let mut loses_info = false;
    let wide: StatusAnd<IeeeFloat<S>> = x.convert_r(Round::TowardZero, &mut loses_info);
    wide.value
}
