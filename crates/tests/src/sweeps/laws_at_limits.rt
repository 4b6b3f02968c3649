//! The laws of the calls for user-defined formats, with values at their limits. The functions in `laws` require nothing
//! of a format but its law.

ghost use Rattle.std.specs.Prelude.{◌<◌, ◌≤◌};
ghost use Rattle.rustc_apfloat.specs.Products.{product_limit};

use crate::asserts::same;
use crate::laws::{
    near_difference, opposite_products, sums_in_order, there_and_back, through_bits, through_value,
    up_and_down,
};
use crate::sweeps::calls::{
    is_nonzero_number, is_number, next_down, of_integer, quiet_nan, scaled,
};
use crate::sweeps::tables::MODES;
use commands::custom_formats::{
    BroadS, DeepS, FusedLimitS, LeastFiniteS, LeastS, PreciseS, ProductLimitS, SevenS, TenS, VastS,
    WrittenBitS,
};
use rustc_apfloat::ieee::{HalfS, IeeeFloat, NonfiniteBehavior, Semantics, TinyBefore};
use rustc_apfloat::{Float, Round, Status};
use std::process::Abort;

/// A value at a limit of a format.
#[derive(Clone, Copy)]
enum Limit {
    Zero,
    Smallest,
    SmallestNormalized,
    One,
    Largest,
    Infinity,
    QuietNan,
    SignalingNan,
}

/// Whether a value is a limit, or the next one above or below.
#[derive(Clone, Copy)]
enum Side {
    At,
    Above,
    Below,
}

/// A value at a limit, or next to one, and whether its sign is minus.
type Place = (Limit, Side, bool);

static PLACES: [Place; 24] = [
    (Limit::Zero, Side::At, false),
    (Limit::Zero, Side::At, true),
    (Limit::Smallest, Side::At, false),
    (Limit::Smallest, Side::At, true),
    (Limit::Smallest, Side::Above, false),
    (Limit::Smallest, Side::Above, true),
    (Limit::SmallestNormalized, Side::Below, false),
    (Limit::SmallestNormalized, Side::Below, true),
    (Limit::SmallestNormalized, Side::At, false),
    (Limit::SmallestNormalized, Side::At, true),
    (Limit::SmallestNormalized, Side::Above, false),
    (Limit::SmallestNormalized, Side::Above, true),
    (Limit::One, Side::At, false),
    (Limit::One, Side::At, true),
    (Limit::Largest, Side::Below, false),
    (Limit::Largest, Side::Below, true),
    (Limit::Largest, Side::At, false),
    (Limit::Largest, Side::At, true),
    (Limit::Infinity, Side::At, false),
    (Limit::Infinity, Side::At, true),
    (Limit::QuietNan, Side::At, false),
    (Limit::QuietNan, Side::At, true),
    (Limit::SignalingNan, Side::At, false),
    (Limit::SignalingNan, Side::At, true),
];

/// The positive value of a limit.
fn limit_of<S: Semantics>(limit: Limit) -> IeeeFloat<S> {
    match limit {
        Limit::Zero => IeeeFloat::zero(),
        Limit::Smallest => IeeeFloat::smallest(),
        Limit::SmallestNormalized => IeeeFloat::smallest_normalized(),
        Limit::One => of_integer(1).value,
        Limit::Largest => IeeeFloat::largest(),
        Limit::Infinity => IeeeFloat::infinity(),
        Limit::QuietNan => quiet_nan(),
        Limit::SignalingNan => IeeeFloat::snan(None),
    }
}

/// The value of a place.
fn value_at<S: Semantics>((limit, side, negative): Place) -> IeeeFloat<S> {
    let x = limit_of::<S>(limit);
    let x = match side {
        Side::At => x,
        Side::Above => x.next_up().value,
        Side::Below => next_down(x).value,
    };
    if negative { -x } else { x }
}

/// Whether a value is a positive number.
fn is_positive<S: Semantics>(x: IeeeFloat<S>) -> bool {
    is_number(x) & (x > IeeeFloat::zero())
}

/// Whether a number is at most twice another one.
fn is_at_most_twice<S: Semantics>(x: IeeeFloat<S>, y: IeeeFloat<S>) -> bool {
    !(x > scaled(y, 1))
}

/// Whether both are positive numbers, neither more than twice the other.
fn are_near<S: Semantics>(x: IeeeFloat<S>, y: IeeeFloat<S>) -> bool {
    is_positive(x) & is_positive(y) & is_at_most_twice(x, y) & is_at_most_twice(y, x)
}

/// The difference of near numbers is exact: added to the right one, it gives the left one.
fn check_difference<S: Semantics>(rt: &impl Abort, x: IeeeFloat<S>, y: IeeeFloat<S>) {
    if are_near(x, y) {
        for mode in MODES {
            let difference = near_difference(x, y, mode);
            let sum = difference.value.add_r(y, mode);
            let got = (difference.status, sum.status, sum.value == x);
            same(rt, got, (Status::OK, Status::OK, true), (x, y, mode));
        }
    }
}

/// Whether the format has infinities.
fn has_infinities<S: Semantics>() -> bool {
    S::NONFINITE_BEHAVIOR == NonfiniteBehavior::IEEE754
}

/// Whether both are numbers, the first at most the second.
fn are_in_order<S: Semantics>(x: IeeeFloat<S>, y: IeeeFloat<S>) -> bool {
    is_number(x) & is_number(y) & (x <= y)
}

/// In a format with infinities, adding a third number to two numbers keeps their order.
fn check_sums<S: Semantics>(rt: &impl Abort, x: IeeeFloat<S>, y: IeeeFloat<S>, z: IeeeFloat<S>) {
    if has_infinities::<S>() & are_in_order(x, y) & is_number(z) {
        for mode in MODES {
            let (left, right) = sums_in_order(x, y, z, mode);
            same(rt, left <= right, true, (x, y, z, mode));
        }
    }
}

/// The product with the negated left factor in the opposite mode is the negated product.
fn check_product<S: Semantics>(rt: &impl Abort, x: IeeeFloat<S>, y: IeeeFloat<S>)
    requires { S.PRECISION ≤ product_limit }
{
    if is_nonzero_number(x) & is_nonzero_number(y) {
        for mode in MODES {
            let (product, opposite) = opposite_products(x, y, mode);
            let agrees = opposite.value.bitwise_eq(-product.value);
            let got = (agrees, opposite.status);
            same(rt, got, (true, product.status), (x, y, mode));
        }
    }
}

/// A number is unchanged by conversion to a format and back, if the format `has_all` numbers, and otherwise if nothing
/// is lost.
fn check_conversion<S: Semantics, T: Semantics>(
    rt: &impl Abort,
    x: IeeeFloat<S>,
    mode: Round,
    has_all: bool,
) {
    let (back, lost) = there_and_back::<S, T>(x, mode);
    let got = (back.bitwise_eq(x) | lost, lost & has_all);
    same(rt, got, (true, false), (x, mode));
}

/// Conversion to the format with the most digits and the widest exponents and back, and to a format of three digits and
/// back.
fn check_conversions<S: Semantics>(rt: &impl Abort, x: IeeeFloat<S>) {
    if is_number(x) {
        for mode in MODES {
            check_conversion::<S, VastS>(rt, x, mode, true);
            check_conversion::<S, LeastS>(rt, x, mode, false);
        }
    }
}

/// The next value up, and then the next down.
fn check_steps<S: Semantics>(rt: &impl Abort, x: IeeeFloat<S>) {
    if has_infinities::<S>() & is_nonzero_number(x) {
        same(rt, up_and_down(x).bitwise_eq(x), true, x);
    }
}

/// A value written as bits and read back, and its bits read as a value and written back.
fn check_bits<S: Semantics>(rt: &impl Abort, x: IeeeFloat<S>)
    requires { S.PRECISION < S.BITS }
{
    let bits = x.to_bits();
    let got = (through_bits(x).bitwise_eq(x), through_value::<S>(bits));
    same(rt, got, (true, bits), x);
}

/// The laws on one, two and three values that hold in every format.
fn check_laws<S: Semantics>(rt: &impl Abort) {
    for left in &PLACES {
        let x = value_at::<S>(*left);
        check_steps(rt, x);
        check_conversions(rt, x);
        check_laws_beside(rt, x);
    }
}

/// The laws on two and three values, with `x` as the first.
fn check_laws_beside<S: Semantics>(rt: &impl Abort, x: IeeeFloat<S>) {
    for right in &PLACES {
        let y = value_at::<S>(*right);
        check_difference(rt, x, y);
        check_all_sums(rt, x, y);
    }
}

/// The law of sums, with each third value.
fn check_all_sums<S: Semantics>(rt: &impl Abort, x: IeeeFloat<S>, y: IeeeFloat<S>) {
    for third in &PLACES {
        check_sums(rt, x, y, value_at::<S>(*third));
    }
}

/// The law of products, for values at the limits.
fn check_products<S: Semantics>(rt: &impl Abort)
    requires { S.PRECISION ≤ product_limit }
{
    for left in &PLACES {
        check_all_products(rt, value_at::<S>(*left));
    }
}

/// The same, with `x` as the left factor.
fn check_all_products<S: Semantics>(rt: &impl Abort, x: IeeeFloat<S>)
    requires { S.PRECISION ≤ product_limit }
{
    for right in &PLACES {
        check_product(rt, x, value_at::<S>(*right));
    }
}

/// The laws of bits, for values at the limits.
fn check_values_and_bits<S: Semantics>(rt: &impl Abort)
    requires { S.PRECISION < S.BITS }
{
    for place in &PLACES {
        check_bits(rt, value_at::<S>(*place));
    }
}

/// All laws, for a format of at most 64 digits without bits.
fn check_without_bits<S: Semantics>(rt: &impl Abort)
    requires { S.PRECISION ≤ product_limit }
{
    check_laws::<S>(rt);
    check_products::<S>(rt);
}

/// All laws, for a format of at most 64 digits with bits.
fn check_with_bits<S: Semantics>(rt: &impl Abort)
    requires written { S.PRECISION < S.BITS }
    requires products { S.PRECISION ≤ product_limit }
{
    check_without_bits::<S>(rt);
    check_values_and_bits::<S>(rt);
}

#[test]
fn formats_without_bits(rt: HostRuntime) {
    check_without_bits::<LeastS>(&rt);
    check_without_bits::<LeastFiniteS>(&rt);
    check_without_bits::<DeepS>(&rt);
    check_without_bits::<ProductLimitS>(&rt);
    check_laws::<PreciseS>(&rt);
    check_laws::<VastS>(&rt);
}

#[test]
fn formats_with_bits(rt: HostRuntime) {
    check_with_bits::<SevenS>(&rt);
    check_with_bits::<FusedLimitS>(&rt);
    check_with_bits::<TinyBefore<HalfS>>(&rt);
    check_with_bits::<TenS>(&rt);
    check_with_bits::<WrittenBitS>(&rt);
    check_laws::<BroadS>(&rt);
    check_values_and_bits::<BroadS>(&rt);
}
