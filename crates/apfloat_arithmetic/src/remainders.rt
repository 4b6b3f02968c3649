//! Remainders: by the quotient truncated to an integer, and by the integer nearest to the quotient. Both are exact. The
//! rest is computed by many digits of the quotient at a time (`rest_of_moved`). If the subtractions are counted, each
//! iteration subtracts the greatest multiple of the divisor by a power of two that is not above the rest, so there is
//! one iteration for each digit of the quotient that is 1. The place of a significand is counted from that of the last
//! digit of the least number whose significand has all its digits.

ghost use Rattle.std.specs.Prelude.{◌≡◌, ℕ, ◌+◌, ◌-◌, ◌*◌, ◌/◌, ◌%◌, ◌^◌, ◌<◌, ◌≤◌, ◌⊎◌, false, eqb, count_ones, cond};
ghost use Rattle.std.specs.Prelude.{ℤ, pos, ◌≤ℤ◌, ◌+ℤ◌, ◌-ℤ◌};
ghost use Rattle.apfloat_model.specs.{declared.kinds.Round.Round, rounding.Bounds.place_bound};
ghost use Rattle.apfloat_model.specs.rounding.{Answer.IsAnswer, Rounding.ok_bits, Rounding.takes_above};
ghost use Rattle.apfloat_model.specs.arithmetic.Exponents.{IsIlogb};
ghost use Rattle.apfloat_model.specs.arithmetic.Remainders.{truncated_quotient, nearest_quotient, ones_of_quotient};
ghost use Rattle.apfloat_model.specs.arithmetic.Remainders.{rest_of, IsTruncatedRemainder, IsNearestRemainder};
ghost use Rattle.apfloat_rounding.specs.Shapes.{format_at};
ghost use Rattle.apfloat_rounding.specs.Stored.{IsNormal, IsStored, datum_at, quanta_of, GivesAt};
ghost use Rattle.apfloat_arithmetic.specs.{Magnitudes.units_of, Magnitudes.AreDivided, NumberResults.AreNormal};

use crate::classes::are_normal;
use crate::specials::{Operation, special};
use apfloat_model::{ExpInt, Status, StatusAnd};
use apfloat_rounding::shape::Shape;
use apfloat_rounding::unpacked::{Unpacked, from_quanta};
use apfloat_words::{MovedRest, digits, u128_moved_rest, word_moved_rest};

/// `significand * 2^place` units.
#[derive(Clone, Copy)]
struct Magnitude {
    significand: u128,
    place: u32,
}

/// The same magnitude with its digits moved up, to the precision or to the least place.
#[inline(always)]
fn moved_up_to(precision: u32, magnitude: Magnitude, least: u32) -> Magnitude
    requires precise { precision ≤ 125 }
    requires fits { magnitude.significand < 2 ^ precision }
    requires above { least ≤ magnitude.place }
    ensures same { units_of result ≡ units_of magnitude }
    ensures fits { result.significand < 2 ^ precision }
    ensures full { (result.place ≡ least) ⊎ (2 ^ (precision - 1) ≤ result.significand) }
    ensures least { least ≤ result.place }
    ensures lower { result.place ≤ magnitude.place }
{
    if magnitude.significand == 0 {
        return Magnitude {
            significand: 0,
            place: least,
        };
    }
    let free = precision - digits(magnitude.significand);
    let room = magnitude.place - least;
    let shift = if free < room { free } else { room };
    Magnitude {
        significand: magnitude.significand << shift,
        place: magnitude.place - shift,
    }
}

/// The rest after subtracting the greatest product of the divisor and a power of two that is not above it.
#[inline(always)]
fn less_multiple(rest: Magnitude, divisor: Magnitude) -> Magnitude
    requires narrow { rest.significand < 2 ^ 126 }
    requires close { rest.significand < 2 * divisor.significand }
    requires reaches { ((divisor.place < rest.place)
        × (divisor.significand ≤ 2 * rest.significand))
        ⊎ ((divisor.place ≡ rest.place) × (divisor.significand ≤ rest.significand)) }
    ensures taken { (result.significand + divisor.significand) * 2 ^ result.place
        ≡ units_of rest }
    ensures below { result.significand < divisor.significand }
    ensures least { divisor.place ≤ result.place }
{
    if rest.significand >= divisor.significand {
        Magnitude {
            significand: rest.significand - divisor.significand,
            place: rest.place,
        }
    } else {
        Magnitude {
            significand: 2 * rest.significand - divisor.significand,
            place: rest.place - 1,
        }
    }
}

/// The rest of a number, and the number of subtractions.
#[derive(Clone, Copy)]
struct Rest {
    magnitude: Magnitude,
    steps: u32,
}

/// The rest of `x` by a divisor, by single subtractions, which are counted.
fn rest_by(precision: u32, x: Magnitude, y: Magnitude) -> Rest
    requires operands { AreDivided precision x y }
    requires near { x.place ≤ place_bound }
    ensures rest { units_of result.magnitude ≡ units_of x % units_of y }
    ensures steps { result.steps ≡ count_ones (units_of x / units_of y) }
    ensures fits { result.magnitude.significand < 2 ^ precision }
    ensures low { result.magnitude.place ≤ y.place }
{
    if x.place < y.place {
        return Rest {
            magnitude: x,
            steps: 0,
        };
    }
    let mut steps: u32 = 0;
    let mut rest = x;
    while rest.place > y.place || rest.significand >= y.significand {
        let less = less_multiple(rest, y);
        steps += 1;
        if less.place == y.place {
            return Rest {
                magnitude: less,
                steps,
            };
        }
        rest = moved_up_to(precision, less, y.place);
    }
    Rest {
        magnitude: rest,
        steps,
    }
}

/// The rest of a number moved up, by the fastest division that can hold it.
#[inline(always)]
fn rest_of_moved(precision: u32, dividend: u128, divisor: u128, places: u32) -> MovedRest
    requires some { 0 < precision }
    requires precise { precision ≤ 125 }
    requires dividend_fits { dividend < 2 ^ precision }
    requires divisor_fits { divisor < 2 ^ precision }
    requires divisor_full { 2 ^ (precision - 1) ≤ divisor }
    ensures rest { result.rest ≡ dividend * 2 ^ places % divisor }
    ensures odd { result.odd ≡ eqb (dividend * 2 ^ places / divisor % 2) 1 }
{
    if precision <= 62 {
        word_moved_rest(dividend as u64, divisor as u64, places)
    } else {
        u128_moved_rest(dividend, divisor, places)
    }
}

/// The rest of a number, and whether the integral quotient is odd.
#[derive(Clone, Copy)]
struct Remaining {
    magnitude: Magnitude,
    odd: bool,
}

/// The rest of `x` by a divisor, and whether the integral quotient is odd.
#[inline(always)]
fn remaining_by(precision: u32, x: Magnitude, y: Magnitude) -> Remaining
    requires { AreDivided precision x y }
    ensures rest { units_of result.magnitude ≡ units_of x % units_of y }
    ensures odd { result.odd ≡ eqb (units_of x / units_of y % 2) 1 }
    ensures fits { result.magnitude.significand < 2 ^ precision }
    ensures low { result.magnitude.place ≤ y.place }
{
    if x.place < y.place {
        return Remaining {
            magnitude: x,
            odd: false,
        };
    }
    let left = rest_of_moved(precision, x.significand, y.significand, x.place - y.place);
    Remaining {
        magnitude: Magnitude {
            significand: left.rest,
            place: y.place,
        },
        odd: left.odd,
    }
}

/// Whether the multiple of the divisor above is the nearest, ties to even.
#[inline(always)]
fn is_upper_nearest(below_by: u128, above_by: u128, odd: bool) -> bool
    ensures { result ≡ takes_above Round.NearestTiesToEven false below_by above_by odd }
{
    above_by < below_by || (above_by == below_by && odd)
}

/// How far a number is from the nearest multiple of a divisor, and whether that multiple is above it.
#[derive(Clone, Copy)]
struct Nearest {
    magnitude: Magnitude,
    past: bool,
}

/// How far the nearest multiple of the divisor is from `x`, and whether it is above `x`.
fn nearest_by(precision: u32, x: Magnitude, y: Magnitude) -> Nearest
    requires operands { AreDivided precision x y }
    requires near { x.place ≤ place_bound }
    ensures past { let m = units_of x in let n = units_of y in
        result.past ≡ takes_above Round.NearestTiesToEven false (m % n) (n - m % n)
        (eqb (m / n % 2) 1) }
    ensures distance { let m = units_of x in let n = units_of y in
        units_of result.magnitude ≡ cond result.past (n - m % n) (m % n) }
    ensures fits { result.magnitude.significand < 2 ^ precision }
    ensures low { result.magnitude.place ≤ y.place }
{
    let rest = remaining_by(precision, x, y);
    let gap = y.place - rest.magnitude.place;
    // a number at least two places below the divisor is less than half of it
    if gap > 1 {
        return Nearest {
            magnitude: rest.magnitude,
            past: false,
        };
    }
    let divisor = if gap == 1 {
        2 * y.significand
    } else {
        y.significand
    };
    let other = divisor - rest.magnitude.significand;
    if is_upper_nearest(rest.magnitude.significand, other, rest.odd) {
        return Nearest {
            magnitude: Magnitude {
                significand: other,
                place: rest.magnitude.place,
            },
            past: true,
        };
    }
    Nearest {
        magnitude: rest.magnitude,
        past: false,
    }
}

/// An operand at its place.
#[inline(always)]
fn magnitude_of(shape: Shape, x: Unpacked) -> Magnitude
    requires { IsNormal shape x }
    ensures units { units_of result ≡ quanta_of shape x * 2 ^ (shape.precision - 1) }
    ensures significand { result.significand ≡ x.significand }
    ensures place { pos result.place
        ≡ ((x.exponent -ℤ shape.min_exp) +ℤ pos (shape.precision - 1)) }
    ensures near { result.place ≤ place_bound }
{
    Magnitude {
        significand: x.significand,
        place: (x.exponent - shape.min_exp + (shape.precision - 1) as ExpInt) as u32,
    }
}

/// The same magnitude in quanta, if it is an integral number of them.
#[inline(always)]
fn in_quanta(precision: u32, magnitude: Magnitude) -> Magnitude
    requires some { 0 < precision }
    requires precise { precision ≤ 125 }
    requires fits { magnitude.significand < 2 ^ precision }
    ensures fits { result.significand < 2 ^ precision }
    ensures lower { result.place ≤ magnitude.place }
    ensures same { (n : ℕ) → units_of magnitude ≡ n * 2 ^ (precision - 1) → units_of result ≡ n }
{
    let quantum = precision - 1;
    if magnitude.place > quantum {
        let high = moved_up_to(precision, magnitude, quantum);
        Magnitude {
            significand: high.significand,
            place: high.place - quantum,
        }
    } else {
        Magnitude {
            significand: magnitude.significand >> (quantum - magnitude.place),
            place: 0,
        }
    }
}

/// The rest of `x` after the quotient truncated to an integer, in quanta.
fn truncated_rest(shape: Shape, x: Unpacked, y: Unpacked) -> Magnitude
    requires { AreNormal shape x y }
    ensures fits { result.significand < 2 ^ shape.precision }
    ensures near { result.place ≤ place_bound }
    ensures quanta { units_of result ≡ quanta_of shape x % quanta_of shape y }
{
    let rest = remaining_by(
        shape.precision,
        magnitude_of(shape, x),
        magnitude_of(shape, y),
    );
    in_quanta(shape.precision, rest.magnitude)
}

/// The rest of `x` after the quotient truncated to an integer, in quanta, and the number of subtractions.
fn counted_rest(shape: Shape, x: Unpacked, y: Unpacked) -> Rest
    requires { AreNormal shape x y }
    ensures fits { result.magnitude.significand < 2 ^ shape.precision }
    ensures near { result.magnitude.place ≤ place_bound }
    ensures quanta { units_of result.magnitude ≡ quanta_of shape x % quanta_of shape y }
    ensures steps { result.steps
        ≡ count_ones (truncated_quotient (quanta_of shape x) (quanta_of shape y)) }
{
    let rest = rest_by(
        shape.precision,
        magnitude_of(shape, x),
        magnitude_of(shape, y),
    );
    Rest {
        magnitude: in_quanta(shape.precision, rest.magnitude),
        steps: rest.steps,
    }
}

/// How far the nearest multiple of `y` is from `x`, in quanta, and whether it is above `x`.
fn nearest_rest(shape: Shape, x: Unpacked, y: Unpacked) -> Nearest
    requires { AreNormal shape x y }
    ensures fits { result.magnitude.significand < 2 ^ shape.precision }
    ensures near { result.magnitude.place ≤ place_bound }
    ensures past { let m = quanta_of shape x in let n = quanta_of shape y in
        result.past ≡ takes_above Round.NearestTiesToEven false (m % n) (n - m % n)
        (eqb (m / n % 2) 1) }
    ensures quanta { let m = quanta_of shape x in let n = quanta_of shape y in
        units_of result.magnitude ≡ cond result.past (n - m % n) (m % n) }
{
    let number = magnitude_of(shape, x);
    let divisor = magnitude_of(shape, y);
    let nearest = nearest_by(shape.precision, number, divisor);
    Nearest {
        magnitude: in_quanta(shape.precision, nearest.magnitude),
        past: nearest.past,
    }
}

/// A remainder, and the number of subtractions that led to it.
#[derive(Clone, Copy)]
pub struct Remainder {
    /// The remainder, with its status.
    pub answer: StatusAnd<Unpacked>,
    /// How many products of the divisor and a power of two were subtracted.
    pub steps: u32,
}

/// The remainder of numbers by the quotient truncated to an integer, which is exact.
fn truncated_number(shape: Shape, x: Unpacked, y: Unpacked) -> StatusAnd<Unpacked>
    requires { AreNormal shape x y }
    ensures stored { IsStored shape result.value }
    ensures answer { let m = quanta_of shape x in let n = quanta_of shape y in
        GivesAt shape (IsAnswer (rest_of shape.nonfinite x.negative m
        (n * truncated_quotient m n)) ok_bits) result }
{
    let rest = truncated_rest(shape, x, y);
    Status::OK.and(from_quanta(shape, x.negative, rest.significand, rest.place))
}

/// The remainder of numbers by the truncated quotient, and the number of subtractions.
fn counted_number(shape: Shape, x: Unpacked, y: Unpacked) -> Remainder
    requires { AreNormal shape x y }
    ensures stored { IsStored shape result.answer.value }
    ensures answer { let m = quanta_of shape x in let n = quanta_of shape y in
        GivesAt shape (IsAnswer (rest_of shape.nonfinite x.negative m
        (n * truncated_quotient m n)) ok_bits) result.answer }
    ensures steps { result.steps
        ≡ count_ones (truncated_quotient (quanta_of shape x) (quanta_of shape y)) }
{
    let Rest { magnitude, steps } = counted_rest(shape, x, y);
    Remainder {
        answer: Status::OK.and(from_quanta(
            shape,
            x.negative,
            magnitude.significand,
            magnitude.place,
        )),
        steps,
    }
}

/// The remainder of numbers by the integer nearest to the quotient, which is exact.
#[inline(always)]
fn nearest_number(shape: Shape, x: Unpacked, y: Unpacked) -> StatusAnd<Unpacked>
    requires { AreNormal shape x y }
    ensures stored { IsStored shape result.value }
    ensures answer { let m = quanta_of shape x in let n = quanta_of shape y in
        GivesAt shape (IsAnswer (rest_of shape.nonfinite x.negative m
        (n * nearest_quotient m n)) ok_bits) result }
{
    let nearest = nearest_rest(shape, x, y);
    Status::OK.and(from_quanta(
        shape,
        x.negative != nearest.past,
        nearest.magnitude.significand,
        nearest.magnitude.place,
    ))
}

/// The remainder by the quotient truncated to an integer.
pub fn truncated_remainder(shape: Shape, x: Unpacked, y: Unpacked) -> StatusAnd<Unpacked>
    requires x { IsStored shape x }
    requires y { IsStored shape y }
    ensures stored { IsStored shape result.value }
    ensures delivered { GivesAt shape (IsTruncatedRemainder (format_at shape) (datum_at shape x)
        (datum_at shape y)) result }
{
    if are_normal(x, y) {
        truncated_number(shape, x, y)
    } else {
        special(shape, Operation::Remainder(x, y))
    }
}

/// The remainder by the quotient truncated to an integer, and the number of subtractions.
///
/// If an operand is a NaN or infinite, or the divisor is zero, nothing is subtracted.
pub fn counted_remainder(shape: Shape, x: Unpacked, y: Unpacked) -> Remainder
    requires x { IsStored shape x }
    requires y { IsStored shape y }
    ensures stored { IsStored shape result.answer.value }
    ensures delivered { GivesAt shape (IsTruncatedRemainder (format_at shape) (datum_at shape x)
        (datum_at shape y)) result.answer }
    ensures steps { result.steps ≡ ones_of_quotient (datum_at shape x) (datum_at shape y) }
    ensures few { (a b : ℤ) → IsIlogb (format_at shape) (datum_at shape x) a
        → IsIlogb (format_at shape) (datum_at shape y) b → 0 < result.steps
        → pos result.steps ≤ℤ ((a -ℤ b) +ℤ pos 1) }
{
    if are_normal(x, y) {
        counted_number(shape, x, y)
    } else {
        Remainder {
            answer: special(shape, Operation::Remainder(x, y)),
            steps: 0,
        }
    }
}

/// The remainder by the integer nearest to the quotient, ties to even (IEEE 754-2019 5.3.1).
#[inline(always)]
pub fn nearest_remainder(shape: Shape, x: Unpacked, y: Unpacked) -> StatusAnd<Unpacked>
    requires x { IsStored shape x }
    requires y { IsStored shape y }
    ensures stored { IsStored shape result.value }
    ensures delivered { GivesAt shape
        (IsNearestRemainder (format_at shape) (datum_at shape x) (datum_at shape y)) result }
{
    if are_normal(x, y) {
        nearest_number(shape, x, y)
    } else {
        special(shape, Operation::Remainder(x, y))
    }
}
