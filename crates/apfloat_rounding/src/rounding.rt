//! One rounding: turns any significand, with its unit and its loss, into a value of a format and a status.
//!
//! The problem: an exact result has any number of digits, and any exponent. A format keeps `precision` digits, fewer
//! for a denormal result, and nothing past its largest value. Rounding twice, to the precision and then to what a
//! denormal keeps, would give wrong results and wrong flags, so the result has to be cut once.
//!
//! The idea: the place of the lowest kept digit is known before anything is cut. It follows from the length of the
//! significand, its exponent and the format, and is never below the quantum, so denormals are not a special case. One
//! shift to that place leaves the kept digits and a rest, a `Cut`. A mode needs to know only how the rest compares with
//! zero and with half of the lowest kept digit. That is what a `Loss` says, and what the last two digits say of a
//! number that was rounded to odd with two more digits. The mode adds one to the kept digits, or does not; a carry to
//! the next power of two moves the place up by one. The grid point that is picked in this way determines everything
//! else: overflow if it is past the largest value, otherwise the value, exact or inexact, tiny or not. Only one
//! question needs one more digit: whether the magnitude would be below the smallest normalized value if exponents had
//! no lower end.
//!
//! Each `deliver` makes a cut of the caller's number, which is in a word, in a `u128`, or has a `Loss`, and `round`
//! rounds it. docs/ROUNDING.md has the picture.

ghost use Rattle.std.specs.Prelude.{◌≡◌, ℕ, ◌+◌, ◌-◌, ◌*◌, ◌/◌, ◌%◌, ◌^◌, ◌<◌, ◌≤◌, ◌⊎◌, eqb, ltb, pos, neg_ℤ, ◌≤ℤ◌};
ghost use Rattle.std.specs.Prelude.{◌+ℤ◌, if◌then◌else◌, true, false};
ghost use Rattle.apfloat_model.specs.rounding.{Flags.bits_of, Answer.IsAnswer};
ghost use Rattle.apfloat_model.specs.rounding.Bounds.{IsWithin, exponent_bound, unit_bound, place_bound};
ghost use Rattle.apfloat_model.specs.rounding.Standing.{StandsFor, IsFineEnough, IsFineFor, up, down};
ghost use Rattle.apfloat_model.specs.rounding.Enclosure.{rounds_up};
ghost use Rattle.apfloat_model.specs.rounding.Rounding.{points_away, ok_bits, overflow_bit, underflow_bit, inexact_bit};
ghost use Rattle.apfloat_model.specs.rounding.Rounding.{IsDelivered, leads_out, past_largest, raises_overflow};
ghost use Rattle.apfloat_model.specs.rounding.Rounding.{rounds_below_normal, is_tiny, signed_quanta};
ghost use Rattle.apfloat_model.specs.formats.{Format.largest, Format.nan_base, Datum.finite};
ghost use Rattle.apfloat_rounding.specs.{Shapes.format_at, Stored.IsStored, Stored.GivesAt, Stored.datum_at};
ghost use Rattle.apfloat_rounding.specs.Cuts.{IsCut, IsCutFinely, IsFineCut, loss_at};

mod denormal;
pub mod from_u128;
pub mod from_word;

use self::denormal::{cut_at_quantum, in_word};
use crate::exponents::unit_place;
use crate::shape::Shape;
use crate::unpacked::{
    Unpacked, from_few_quanta, from_full_quanta, from_rounded_quanta, infinity_of, largest_of,
};
use apfloat_model::{ExpInt, Flags, Loss, Round, Status, StatusAnd};
use apfloat_words::{digits, low_digits, power_of_two, shift_right};

/// `significand * 2^place` quanta, and the rest that was cut off below that, in units of which the lowest kept digit is
/// `2 * half`.
#[derive(Clone, Copy)]
struct Cut {
    significand: u128,
    place: u32,
    rest: u64,
    half: u64,
}

impl Cut {
    /// The same cut, rebuilt from its fields, for a call that takes it by address.
    #[inline(always)]
    fn remade(self) -> Cut
        ensures { result ≡ self }
    {
        Cut {
            significand: self.significand,
            place: self.place,
            rest: self.rest,
            half: self.half,
        }
    }
}

/// What is known about a cut before it is rounded, so that the compiler omits the cases that cannot occur.
#[derive(Clone, Copy)]
enum Known {
    /// The magnitude is at least the smallest normalized value, so that all digits of the format are kept.
    Normal,
    /// Nothing is known.
    Nothing,
}

/// Whether all digits of the format are known to be kept.
#[inline(always)]
fn surely_normal(known: Known) -> bool
    ensures { result ≡ true → known ≡ Known.Normal }
{
    match known {
        Known::Normal => true,
        Known::Nothing => false,
    }
}

/// The place of the lowest kept digit of a significand with `digits` digits at `unit`; places and units are counted
/// from the quantum.
#[inline(always)]
fn kept_place(precision: u32, digits: u32, unit: ExpInt) -> u32
    requires precise { precision ≤ 128 }
    requires short { digits ≤ 128 }
    requires within { IsWithin unit_bound unit }
    ensures near { result < place_bound }
    ensures covers { digits + up unit ≤ result + precision + down unit }
    ensures reached { (result ≡ 0) ⊎ (digits + up unit ≡ result + precision + down unit) }
{
    let top = digits as ExpInt + unit;
    if top > precision as ExpInt {
        (top - precision as ExpInt) as u32
    } else {
        0
    }
}

/// How far the place is above the unit.
#[inline(always)]
fn steps_up(unit: ExpInt, place: u32) -> u32
    requires above { unit ≤ℤ pos place }
    requires near { place ≤ place_bound }
    requires far { neg_ℤ (pos unit_bound) ≤ℤ unit }
    ensures { result + up unit ≡ place + down unit }
{
    (place as ExpInt - unit) as u32
}

/// How far the unit is above the place.
#[inline(always)]
fn steps_down(unit: ExpInt, place: u32) -> u32
    requires { pos place ≤ℤ unit }
    ensures { place + down unit + result ≡ up unit }
{
    (unit - place as ExpInt) as u32
}

/// A loss in quarters of the lowest kept digit, rounded to odd, as in the last two digits of a number that was rounded
/// to odd.
#[inline(always)]
fn quarters(loss: Loss) -> u64
    ensures few { result < 4 }
    ensures same { loss_at result 2 ≡ loss }
{
    match loss {
        Loss::ExactlyZero => 0,
        Loss::LessThanHalf => 1,
        Loss::ExactlyHalf => 2,
        Loss::MoreThanHalf => 3,
    }
}

/// Cuts a significand once, to the digits that a format keeps, with the rest in eighths of the lowest kept digit,
/// rounded to odd. The unit and the place of the result are counted from the quantum.
#[inline(always)]
fn keep(precision: u32, significand: u128, unit: ExpInt, loss: Loss) -> Cut
    requires some { 0 < precision }
    requires precise { precision ≤ 125 }
    requires within { IsWithin unit_bound unit }
    requires fine { IsFineEnough precision significand unit loss }
    ensures fits { result.significand < 2 ^ precision }
    ensures full { (result.place ≡ 0) ⊎ (2 ^ (precision - 1) ≤ result.significand) }
    ensures near { result.place < place_bound }
    ensures rest { result.rest < 2 * result.half }
    ensures cut { (amount parts : ℕ) → 0 < parts
        → StandsFor significand loss (amount * 2 ^ down unit) (parts * 2 ^ up unit)
        → IsCut precision result amount parts }
    ensures finely { IsFineEnough precision significand (unit +ℤ pos 1) loss
        → (amount parts : ℕ) → 0 < parts
        → StandsFor significand loss (amount * 2 ^ down unit) (parts * 2 ^ up unit)
        → IsCutFinely precision result amount parts }
{
    let place = kept_place(precision, digits(significand), unit);
    if unit > place as ExpInt {
        if significand == 0 {
            return Cut {
                significand: 0,
                place: 0,
                rest: 0,
                half: 4,
            };
        }
        return Cut {
            significand: significand << steps_down(unit, place),
            place,
            rest: 0,
            half: 4,
        };
    }
    let steps = steps_up(unit, place);
    if steps == 0 {
        return Cut {
            significand,
            place,
            rest: 2 * quarters(loss),
            half: 4,
        };
    }
    let halves = shift_right(significand, steps - 1, loss);
    Cut {
        significand: halves.significand / 2,
        place,
        rest: 4 * last_digit(halves.significand) + quarters(halves.loss),
        half: 4,
    }
}

/// The last binary digit of a number.
#[inline(always)]
fn last_digit(number: u128) -> u64
    ensures { result ≡ number % 2 }
{
    (number % 2) as u64
}

/// Whether a directed mode rounds a magnitude of this sign up, away from zero.
#[inline(always)]
fn is_outward(mode: Round, negative: bool) -> bool
    ensures { result ≡ points_away mode negative }
{
    ((mode == Round::TowardPositive) & !negative) | ((mode == Round::TowardNegative) & negative)
}

/// Whether the mode moves a significand up because of the rest below it, in units of which its last digit is
/// `2 * half`.
#[inline(always)]
pub fn moves_past(mode: Round, negative: bool, rest: u64, half: u64, odd: bool) -> bool
    requires { 0 < half }
    ensures { result ≡ rounds_up mode negative (loss_at rest half) odd }
{
    if mode == Round::NearestTiesToEven {
        return rest > half - u64::from(odd);
    }
    if mode == Round::NearestTiesToAway {
        return rest >= half;
    }
    is_outward(mode, negative) & (rest != 0)
}

/// Whether the mode moves a significand up because of the loss below it.
#[inline(always)]
pub fn moves_up(mode: Round, negative: bool, loss: Loss, odd: bool) -> bool
    ensures { result ≡ rounds_up mode negative loss odd }
{
    moves_past(mode, negative, quarters(loss), 2, odd)
}

/// The kept digits, or the next number after them, as the mode picks.
#[inline(always)]
fn pick(precision: u32, cut: Cut, mode: Round, negative: bool) -> u128
    requires precise { precision ≤ 125 }
    requires fits { cut.significand < 2 ^ precision }
    requires rest { cut.rest < 2 * cut.half }
    ensures value { result ≡ (if rounds_up mode negative (loss_at cut.rest cut.half)
        (eqb (cut.significand % 2) 1) then cut.significand + 1 else cut.significand) }
    ensures bound { result ≤ cut.significand + 1 }
    ensures above { cut.significand ≤ result }
{
    let odd = cut.significand % 2 == 1;
    let moved = moves_past(mode, negative, cut.rest, cut.half, odd);
    next_if(precision, cut.significand, moved)
}

/// The next word if `moved`, otherwise the word itself.
#[inline(always)]
pub fn next_word_if(word: u64, moved: bool) -> u64
    requires { word < 2 ^ 63 }
    ensures { result ≡ (if moved then word + 1 else word) }
{
    if moved { word + 1 } else { word }
}

/// A significand of at most 63 digits as a word.
#[inline(always)]
fn as_word(precision: u32, significand: u128) -> u64
    requires short { precision ≤ 63 }
    requires fits { significand < 2 ^ precision }
    ensures same { result ≡ significand }
    ensures room { result < 2 ^ 63 }
{
    significand as u64
}

/// The next significand if `moved`, otherwise the significand itself. In a format of at most 63 digits it is rebuilt
/// from one word, so that the compiler computes with one word only.
#[inline(always)]
fn next_if(precision: u32, significand: u128, moved: bool) -> u128
    requires precise { precision ≤ 125 }
    requires fits { significand < 2 ^ precision }
    ensures value { result ≡ (if moved then significand + 1 else significand) }
    ensures bound { result ≤ significand + 1 }
    ensures above { significand ≤ result }
{
    if precision <= 63 {
        return u128::from(next_word_if(as_word(precision, significand), moved));
    }
    if moved { significand + 1 } else { significand }
}

/// A grid point, `significand * 2^place` quanta.
#[derive(Clone, Copy)]
struct Point {
    significand: u128,
    place: u32,
}

/// The point of a significand that was picked; a carry to the next power of two moves the place.
#[inline(always)]
fn carried(precision: u32, significand: u128, place: u32) -> Point
    requires some { 0 < precision }
    requires precise { precision ≤ 125 }
    requires fits { significand ≤ 2 ^ precision }
    requires near { place < place_bound }
    ensures value { result.significand * 2 ^ result.place ≡ significand * 2 ^ place }
    ensures fits { result.significand < 2 ^ precision }
    ensures full { 2 ^ (precision - 1) ≤ significand → 2 ^ (precision - 1) ≤ result.significand }
    ensures near { result.place ≤ place_bound }
{
    if significand == power_of_two(precision) {
        Point {
            significand: power_of_two(precision - 1),
            place: place + 1,
        }
    } else {
        Point { significand, place }
    }
}

/// Whether `significand * 2^place` quanta are past the largest value.
#[inline(always)]
pub fn is_past(shape: Shape, significand: u128, place: u32) -> bool
    requires fits { significand < 2 ^ shape.precision }
    requires full { (place ≡ 0) ⊎ (2 ^ (shape.precision - 1) ≤ significand) }
    ensures { result ≡ ltb (largest (format_at shape)) (significand * 2 ^ place) }
{
    let span = shape.span();
    let greatest = shape.greatest_significand();
    if place == span {
        significand > greatest
    } else {
        place > span
    }
}

/// Whether the mode rounds past the largest value, out of the format.
#[inline(always)]
pub fn leads_past(mode: Round, negative: bool) -> bool
    ensures { result ≡ leads_out mode negative }
{
    match mode {
        Round::TowardPositive => !negative,
        Round::TowardNegative => negative,
        Round::NearestTiesToEven => true,
        Round::NearestTiesToAway => true,
        Round::TowardZero => false,
    }
}

/// Whether the magnitude, rounded with an unbounded exponent, is below the smallest normalized value. If the kept
/// digits are all ones, just below it, and more than half a quantum was cut off, the part of the rest past that half
/// decides, compared with the distance to a whole quantum. Kept out of line: built-in formats never call it.
#[cold]
#[inline(never)]
fn rounds_below_normal(shape: Shape, cut: Cut, mode: Round, negative: bool) -> bool
    requires rest { cut.rest < 2 * cut.half }
    ensures { (amount parts : ℕ) → 0 < parts → IsCut shape.precision cut amount parts
        → IsCutFinely shape.precision cut amount parts
        → rounds_below_normal shape.precision mode negative amount parts ≡ result }
{
    let last = shape.integer_bit() - 1;
    if cut.significand != last {
        return cut.significand < last;
    }
    if cut.rest <= cut.half {
        return true;
    }
    let past_half = cut.rest - cut.half;
    !moves_past(mode, negative, past_half, cut.half - past_half, true)
}

/// Whether an inexact result counts as tiny: judged before rounding, after it, or after rounding with an unbounded
/// exponent.
#[inline(always)]
fn is_tiny(shape: Shape, known: Known, cut: Cut, after: u128, mode: Round, negative: bool) -> bool
    requires rest { cut.rest < 2 * cut.half }
    requires normal { known ≡ Known.Normal → 2 ^ (shape.precision - 1) ≤ cut.significand }
    requires above { cut.significand ≤ after }
    ensures { (amount parts : ℕ) → 0 < parts → IsCut shape.precision cut amount parts
        → IsFineCut (format_at shape) cut amount parts
        → (cut.place ≡ 0) ⊎ (2 ^ (shape.precision - 1) ≤ after)
        → is_tiny (format_at shape) mode negative amount parts (after * 2 ^ cut.place) ≡ result }
{
    if surely_normal(known) {
        return false;
    }
    if shape.tiny_before_rounding {
        return cut.significand < shape.integer_bit();
    }
    if shape.ieee_flags {
        return rounds_below_normal(shape.remade(), cut.remade(), mode, negative);
    }
    after < shape.integer_bit()
}

/// The result of a rounding past the largest value.
#[inline(always)]
fn overflowed(shape: Shape, mode: Round, negative: bool) -> StatusAnd<Unpacked>
    ensures stored { IsStored shape result.value }
    ensures answer { GivesAt shape (IsAnswer (if leads_out mode negative
        then past_largest shape.nonfinite (nan_base (format_at shape)) negative
        else finite negative (largest (format_at shape)))
        (if raises_overflow (format_at shape) mode negative
        then overflow_bit + inexact_bit else inexact_bit)) result }
{
    if leads_past(mode, negative) {
        return Status::OVERFLOW
            .union(Status::INEXACT)
            .and(infinity_of(shape, negative));
    }
    let status = if shape.ieee_flags {
        Status::OVERFLOW.union(Status::INEXACT)
    } else {
        Status::INEXACT
    };
    status.and(largest_of(shape, negative))
}

/// The status of a rounding within the format that cuts off a rest.
#[inline(always)]
fn status_within(rest: u64, tiny: bool) -> Status
    ensures exact { rest ≡ 0 → bits_of result ≡ ok_bits }
    ensures inexact { (rest ≡ 0 → ⊥)
        → bits_of result ≡ (if tiny then underflow_bit + inexact_bit else inexact_bit) }
{
    if rest == 0 {
        Status::OK
    } else if tiny {
        Status::UNDERFLOW.union(Status::INEXACT)
    } else {
        Status::INEXACT
    }
}

/// Whether a significand that was picked is within the format without further adjustment: its place is below the
/// greatest one, and there is no carry, which would move the place.
#[inline(always)]
fn stays_within(shape: Shape, significand: u128, place: u32) -> bool
    requires fits { significand ≤ 2 ^ shape.precision }
    requires full { (place ≡ 0) ⊎ (2 ^ (shape.precision - 1) ≤ significand) }
    ensures fits { result ≡ true → significand < 2 ^ shape.precision }
    ensures within { result ≡ true → significand * 2 ^ place ≤ largest (format_at shape) }
    ensures full { result ≡ false → 2 ^ (shape.precision - 1) ≤ significand }
{
    if place >= shape.span() {
        return false;
    }
    significand != power_of_two(shape.precision)
}

/// `significand * 2^place` quanta with that sign, built according to what is known about them.
#[inline(always)]
fn value_of(shape: Shape, known: Known, negative: bool, significand: u128, place: u32) -> Unpacked
    requires fits { significand < 2 ^ shape.precision }
    requires near { place ≤ place_bound }
    requires within { significand * 2 ^ place ≤ largest (format_at shape) }
    requires normal { known ≡ Known.Normal → 2 ^ (shape.precision - 1) ≤ significand }
    ensures stored { IsStored shape result }
    ensures datum { datum_at shape result
        ≡ signed_quanta shape.nonfinite negative (significand * 2 ^ place) }
{
    match known {
        Known::Normal => from_full_quanta(shape, negative, significand, place),
        Known::Nothing => from_rounded_quanta(shape, negative, significand, place),
    }
}

/// The significand that a mode picks for a cut, and its status if the result is within the format.
#[derive(Clone, Copy)]
struct Picked {
    significand: u128,
    tiny: bool,
    status: Status,
}

/// Picks the kept digits or the next number after them, with the status of a rounding within the format.
#[inline(always)]
fn pick_with_status(shape: Shape, known: Known, cut: Cut, mode: Round, negative: bool) -> Picked
    requires fits { cut.significand < 2 ^ shape.precision }
    requires rest { cut.rest < 2 * cut.half }
    requires normal { known ≡ Known.Normal → 2 ^ (shape.precision - 1) ≤ cut.significand }
    ensures value { result.significand ≡ (if rounds_up mode negative (loss_at cut.rest cut.half)
        (eqb (cut.significand % 2) 1) then cut.significand + 1 else cut.significand) }
    ensures bound { result.significand ≤ cut.significand + 1 }
    ensures above { cut.significand ≤ result.significand }
    ensures tiny { (amount parts : ℕ) → 0 < parts → IsCut shape.precision cut amount parts
        → IsFineCut (format_at shape) cut amount parts
        → (cut.place ≡ 0) ⊎ (2 ^ (shape.precision - 1) ≤ result.significand)
        → is_tiny (format_at shape) mode negative amount parts (result.significand * 2 ^ cut.place)
        ≡ result.tiny }
    ensures exact { cut.rest ≡ 0 → bits_of result.status ≡ ok_bits }
    ensures inexact { (cut.rest ≡ 0 → ⊥) → bits_of result.status
        ≡ (if result.tiny then underflow_bit + inexact_bit else inexact_bit) }
{
    let significand = pick(shape.precision, cut, mode, negative);
    let tiny = is_tiny(shape, known, cut, significand, mode, negative);
    Picked {
        significand,
        tiny,
        status: status_within(cut.rest, tiny),
    }
}

/// That many quanta with that sign, at most the smallest normalized value.
#[inline(always)]
fn value_below(shape: Shape, negative: bool, quanta: u128) -> Unpacked
    requires short { shape.precision ≤ 62 }
    requires few { quanta ≤ 2 ^ (shape.precision - 1) }
    ensures stored { IsStored shape result }
    ensures datum { datum_at shape result ≡ signed_quanta shape.nonfinite negative quanta }
{
    from_few_quanta(shape, negative, quanta as u64)
}

/// Rounds a cut below the smallest normalized value, where no result is past the largest value.
#[inline(always)]
fn round_below(shape: Shape, cut: Cut, mode: Round, negative: bool) -> StatusAnd<Unpacked>
    requires short { shape.precision ≤ 62 }
    requires fits { cut.significand < 2 ^ (shape.precision - 1) }
    requires place { cut.place ≡ 0 }
    requires rest { cut.rest < 2 * cut.half }
    ensures stored { IsStored shape result.value }
    ensures delivered { (amount parts : ℕ) → 0 < parts → IsCut shape.precision cut amount parts
        → IsFineCut (format_at shape) cut amount parts
        → GivesAt shape (IsDelivered (format_at shape) mode negative amount parts) result }
{
    let picked = pick_with_status(shape, Known::Nothing, cut, mode, negative);
    let value = value_below(shape, negative, picked.significand);
    picked.status.and(value)
}

/// Rounds a cut to a value of the format.
#[inline(always)]
fn round(shape: Shape, known: Known, cut: Cut, mode: Round, negative: bool) -> StatusAnd<Unpacked>
    requires fits { cut.significand < 2 ^ shape.precision }
    requires full { (cut.place ≡ 0) ⊎ (2 ^ (shape.precision - 1) ≤ cut.significand) }
    requires near { cut.place < place_bound }
    requires rest { cut.rest < 2 * cut.half }
    requires normal { known ≡ Known.Normal → 2 ^ (shape.precision - 1) ≤ cut.significand }
    ensures stored { IsStored shape result.value }
    ensures delivered { (amount parts : ℕ) → 0 < parts → IsCut shape.precision cut amount parts
        → IsFineCut (format_at shape) cut amount parts
        → GivesAt shape (IsDelivered (format_at shape) mode negative amount parts) result }
{
    let picked = pick_with_status(shape, known, cut, mode, negative);
    let status = picked.status;
    if stays_within(shape, picked.significand, cut.place) {
        return status.and(value_of(shape, known, negative, picked.significand, cut.place));
    }
    let point = carried(shape.precision, picked.significand, cut.place);
    if is_past(shape, point.significand, point.place) {
        return overflowed(shape, mode, negative);
    }
    status.and(from_full_quanta(shape, negative, point.significand, point.place))
}

/// Delivers `significand * 2^exponent`, with `loss` below its last digit, rounded once.
///
/// If something was lost below, the unit must be fine enough to divide the spacing of the format there: it is at most
/// the quantum, or the significand has all digits of the format. Where tininess is judged with an unbounded exponent,
/// the bound is half a quantum instead of the quantum.
#[inline(always)]
pub fn deliver(
    shape: Shape,
    significand: u128,
    exponent: ExpInt,
    loss: Loss,
    mode: Round,
    negative: bool,
) -> StatusAnd<Unpacked>
    requires within { IsWithin exponent_bound exponent }
    requires fine { IsFineFor (format_at shape) significand
        (exponent +ℤ pos (format_at shape).scale) loss }
    ensures stored { IsStored shape result.value }
    ensures delivered { let unit = exponent +ℤ pos (format_at shape).scale in (amount parts : ℕ)
        → 0 < parts → StandsFor significand loss (amount * 2 ^ down unit) (parts * 2 ^ up unit)
        → GivesAt shape (IsDelivered (format_at shape) mode negative amount parts) result }
{
    let unit = unit_place(shape, exponent);
    let cut = keep(shape.precision, significand, unit, loss);
    round(shape, Known::Nothing, cut, mode, negative)
}

/// The result of `deliver`. Kept out of line, for results that are rare.
#[cold]
#[inline(never)]
fn deliver_any(
    shape: Shape,
    significand: u128,
    exponent: ExpInt,
    loss: Loss,
    mode: Round,
    negative: bool,
) -> StatusAnd<Unpacked>
    requires within { IsWithin exponent_bound exponent }
    requires fine { IsFineFor (format_at shape) significand
        (exponent +ℤ pos (format_at shape).scale) loss }
    ensures stored { IsStored shape result.value }
    ensures delivered { let unit = exponent +ℤ pos (format_at shape).scale in (amount parts : ℕ)
        → 0 < parts → StandsFor significand loss (amount * 2 ^ down unit) (parts * 2 ^ up unit)
        → GivesAt shape (IsDelivered (format_at shape) mode negative amount parts) result }
{
    deliver(shape, significand, exponent, loss, mode, negative)
}

// Most results have all digits of their format. If the number of digits of the significand is known as well, as for a
// number that is converted, the cut is always at the same digit, and no branch is needed: comparisons of the rest that
// is cut off decide, without the four cases of a `Loss`.

/// The place of the lowest kept digit, if all digits of the precision are kept.
#[inline(always)]
fn full_place(precision: u32, digits: u32, unit: ExpInt) -> u32
    requires precise { precision ≤ 125 }
    requires short { digits ≤ 128 }
    requires within { IsWithin unit_bound unit }
    requires above { pos precision ≤ℤ (unit +ℤ pos digits) }
    ensures near { result < place_bound }
    ensures reached { digits + up unit ≡ result + precision + down unit }
{
    (unit + digits as ExpInt - precision as ExpInt) as u32
}

/// The digits that are kept, and the rest that is cut off below them, in units of which the lowest kept digit is
/// `2 * half`. In these units a rest fits in one word: if it has more than 64 digits, the lowest 64 matter only by
/// whether they are all zero.
#[derive(Clone, Copy)]
struct Pieces {
    kept: u128,
    rest: u64,
    half: u64,
}

/// 2 to the power of `exponent`, in a word.
#[inline(always)]
pub fn word_power(exponent: u32) -> u64
    requires { exponent < 64 }
    ensures { result ≡ 2 ^ exponent }
{
    1 << exponent
}

/// The lowest `places` binary digits of a word.
#[inline(always)]
pub fn low_of_word(word: u64, places: u32) -> u64
    requires { places < 64 }
    ensures { result ≡ word % 2 ^ places }
{
    word & (word_power(places) - 1)
}

/// A significand of one word without its `places` lowest digits.
#[inline(always)]
fn split_word(significand: u128, places: u32) -> Pieces
    requires some { 0 < places }
    requires short { places < 64 }
    requires fits { significand < 2 ^ 64 }
    ensures kept { result.kept ≡ significand / 2 ^ places }
    ensures below { result.rest < 2 * result.half }
    ensures rest { loss_at result.rest result.half
        ≡ loss_at (significand % 2 ^ places) (2 ^ (places - 1)) }
{
    let word = significand as u64;
    Pieces {
        kept: u128::from(word >> places),
        rest: low_of_word(word, places),
        half: word_power(places - 1),
    }
}

/// A significand without its `places` lowest digits, which have at most one word.
#[inline(always)]
fn split_low(significand: u128, places: u32) -> Pieces
    requires some { 0 < places }
    requires short { places ≤ 64 }
    ensures kept { result.kept ≡ significand / 2 ^ places }
    ensures below { result.rest < 2 * result.half }
    ensures rest { loss_at result.rest result.half
        ≡ loss_at (significand % 2 ^ places) (2 ^ (places - 1)) }
{
    Pieces {
        kept: significand >> places,
        rest: low_digits(significand, places) as u64,
        half: word_power(places - 1),
    }
}

/// 0 for 0, and 1 for every other number.
#[inline(always)]
fn one_if_some(number: u128) -> u64
    ensures none { number ≡ 0 → result ≡ 0 }
    ensures some { 0 < number → result ≡ 1 }
    ensures bound { result ≤ 1 }
{
    if number == 0 { 0 } else { 1 }
}

/// A significand without its `places` lowest digits, which have more than one word.
#[inline(always)]
fn split_high(significand: u128, places: u32) -> Pieces
    requires long { 64 < places }
    requires short { places < 128 }
    ensures kept { result.kept ≡ significand / 2 ^ places }
    ensures below { result.rest < 2 * result.half }
    ensures rest { loss_at result.rest result.half
        ≡ loss_at (significand % 2 ^ places) (2 ^ (places - 1)) }
{
    let upper = (significand >> 64) as u64;
    Pieces {
        kept: u128::from(upper >> (places - 64)),
        rest: 2 * low_of_word(upper, places - 64) + one_if_some(low_digits(significand, 64)),
        half: word_power(places - 64),
    }
}

/// A significand with `digits` digits without its `places` lowest ones.
#[inline(always)]
fn split(significand: u128, digits: u32, places: u32) -> Pieces
    requires some { 0 < places }
    requires below { places < digits }
    requires short { digits ≤ 128 }
    requires fits { significand < 2 ^ digits }
    ensures kept { result.kept ≡ significand / 2 ^ places }
    ensures below { result.rest < 2 * result.half }
    ensures rest { loss_at result.rest result.half
        ≡ loss_at (significand % 2 ^ places) (2 ^ (places - 1)) }
{
    if digits <= 64 {
        split_word(significand, places)
    } else if places <= 64 {
        split_low(significand, places)
    } else {
        split_high(significand, places)
    }
}

/// Cuts a significand with `digits` digits to the precision.
#[inline(always)]
fn cut_counted_u128(precision: u32, significand: u128, digits: u32, unit: ExpInt) -> Cut
    requires some { 0 < precision }
    requires precise { precision ≤ 125 }
    requires long { precision < digits }
    requires short { digits ≤ 128 }
    requires fits { significand < 2 ^ digits }
    requires full { 2 ^ (digits - 1) ≤ significand }
    requires within { IsWithin unit_bound unit }
    requires above { pos precision ≤ℤ (unit +ℤ pos digits) }
    ensures fits { result.significand < 2 ^ precision }
    ensures full { 2 ^ (precision - 1) ≤ result.significand }
    ensures near { result.place < place_bound }
    ensures rest { result.rest < 2 * result.half }
    ensures cut { (amount parts : ℕ) → 0 < parts
        → StandsFor significand Loss.ExactlyZero (amount * 2 ^ down unit) (parts * 2 ^ up unit)
        → IsCut precision result amount parts }
{
    let pieces = split(significand, digits, digits - precision);
    Cut {
        significand: pieces.kept,
        place: full_place(precision, digits, unit),
        rest: pieces.rest,
        half: pieces.half,
    }
}

/// Delivers `significand * 2^exponent`, rounded once. The significand has exactly `digits` digits. The result is that
/// of `deliver` with nothing lost; this is faster if the number of digits is a constant.
#[inline(always)]
pub fn deliver_counted_u128(
    shape: Shape,
    significand: u128,
    digits: u32,
    exponent: ExpInt,
    mode: Round,
    negative: bool,
) -> StatusAnd<Unpacked>
    requires within { IsWithin exponent_bound exponent }
    requires short { digits ≤ 128 }
    requires fits { significand < 2 ^ digits }
    requires full { 2 ^ (digits - 1) ≤ significand }
    ensures stored { IsStored shape result.value }
    ensures delivered { let unit = exponent +ℤ pos (format_at shape).scale in (amount parts : ℕ)
        → 0 < parts
        → StandsFor significand Loss.ExactlyZero (amount * 2 ^ down unit) (parts * 2 ^ up unit)
        → GivesAt shape (IsDelivered (format_at shape) mode negative amount parts) result }
{
    let unit = unit_place(shape, exponent);
    if digits > shape.precision {
        if unit + digits as ExpInt >= shape.precision as ExpInt {
            let cut = cut_counted_u128(shape.precision, significand, digits, unit);
            return round(shape, Known::Normal, cut, mode, negative);
        }
        if shape.precision <= 59 {
            let cut = cut_at_quantum(shape.precision, in_word(significand, digits, unit));
            return round_below(shape, cut, mode, negative);
        }
    }
    deliver(
        shape,
        significand,
        exponent,
        Loss::ExactlyZero,
        mode,
        negative,
    )
}
