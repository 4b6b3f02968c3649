//! Shifts of a significand.

ghost use Rattle.std.specs.Prelude.{◌≡◌, ℕ, ◌-◌, ◌*◌, ◌/◌, ◌%◌, ◌^◌, ◌<◌, ◌≤◌, pos, ◌-ℤ◌, ◌≤ℤ◌, eqb};
ghost use Rattle.apfloat_model.specs.rounding.{Bounds.IsWithin, Bounds.exponent_bound, Standing.StandsFor};

use crate::loss::loss_of_rest;
use apfloat_model::{ExpInt, Loss};

/// 2 to the power of `exponent`.
#[inline(always)]
pub fn power_of_two(exponent: u32) -> u128
    requires { exponent < 128 }
    ensures { result ≡ 2 ^ exponent }
{
    1 << exponent
}

/// How far one exponent is above another; both are of last digits, or both of integer bits.
#[inline(always)]
pub fn steps_between(high: ExpInt, low: ExpInt) -> u32
    requires above { low ≤ℤ high }
    requires high { IsWithin exponent_bound high }
    requires low { IsWithin exponent_bound low }
    ensures { pos result ≡ high -ℤ low }
{
    (high - low) as u32
}

/// The number of binary digits of an integer; 0 has none.
#[inline(always)]
pub fn digits(number: u128) -> u32
    ensures bound { result ≤ 128 }
    ensures below { number < 2 ^ result }
    ensures full { 0 < result → 2 ^ (result - 1) ≤ number }
{
    128 - number.leading_zeros()
}

/// The lowest `places` binary digits of an integer.
#[inline(always)]
pub fn low_digits(number: u128, places: u32) -> u128
    requires { places < 128 }
    ensures { result ≡ number % 2 ^ places }
{
    number & (power_of_two(places) - 1)
}

/// Whether an integer without its `places` lowest binary digits is odd.
#[inline(always)]
pub fn is_odd_above(number: u128, places: u32) -> bool
    requires { places < 128 }
    ensures { result ≡ eqb (number / 2 ^ places % 2) 1 }
{
    (number >> places) % 2 == 1
}

/// A significand shifted right, and what was lost below its new unit.
#[derive(Clone, Copy)]
pub struct Shifted {
    /// The digits that are left.
    pub significand: u128,
    /// The digits that were cut off, as a part of the lowest remaining digit.
    pub loss: Loss,
}

/// The significand without its `places` lowest digits, and the combined loss relative to the lowest remaining digit.
#[inline(always)]
pub fn shift_right(significand: u128, places: u32, loss: Loss) -> Shifted
    ensures quotient { result.significand ≡ significand / 2 ^ places }
    ensures stands { (amount unit : ℕ) → 0 < unit → StandsFor significand loss amount unit
        → StandsFor result.significand result.loss amount (2 ^ places * unit) }
{
    if places == 0 {
        return Shifted { significand, loss };
    }
    if places > 128 {
        return Shifted {
            significand: 0,
            loss: loss_of_all(significand, loss),
        };
    }
    let half = power_of_two(places - 1);
    if places == 128 {
        return Shifted {
            significand: 0,
            loss: loss_of_rest(significand, half, loss),
        };
    }
    Shifted {
        significand: significand >> places,
        loss: loss_of_rest(low_digits(significand, places), half, loss),
    }
}

/// The loss when more digits are cut off than a significand can have.
#[inline(always)]
fn loss_of_all(significand: u128, loss: Loss) -> Loss
    ensures { (places amount unit : ℕ) → 128 < places → 0 < unit
        → StandsFor significand loss amount unit → StandsFor 0 result amount (2 ^ places * unit) }
{
    match loss {
        Loss::ExactlyZero => {
            if significand == 0 {
                Loss::ExactlyZero
            } else {
                Loss::LessThanHalf
            }
        }
        _ => Loss::LessThanHalf,
    }
}
