//! Integers modulo a power of two, as FJCVTZS of Arm and FCVTMOD.W.D of RISC-V give them.

ghost use Rattle.std.specs.Prelude.{◌≡◌, ℕ, ◌*◌, ◌/◌, ◌%◌, ◌^◌, ◌<◌, ◌≤◌, pos, ◌+ℤ◌};
ghost use Rattle.apfloat_model.specs.{order.Classes.quanta_of, rounding.Bounds.IsWithin, rounding.Flags.Gives};
ghost use Rattle.apfloat_model.specs.{rounding.Standing.up, rounding.Standing.down, arithmetic.Exact.signed};
ghost use Rattle.apfloat_ieee.specs.FlaggedTypes.{format_of};
ghost use Rattle.apfloat_machines.specs.Modulo.{IsResidue, IsSignedModulo};

use crate::whole_numbers::{minus, signed};
use apfloat_base::{Category, ExpInt, Float, Round, StatusAnd};
use apfloat_ieee::{Flagged, IeeeFloat};
use apfloat_model::Loss;
use apfloat_words::{low_digits, power_of_two, shift_right, steps_between};

/// The value rounded toward zero, as the signed integer of `width` bits, 2 to 128, that is congruent to it modulo two
/// to the power of `width`; 0 for infinities and NaNs. The flags are those of `to_i128_r` toward zero: INVALID_OP for
/// these, and for what is out of the range of that width, and otherwise INEXACT for what is not an integer.
pub fn to_signed_modulo<S: Flagged>(x: IeeeFloat<S>, width: usize) -> StatusAnd<i128>
    requires low { 2 ≤ width }
    requires high { width ≤ 128 }
    ensures { Gives (IsSignedModulo (format_of S.Flagged) width x) result }
{
    let mut is_exact = false;
    let plain = x.to_i128_r(width, Round::TowardZero, &mut is_exact);
    let rest = lowest(whole_digits(x), width as u32);
    plain.status.and(residue(x.is_negative(), rest, power_of_two(width as u32 - 1)))
}

/// The lowest 128 binary digits of the magnitude of a value rounded toward zero; 0 of infinities and NaNs.
fn whole_digits<S: Flagged>(x: IeeeFloat<S>) -> u128
    ensures { result ≡ quanta_of x / 2 ^ (format_of S.Flagged).scale % 2 ^ 128 }
{
    match x.category() {
        Category::Normal => {
            let number = x.number();
            digits_at(number.significand, number.exponent)
        }
        _ => 0,
    }
}

/// The lowest 128 binary digits of the integer part of a significand, given the exponent of its last digit.
fn digits_at(significand: u128, exponent: ExpInt) -> u128
    requires { IsWithin (2 ^ 22) exponent }
    ensures { (scale quanta : ℕ) → let unit = exponent +ℤ pos scale in
        quanta * 2 ^ down unit ≡ significand * 2 ^ up unit
        → result ≡ quanta / 2 ^ scale % 2 ^ 128 }
{
    if exponent >= 0 {
        moved_up(significand, steps_between(exponent, 0))
    } else {
        shift_right(significand, steps_between(0, exponent), Loss::ExactlyZero).significand
    }
}

/// An integer moved up by that many binary digits, of which 128 are kept.
fn moved_up(number: u128, places: u32) -> u128
    ensures { result ≡ number * 2 ^ places % 2 ^ 128 }
{
    if places < 128 { number << places } else { 0 }
}

/// The lowest `places` binary digits of an integer, up to all of them.
fn lowest(number: u128, places: u32) -> u128
    requires { places ≤ 128 }
    ensures { result ≡ number % 2 ^ places }
{
    if places < 128 {
        low_digits(number, places)
    } else {
        number
    }
}

/// The integer from `-half` on and below `half` that is congruent modulo twice `half` to the integer of this sign,
/// whose magnitude is below twice `half`.
fn residue(negative: bool, magnitude: u128, half: u128) -> i128
    requires half { half ≤ 2 ^ 127 }
    requires below { magnitude < 2 * half }
    ensures { IsResidue half (signed negative magnitude) result }
{
    if negative {
        if magnitude <= half {
            minus(magnitude)
        } else {
            signed(half - (magnitude - half))
        }
    } else if magnitude < half {
        signed(magnitude)
    } else {
        minus(half - (magnitude - half))
    }
}
