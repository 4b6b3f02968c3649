//! Numbers of few digits, from their texts.

ghost use Rattle.std.specs.Prelude.{◌≡◌, ℤ, pos, ◌-ℤ◌, MatchOption};
ghost use Rattle.apfloat_model.specs.rounding.Bounds.{IsWithin};
ghost use Rattle.apfloat_conversions.specs.hex_texts.Saturation.{IsNear, count_bound, far_bound};
ghost use Rattle.apfloat_decimals.specs.{DecimalTexts.IsDecimalText, Parsing.Spells};

use super::parts::{has_some, split_fraction_number, split_number};
use super::signs::split_sign;
use super::unit_of;
use super::value::{is_of_word, near_exponent};
use apfloat_base::ExpInt;
use apfloat_conversions::decimal_texts::exponent_in;

/// Longer texts are not tried.
const LONGEST: usize = 26;

/// `digits * 10^exponent` with a sign.
#[derive(Clone, Copy)]
pub struct ShortNumeral {
    /// Whether there is a minus sign.
    pub negative: bool,
    /// The digits, as an integer.
    pub digits: u64,
    /// The exponent of ten of the last digit.
    pub exponent: ExpInt,
}

/// `digits * 10^exponent`.
#[derive(Clone, Copy)]
struct Unsigned {
    digits: u64,
    exponent: ExpInt,
}

/// The exponent of the last digit of a number with `places` digits after its dot, if it is near 0.
#[inline(always)]
fn near_unit(exponent: i128, places: usize) -> Option<ExpInt>
    requires { IsWithin count_bound exponent }
    ensures within { MatchOption result (Unit {0}) (λ unit. IsWithin 5020 unit) }
    ensures same { MatchOption result (Unit {0}) (λ unit. (exact : ℤ)
        → IsNear far_bound exact exponent → unit ≡ exact -ℤ pos places) }
{
    let unit = near_exponent(unit_of(exponent, places))?;
    Some(unit)
}

/// The number that a text without a sign spells, if its digits fit in one word.
#[inline(always)]
fn unsigned_numeral(body: &[u8]) -> Option<Unsigned>
    ensures within { MatchOption result (Unit {0}) (λ number. IsWithin 5020 number.exponent) }
    ensures spelled { MatchOption result (Unit {0})
        (λ number. IsDecimalText body.now number.digits number.exponent) }
{
    let (whole, rest, first) = split_number(body, 0);
    let (fraction, tail, digits) = split_fraction_number(rest, first);
    if !is_of_word(whole, fraction) {
        return None;
    }
    match exponent_in(tail, has_some(whole, fraction)) {
        Ok(written) => {
            let exponent = near_unit(written, fraction.len())?;
            Some(Unsigned { digits, exponent })
        }
        Err(_) => None,
    }
}

/// The number that a decimal text spells, if the text is short, its digits fit in one word, and its exponent is near 0.
#[inline(always)]
pub fn short_numeral(text: &[u8]) -> Option<ShortNumeral>
    ensures within { MatchOption result (Unit {0}) (λ number. IsWithin 5020 number.exponent) }
    ensures spelled { MatchOption result (Unit {0})
        (λ number. Spells text.now number.negative number.digits number.exponent) }
{
    if text.len() > LONGEST {
        return None;
    }
    let (negative, body) = split_sign(text);
    let number = unsigned_numeral(body)?;
    Some(ShortNumeral {
        negative,
        digits: number.digits,
        exponent: number.exponent,
    })
}
