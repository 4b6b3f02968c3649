//! What follows the digits of a decimal text. It decides whether the text is one; `apfloat_decimals` reads the digits.

ghost use Rattle.std.specs.Prelude.{◌≡◌, drop, Some, None, MatchResult};
ghost use Rattle.apfloat_model.specs.{rounding.Bounds.IsWithin, texts.Literals.exponent_number};
ghost use Rattle.apfloat_conversions.specs.DecimalTails.{fault_after};
ghost use Rattle.apfloat_conversions.specs.hex_texts.Saturation.{IsNear, count_bound, far_bound};

use crate::hex_texts::signed_number;
use apfloat_model::parse_error::Fault;

/// The exponent in what follows the digits of a text; `some` says whether there are any digits.
pub fn exponent_in(tail: &[u8], some: bool) -> Result<i128, Fault>
    ensures { MatchResult result (λ e. IsNear far_bound (exponent_number (drop 1 tail.now)) e
        × IsWithin count_bound e
        × (fault_after some tail.now ≡ None))
        (λ fault. fault_after some tail.now ≡ Some fault) }
{
    match tail {
        [b'e' | b'E', exponent @ ..] if some => signed_number(exponent),
        [b'e' | b'E', ..] => Err(Fault::NoDigits),
        [b'.', ..] => Err(Fault::SecondDot),
        [_, ..] => Err(Fault::WrongInSignificand),
        [] if some => Ok(0),
        [] => Err(Fault::NoDigits),
    }
}
