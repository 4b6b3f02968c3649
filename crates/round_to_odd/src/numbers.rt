//! The last digit of a number, and a number with a sign.

ghost use Rattle.std.specs.Prelude.{◌≡◌, ◌+◌, ◌^◌, ◌<◌, ℕ, false, pos, ◌+ℤ◌};
ghost use Rattle.apfloat_model.specs.{formats.Datum.finite, order.Classes.quanta_of, order.Positive.IsPositive};
ghost use Rattle.apfloat_model.specs.rounding.{Bounds.IsWithin, Grid.IsAbove, Standing.down};
ghost use Rattle.apfloat_ieee.specs.FlaggedTypes.{format_of};
ghost use Rattle.round_to_odd.specs.Odd.{is_odd_below};

use apfloat_base::{ExpInt, Float};
use apfloat_ieee::{Flagged, IeeeFloat};
use apfloat_words::is_odd_above;

/// How many digits of a number are below the quantum, from the exponent of the last one.
fn digits_below_quantum<S: Flagged>(exponent: ExpInt) -> u32
    requires { IsWithin (2 ^ 22) exponent }
    ensures { result ≡ down (exponent +ℤ pos (format_of S.Flagged).scale) }
{
    let quantum = S::MIN_EXP - (S::PRECISION as ExpInt - 1);
    if exponent < quantum {
        (quantum - exponent) as u32
    } else {
        0
    }
}

/// Whether the last digit of a positive value is odd: of a denormal one, the digit of the quantum.
pub(crate) fn is_odd<S: Flagged>(x: IeeeFloat<S>) -> bool
    requires { IsPositive (format_of S.Flagged) x }
    ensures { (above : ℕ) → IsAbove (format_of S.Flagged).precision above (quanta_of x + 1) 1
        → result ≡ is_odd_below (quanta_of x) above }
{
    let number = x.number();
    is_odd_above(
        number.significand,
        digits_below_quantum::<S>(number.exponent),
    )
}

/// A positive value with a sign.
pub(crate) fn with_sign<S: Flagged>(x: IeeeFloat<S>, negative: bool) -> IeeeFloat<S>
    ensures { (quanta : ℕ) → 0 < quanta → x ≡ finite false quanta
        → result ≡ finite negative quanta }
{
    if negative { -x } else { x }
}
