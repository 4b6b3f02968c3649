//! Whether anything was lost when digits were cut off, and the loss when more of them are.

ghost use Rattle.std.specs.Prelude.{◌≡◌, ℕ, ◌+◌, ◌*◌, ◌<◌, true, false};
ghost use Rattle.apfloat_model.specs.rounding.Standing.{StandsFor};

use apfloat_model::Loss;

/// Whether nothing was lost.
#[inline(always)]
pub fn is_exact(loss: Loss) -> bool
    ensures yes { result ≡ true → loss ≡ Loss.ExactlyZero }
    ensures no { result ≡ false → loss ≡ Loss.ExactlyZero → ⊥ }
{
    match loss {
        Loss::ExactlyZero => true,
        Loss::LessThanHalf => false,
        Loss::ExactlyHalf => false,
        Loss::MoreThanHalf => false,
    }
}

/// The loss when `rest` is cut off, in units of twice `half`, with `loss` below it.
#[inline(always)]
pub fn loss_of_rest(rest: u128, half: u128, loss: Loss) -> Loss
    requires { rest < 2 * half }
    ensures { (quotient amount unit : ℕ) → 0 < unit
        → StandsFor (quotient * (2 * half) + rest) loss amount unit
        → StandsFor quotient result amount (2 * half * unit) }
{
    match loss {
        Loss::ExactlyZero => {
            if rest == 0 {
                Loss::ExactlyZero
            } else if rest < half {
                Loss::LessThanHalf
            } else if rest == half {
                Loss::ExactlyHalf
            } else {
                Loss::MoreThanHalf
            }
        }
        _ => {
            if rest < half {
                Loss::LessThanHalf
            } else {
                Loss::MoreThanHalf
            }
        }
    }
}
