//! The product of two significands.

ghost use Rattle.std.specs.Prelude.{◌≡◌, ◌*◌, ◌^◌, ◌<◌};

/// The full product of two significands of at most 64 digits.
#[inline(always)]
pub fn full_product(left: u128, right: u128) -> u128
    requires left_short { left < 2 ^ 64 }
    requires right_short { right < 2 ^ 64 }
    ensures { result ≡ left * right }
{
    left * right
}
