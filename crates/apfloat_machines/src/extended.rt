//! Products of which an infinity times a zero is 2, as FMULX of Arm gives them.

ghost use Rattle.std.specs.Prelude.{◌≡◌, ◌*◌, ◌^◌};
ghost use Rattle.apfloat_model.specs.{declared.kinds.Round.Round, formats.Datum.finite, rounding.Flags.Gives};
ghost use Rattle.apfloat_model.specs.arithmetic.Exact.{product_sign};
ghost use Rattle.apfloat_ieee.specs.FlaggedTypes.{format_of};
ghost use Rattle.apfloat_machines.specs.declared.{machine.Machine.Machine, flushing.Flush.Flush};
ghost use Rattle.apfloat_machines.specs.{Extended.IsExtendedProduct, Extended.IsFlushedExtendedProduct};
ghost use Rattle.apfloat_machines.specs.{Operations.IsMachineProduct, FlushedMachines.IsFlushedMachineProduct};

use crate::fused::is_invalid_product;
use apfloat_base::{Float, Status, StatusAnd};
use apfloat_ieee::{Flagged, IeeeFloat};

/// The product of `x` and `y` as FMULX gives it, given that of the machine (`settled`), which may have been flushed: of
/// an infinity and a zero 2 with the sign of the product, without a flag, and any other unchanged.
pub fn extended_product<S: Flagged>(
    x: IeeeFloat<S>,
    y: IeeeFloat<S>,
    product: StatusAnd<IeeeFloat<S>>,
) -> StatusAnd<IeeeFloat<S>>
    ensures product { let f = format_of S.Flagged in (machine : Machine) (mode : Round)
        → Gives (IsMachineProduct f machine mode x y) product
        → Gives (IsExtendedProduct f machine mode x y) result }
    ensures flushed { let f = format_of S.Flagged in (machine : Machine) (flush : Flush)
        (mode : Round) → Gives (IsFlushedMachineProduct f machine flush mode x y) product
        → Gives (IsFlushedExtendedProduct f machine flush mode x y) result }
{
    if is_invalid_product(x, y) {
        let negative = sign_of_product(x.is_negative(), y.is_negative());
        Status::OK.and(two(negative))
    } else {
        product
    }
}

/// The sign of a product (IEEE 754-2019 6.3).
fn sign_of_product(left: bool, right: bool) -> bool
    ensures { result ≡ product_sign left right }
{
    left != right
}

/// 2 with a sign.
fn two<S: Flagged>(negative: bool) -> IeeeFloat<S>
    ensures { result ≡ finite negative (2 * 2 ^ (format_of S.Flagged).scale) }
{
    if negative {
        IeeeFloat::from_i128(-2).value
    } else {
        IeeeFloat::from_i128(2).value
    }
}
