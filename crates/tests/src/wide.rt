//! Products and fused sums by the calls that every format has, and by those that only formats of fewer digits have:
//! where both may be called, they return the same.

ghost use Rattle.std.specs.Prelude.{◌≡◌, ◌≤◌};
ghost use Rattle.rustc_apfloat.specs.{Products.product_limit, FusedSums.fused_limit};

use rustc_apfloat::ieee::{Flagged, IeeeFloat};
use rustc_apfloat::{Float, Round, StatusAnd};

/// A product by `mul_r`, and by the call that every format has.
pub fn products<S: Flagged>(
    x: IeeeFloat<S>,
    y: IeeeFloat<S>,
    mode: Round,
) -> (StatusAnd<IeeeFloat<S>>, StatusAnd<IeeeFloat<S>>)
    requires { S.PRECISION ≤ product_limit }
    ensures { result.1 ≡ result.0 }
{
    (x.mul_r(y, mode), x.wide_mul_r(y, mode))
}

/// A fused sum by `mul_add_r`, and by the call that every format has.
pub fn fused_sums<S: Flagged>(
    x: IeeeFloat<S>,
    y: IeeeFloat<S>,
    addend: IeeeFloat<S>,
    mode: Round,
) -> (StatusAnd<IeeeFloat<S>>, StatusAnd<IeeeFloat<S>>)
    requires { S.PRECISION ≤ fused_limit }
    ensures { result.1 ≡ result.0 }
{
    (
        x.mul_add_r(y, addend, mode),
        x.wide_mul_add_r(y, addend, mode),
    )
}
