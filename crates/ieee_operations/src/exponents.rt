//! logB and scaleB with their flags (IEEE 754-2019 5.3.3).
//!
//! `ilogb` and `scalbn_r` of `Float` return no status.

ghost use Rattle.std.specs.Prelude.{◌≡◌};
ghost use Rattle.apfloat_model.specs.rounding.Flags.{Gives};
ghost use Rattle.apfloat_ieee.specs.FlaggedTypes.{format_of};
ghost use Rattle.ieee_operations.specs.Exponents.{IsLogB, IsIntegerLogB};

use crate::comparisons::status_if;
use crate::extrema::quieted;
use apfloat_base::{Category, ExpInt, Float, Round, Status, StatusAnd};
use apfloat_ieee::{Flagged, IeeeFloat};

/// logB (5.3.3) as a value of the format: the exponent of the highest binary digit, for denormal values too.
///
/// It is rounded once, with INEXACT if the format lacks that integer, as formats of few digits do, and OVERFLOW if it
/// is past the largest value; the exponent 0 is +0. Of an infinity the result is positive infinity, and of a zero
/// negative infinity, or the NaN in its place, with DIV_BY_ZERO. A NaN is quieted; INVALID_OP is raised exactly if it
/// was signaling.
pub fn log_b<S: Flagged>(x: IeeeFloat<S>, mode: Round) -> StatusAnd<IeeeFloat<S>>
    ensures { Gives (IsLogB (format_of S.Flagged) mode x) result }
{
    match x.category() {
        Category::NaN => status_if(x.is_signaling()).and(quieted(x)),
        Category::Infinity => Status::OK.and(x.abs()),
        Category::Zero => Status::DIV_BY_ZERO.and(-IeeeFloat::<S>::infinity()),
        Category::Normal => IeeeFloat::from_i128_r(x.ilogb() as i128, mode),
    }
}

/// logB (5.3.3) as an integer: `ilogb`, with INVALID_OP exactly if the value is a zero, an infinity or a NaN, for which
/// the integer is `IEK_ZERO`, `IEK_INF` or `IEK_NAN`, beyond the exponents of every format.
pub fn integer_log_b<S: Flagged>(x: IeeeFloat<S>) -> StatusAnd<ExpInt>
    ensures { Gives (IsIntegerLogB (format_of S.Flagged) x) result }
{
    status_if(!x.is_finite_non_zero()).and(x.ilogb())
}
