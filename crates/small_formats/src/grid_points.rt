//! The numbers of grid points, converted.

ghost use Rattle.std.specs.Prelude.{◌≡◌, ◌*◌, ◌^◌, ◌<◌, ◌≤◌, pos, ◌-ℤ◌, not, eqb};
ghost use Rattle.apfloat_model.specs.rounding.{Bounds.IsWithin, Flags.Gives, Flags.bits_of};
ghost use Rattle.apfloat_model.specs.rounding.Rounding.{IsDelivered, ok_bits};
ghost use Rattle.apfloat_ieee.specs.FlaggedTypes.{format_of};
ghost use Rattle.small_formats.specs.Codes.{point};

use apfloat_base::{ExpInt, Round, Status, StatusAnd};
use apfloat_ieee::{Flagged, IeeeFloat, deliver};
use apfloat_model::Loss;
use apfloat_words::power_of_two;

/// A grid point, `significand * 2^place` quanta.
#[derive(Clone, Copy)]
pub struct Point {
    pub significand: u16,
    pub place: u16,
}

/// The point with that index.
pub fn point_at(precision: u32, index: u16) -> Point
    requires some { 0 < precision }
    requires precise { precision ≤ 15 }
    ensures { result.significand * 2 ^ result.place ≡ point precision index }
{
    let half = power_of_two(precision - 1) as u16;
    if index < half {
        return Point {
            significand: index,
            place: 0,
        };
    }
    Point {
        significand: half + index % half,
        place: index / half - 1,
    }
}

/// The exponent of the last digit of a point at that place.
fn exponent_of(place: u16, scale: u32) -> ExpInt
    requires { scale ≤ 2 ^ 21 }
    ensures value { result ≡ pos place -ℤ pos scale }
    ensures within { IsWithin (2 ^ 23) result }
{
    ExpInt::from(place) - scale as ExpInt
}

/// A point whose quantum is `2^-scale`, rounded once to another format.
pub fn convert_point<T: Flagged>(
    point: Point,
    scale: u32,
    round: Round,
    negative: bool,
    loses_info: &mut bool,
) -> StatusAnd<IeeeFloat<T>>
    requires { scale ≤ 2 ^ 21 }
    ensures delivered { let quanta = point.significand * 2 ^ point.place in
        Gives (IsDelivered (format_of T.Flagged) round negative
        (quanta * 2 ^ (format_of T.Flagged).scale) (2 ^ scale)) result }
    ensures loses { loses_info.new ≡ not (eqb (bits_of result.status) ok_bits) }
{
    let answer = deliver::<T>(
        u128::from(point.significand),
        exponent_of(point.place, scale),
        Loss::ExactlyZero,
        round,
        negative,
    );
    *loses_info = answer.status != Status::OK;
    answer
}
