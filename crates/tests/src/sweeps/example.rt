//! The examples in the page for callers, `crates/rustc_apfloat/CALLING.md`.

ghost use Rattle.rustc_apfloat.specs.{declared.Round.TheVariants.NearestTiesToEven, Flags.Gives, Types.format_of};
ghost use Rattle.rustc_apfloat.specs.WholeNumbers.{IsFromUnsigned};

use crate::asserts::same;
use crate::sweeps::calls::of_integer;
use rustc_apfloat::ieee::{Float8E4M3, Float8E4M3S, Half, IeeeFloat, Semantics};
use rustc_apfloat::{Flags, Float, Round, Status, StatusAnd, unpack};

/// The bits of the binary16 value nearest to an integer, with the status of its rounding.
fn bits_of(number: u128) -> StatusAnd<u128> {
    let answer = Half::from_u128_r(number, Round::NearestTiesToEven);
    answer.status.and(answer.value.to_bits())
}

/// The value nearest to an integer, in any format.
fn nearest<S: Semantics>(number: u128) -> StatusAnd<IeeeFloat<S>>
    ensures { Gives (IsFromUnsigned (format_of S.Semantics) NearestTiesToEven number) result }
{
    IeeeFloat::<S>::from_u128_r(number, Round::NearestTiesToEven)
}

#[test]
fn whole_numbers_in_binary16(rt: HostRuntime) {
    let got = [bits_of(464), bits_of(2049)];
    let expected = [Status::OK.and(0x5f40), Status::INEXACT.and(0x6800)];
    same(&rt, got, expected, "464 and 2049");
}

#[test]
fn sums_in_binary16(rt: HostRuntime) {
    let one = Half::from_bits(0x3c00);
    let third = Half::from_bits(0x3555);
    let answer = one + third;
    let above = one.add_r(third, Round::TowardPositive);
    let got = (answer.value.to_bits(), answer.status, above.value.to_bits());
    same(
        &rt,
        got,
        (0x3d55, Status::INEXACT, 0x3d56),
        "nearest, upward",
    );
}

#[test]
fn whole_numbers_in_eight_bits(rt: HostRuntime) {
    let nearest = of_integer::<Float8E4M3S>(250);
    let below = Float8E4M3::from_u128_r(250, Round::TowardZero);
    let got = [
        (nearest.value.to_bits(), nearest.status),
        (below.value.to_bits(), below.status),
    ];
    let overflow = Status::OVERFLOW.union(Status::INEXACT);
    let expected = [(0x78, overflow), (0x77, Status::INEXACT)];
    same(&rt, got, expected, "nearest, toward zero");
}

#[test]
fn nearest_whole_numbers(rt: HostRuntime) {
    let answer = nearest::<Float8E4M3S>(9);
    same(
        &rt,
        (answer.value.to_bits(), answer.status),
        (0x51, Status::OK),
        9,
    );
}

#[test]
fn statuses_of_two_answers(rt: HostRuntime) {
    let mut status;
    let above = unpack!(status =, Half::from_u128_r(2049, Round::TowardPositive));
    let of_first = status;
    let infinite = unpack!(status |=, above * Half::from_bits(0x7bff));
    let got = (of_first, status, infinite.to_bits());
    let of_both = Status::OVERFLOW.union(Status::INEXACT);
    same(
        &rt,
        got,
        (Status::INEXACT, of_both, 0x7c00),
        "of the first, of both",
    );
}
