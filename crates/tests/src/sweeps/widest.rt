//! Products and fused sums in the formats of the most digits that have them.

use crate::asserts::same;
use crate::sweeps::calls::{of_integer, to_integer};
use commands::custom_formats::{FusedLimit, square};
use rustc_apfloat::{Round, Status};

#[test]
fn products_of_64_digits(rt: HostRuntime) {
    let x = of_integer((1 << 40) + 1).value;
    let above = square(x, Round::TowardPositive);
    same(
        &rt,
        (above.status, to_integer(above.value, 128).value),
        (Status::INEXACT, (1 << 80) + (1 << 41) + (1 << 17)),
        "2^40 + 1",
    );
}

#[test]
fn fused_sums_of_63_digits(rt: HostRuntime) {
    let x: FusedLimit = of_integer((1 << 40) + 1).value;
    let nearest = x.mul_add_r(x, x, Round::NearestTiesToEven);
    same(
        &rt,
        (nearest.status, to_integer(nearest.value, 128).value),
        (Status::INEXACT, (1 << 80) + (3 << 40)),
        "2^40 + 1",
    );
}
