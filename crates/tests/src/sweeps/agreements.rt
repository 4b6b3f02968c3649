//! Operators and the corresponding calls have the same result, for a format and for pairs of doubles.

ghost use Rattle.std.specs.Prelude.{◌<◌};

use crate::agreements::{readings, remainders, sums};
use crate::asserts::{Bits, same};
use rustc_apfloat::ieee::Half;
use rustc_apfloat::ppc::DoubleDouble;
use rustc_apfloat::{Float, Status, StatusAnd};
use std::process::Abort;

/// The bits of two operands and of a result, and its status.
type Row = (u128, u128, u128, Status);

/// A text, and the bits of its value or the message of the refusal.
type Reading = (&'static str, Result<u128, &'static str>);

fn written<F: Float>(answer: StatusAnd<F>) -> (u128, Status)
    requires { F.PRECISION < F.BITS }
{
    (answer.value.to_bits(), answer.status)
}

/// A sum by `+`, by the call and by `+=`.
fn check_sum<F: Float>(rt: &impl Abort, row: Row)
    requires { F.PRECISION < F.BITS }
{
    let (x, y, bits, status) = row;
    let (sum, by_call, assigned) = sums(F::from_bits(x), F::from_bits(y));
    let got = (written(sum), written(by_call), assigned.to_bits());
    let expected = ((bits, status), (bits, status), bits);
    same(rt, got, expected, (Bits(x), "+", Bits(y)));
}

/// A remainder by `%` and by the call.
fn check_remainder<F: Float>(rt: &impl Abort, row: Row)
    requires { F.PRECISION < F.BITS }
{
    let (x, y, bits, status) = row;
    let (remainder, by_call) = remainders(F::from_bits(x), F::from_bits(y));
    let got = [written(remainder), written(by_call)];
    same(rt, got, [(bits, status); 2], (Bits(x), "%", Bits(y)));
}

/// The bits of the value that `FromStr` reads from a text, and of the value that the call reads, or the messages of the
/// refusals.
fn read<F: Float>(text: &str) -> [Result<u128, &'static str>; 2]
    requires { F.PRECISION < F.BITS }
{
    let (number, by_call) = readings::<F>(text);
    let number = match number {
        Ok(number) => Ok(number.to_bits()),
        Err(error) => Err(error.0),
    };
    let by_call = match by_call {
        Ok(answer) => Ok(answer.value.to_bits()),
        Err(error) => Err(error.0),
    };
    [number, by_call]
}

/// A sum, a remainder and readings by operators and by calls.
fn check_all<F: Float>(rt: &impl Abort, sum: Row, remainder: Row, texts: [Reading; 2])
    requires { F.PRECISION < F.BITS }
{
    check_sum::<F>(rt, sum);
    check_remainder::<F>(rt, remainder);
    for (text, expected) in texts {
        same(rt, read::<F>(text), [expected; 2], text);
    }
}

#[test]
fn halves(rt: HostRuntime) {
    check_all::<Half>(
        &rt,
        (0x3c00, 0x3555, 0x3d55, Status::INEXACT),
        (0xc400, 0x4000, 0x8000, Status::OK),
        [
            ("0x1.ap3", Ok(0x4a80)),
            ("0x1", Err("Hex strings require an exponent")),
        ],
    );
}

#[test]
fn pairs(rt: HostRuntime) {
    let x = 0x3cb8_0000_0000_0000_4008_0000_0000_0000;
    let y = 0x3cac_0000_0000_0000_3ffc_0000_0000_0000;
    let sum = 0xbcba_0000_0000_0000_4013_0000_0000_0001;
    let remainder = 0xbc98_0000_0000_0000_3ff4_0000_0000_0001;
    let one = 0x3ca0_0000_0000_0000_3ff0_0000_0000_0000;
    check_all::<DoubleDouble>(
        &rt,
        (x, y, sum, Status::INEXACT),
        (x, y, remainder, Status::OK),
        [
            ("0x1.00000000000008p0", Ok(one)),
            ("0x1p", Err("Exponent has no digits")),
        ],
    );
}
