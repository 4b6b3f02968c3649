//! Texts of up to a million digits.

ghost use Rattle.std.specs.Prelude.{◌<◌};

use crate::asserts::same;
use crate::sweeps::tables::{
    AWAY, DOWN, EVEN, INEXACT, OK, OVERFLOW_INEXACT, UNDERFLOW_INEXACT, UP, ZERO,
};
use crate::texts::repeated;
use rustc_apfloat::ieee::{Half, HalfS, Semantics};
use rustc_apfloat::{Flags, Float, Round};
use std::process::Abort;
use std::test::Fail;

/// A text, as a beginning, a digit with the number of its repetitions, and an end; a mode, the bits of the value and
/// the bits of the status.
type Row = (
    &'static str,
    &'static str,
    u64,
    &'static str,
    Round,
    u128,
    u8,
);

static ROWS: [Row; 22] = [
    ("0x", "0", 1000000, "1p0", EVEN, 0x3c00, OK),
    ("0x", "0", 1000000, "1p0", UP, 0x3c00, OK),
    ("0x", "0", 1000000, "1p0", DOWN, 0x3c00, OK),
    ("0x", "0", 1000000, "1p0", ZERO, 0x3c00, OK),
    ("0x", "0", 1000000, "1p0", AWAY, 0x3c00, OK),
    ("0x1", "0", 1000000, "p-4000000", EVEN, 0x3c00, OK),
    ("0x1", "0", 1000000, "p-4000000", UP, 0x3c00, OK),
    ("0x1", "0", 1000000, "p-4000000", DOWN, 0x3c00, OK),
    ("0x1", "0", 1000000, "p-4000000", ZERO, 0x3c00, OK),
    ("0x1", "0", 1000000, "p-4000000", AWAY, 0x3c00, OK),
    ("0x.", "0", 999999, "1p+4000000", EVEN, 0x3c00, OK),
    ("0x.", "0", 999999, "1p+4000000", UP, 0x3c00, OK),
    ("0x.", "0", 999999, "1p+4000000", DOWN, 0x3c00, OK),
    ("0x.", "0", 999999, "1p+4000000", ZERO, 0x3c00, OK),
    ("0x.", "0", 999999, "1p+4000000", AWAY, 0x3c00, OK),
    ("0x1", "0", 1000000, "1p-4000004", EVEN, 0x3c00, INEXACT),
    ("0x1", "0", 1000000, "1p-4000004", UP, 0x3c01, INEXACT),
    ("0x1p", "9", 100, "", EVEN, 0x7c00, OVERFLOW_INEXACT),
    ("0x1p-", "9", 100, "", EVEN, 0x0000, UNDERFLOW_INEXACT),
    ("0x1p-", "9", 100, "", UP, 0x0001, UNDERFLOW_INEXACT),
    ("-0x1p-", "9", 100, "", DOWN, 0x8001, UNDERFLOW_INEXACT),
    ("0x1p+", "0", 99, "1", EVEN, 0x4000, OK),
];

/// The bits of the value of a text and the bits of the status, or the message of the refusal.
fn read(text: &str, mode: Round) -> Result<(u128, u8), &'static str> {
    match Half::from_str_r(text, mode) {
        Ok(answer) => Ok((HalfS::to_bits(answer.value), answer.status.bits())),
        Err(error) => Err(error.0),
    }
}

#[test]
fn long_texts(rt: HostRuntime) -> Result<(), Fail> {
    for (front, digit, count, back, mode, value, flags) in &ROWS {
        let text = repeated(rt.alloc(), *front, *digit, *count, *back)?;
        let got = read(text.as_str(), *mode);
        same(&rt, got, Ok((*value, *flags)), (*front, *back));
    }
    Ok(())
}
