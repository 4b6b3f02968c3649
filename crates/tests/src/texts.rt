//! Texts of values, read as binary16 values, which are unpacked.

use crate::asserts::same;
use crate::unpacked::HALF;
use apfloat_conversions::hex_texts::read;
use apfloat_model::{ExpInt, Round, Status};
use std::alloc::{AllocError, Global};
use std::test::Fail;

/// The significand, the exponent and the status of a text read as a binary16 value, rounding upward, or the message of
/// the refusal.
fn read_up(text: &str) -> Result<(u128, ExpInt, Status), &'static str> {
    match read(HALF, text.as_bytes(), Round::TowardPositive) {
        Ok(answer) => Ok((
            answer.value.significand,
            answer.value.exponent,
            answer.status,
        )),
        Err(refused) => Err(refused.0),
    }
}

/// A text, and what it is read as or the message of the refusal.
static ROWS: [(&str, Result<(u128, ExpInt, Status), &str>); 19] = [
    ("0x1.8p-1", Ok((0x600, -1, Status::OK))),
    ("0x.8p1", Ok((0x400, 0, Status::OK))),
    ("nan", Ok((0x200, 0, Status::OK))),
    ("nan010", Ok((0x208, 0, Status::OK))),
    ("-SNaN(0x2a)", Ok((0x2a, 0, Status::OK))),
    ("-inf", Ok((0, 0, Status::OK))),
    (
        "-0x0p999999999999999999999999999999",
        Ok((0, 0, Status::OK)),
    ),
    (
        "0x1.00000000000000000000000000000000000000001p0",
        Ok((0x401, 0, Status::INEXACT)),
    ),
    ("", Err("Invalid string length")),
    ("+", Err("String has no digits")),
    ("nan08", Err("Not a special or hexadecimal literal")),
    ("1.5", Err("Not a special or hexadecimal literal")),
    ("-0x", Err("Invalid string")),
    ("0x1..g", Err("String contains multiple dots")),
    ("0xg", Err("Invalid character in significand")),
    ("0x.p0", Err("Significand has no digits")),
    ("0x1p1x", Err("Invalid character in exponent")),
    ("0x1p+", Err("Exponent has no digits")),
    ("0x1.8", Err("Hex strings require an exponent")),
];

/// Each text has one meaning, or is refused by its first fault.
#[test]
fn reads_the_one_meaning(rt: HostRuntime) {
    for (text, wanted) in &ROWS {
        same(&rt, read_up(*text), *wanted, *text);
    }
}

/// The start of a text, how many zeros follow, its end, and what it is read as.
static ENDLESS: [(&str, u64, &str, (u128, ExpInt, Status)); 5] = [
    ("0x", 1000000, "1p0", (0x400, 0, Status::OK)),
    ("0x1", 1000000, "p-4000000", (0x400, 0, Status::OK)),
    ("0x.", 999999, "1p+4000000", (0x400, 0, Status::OK)),
    ("0x1", 1000000, "1p-4000004", (0x401, 0, Status::INEXACT)),
    ("0x1p+", 99, "1", (0x400, 1, Status::OK)),
];

/// A text with a part that is repeated.
pub fn repeated(
    alloc: Global,
    start: &str,
    part: &str,
    count: u64,
    end: &str,
) -> Result<String, AllocError> {
    let mut text = String::from_str(alloc, start)?;
    for _ in 0..count {
        text.push_str(part)?;
    }
    text.push_str(end)?;
    Ok(text)
}

#[test]
fn reads_endless_texts(rt: HostRuntime) -> Result<(), Fail> {
    for (start, zeros, end, wanted) in &ENDLESS {
        let text = repeated(rt.alloc(), *start, "0", *zeros, *end)?;
        same(&rt, read_up(text.as_str()), Ok(*wanted), (*start, *end));
    }
    Ok(())
}
