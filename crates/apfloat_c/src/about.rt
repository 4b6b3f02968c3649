//! What the library says of itself: a text for each code of an error, its version, and what made it.

ghost use Rattle.std.specs.Prelude.{◌≡◌, ◌<◌, length};
ghost use Rattle.apfloat_c.specs.About.{IsErrorText, error_text, made_by, version};

use crate::decimals::{DecimalText, text_of};
use coded_calls::codes::{ANSWERED, UNKNOWN_ERROR, WRONG_CONTROL};

/// The version of the library, as `apfloat_version` returns it.
const VERSION: u32 = 1_000;

/// The toolchain that proves the library, as `apfloat_made_by` returns it.
const PROVER: u32 = 1;

/// A text for a code of an error.
#[unsafe(no_mangle)]
pub extern "C" fn apfloat_error_text(error: u32, text: &mut DecimalText) -> u32
    ensures { IsErrorText error text.old text.new result }
{
    if error > WRONG_CONTROL {
        return UNKNOWN_ERROR;
    }
    *text = text_of(error_text(error));
    ANSWERED
}

/// The version of the library: 1,000,000 times the major number, plus 1,000 times the minor one, plus the patch.
#[unsafe(no_mangle)]
pub extern "C" fn apfloat_version() -> u32
    ensures { result ≡ version }
{
    VERSION
}

/// What made the library. rustc makes one of the same text, without proof, which has an answer of its own.
#[unsafe(no_mangle)]
pub extern "C" fn apfloat_made_by() -> u32
    ensures { result ≡ made_by }
{
    PROVER
}

/// The text for a code; any other number has the text for `UNKNOWN_ERROR`.
fn error_text(error: u32) -> &'static str
    ensures text { result.now ≡ error_text error }
    ensures room { length result.now < 64 }
{
    match error {
        0 => "no error",
        1 => "unknown format",
        2 => "unknown rounding mode",
        3 => "the format does not have the operation",
        4 => "an integer cannot have this width",
        5 => "the text was refused",
        6 => "wrong length of an array",
        8 => "unknown machine",
        9 => "an operand is wider than its format",
        10 => "the machine does not have the operation",
        11 => "arrays overlap", // which `include/apfloat.h` returns, in calls in place
        12 => "wrong control word",
        _ => "unknown error code",
    }
}
