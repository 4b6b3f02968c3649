//! Codes of errors, of orders and of classes.

ghost use Rattle.std.specs.Prelude.{◌≡◌, ◌&&◌, nat_le};
ghost use Rattle.coded_calls.specs.Answers.{class_code, one_if, order_code};

use rustc_apfloat::Category;
use std::cmp::Ordering;

/// What an export returns on success.
pub const ANSWERED: u32 = 0;

/// The error for a code that is not that of a format.
pub const UNKNOWN_FORMAT: u32 = 1;

/// The error for a code that is not that of a rounding mode.
pub const UNKNOWN_MODE: u32 = 2;

/// The error for an operation that the format does not have.
pub const NO_SUCH_OPERATION: u32 = 3;

/// The error for a width that no integer may have.
pub const WRONG_WIDTH: u32 = 4;

/// The error for a text that has no value.
pub const REFUSED_TEXT: u32 = 5;

/// The error for arrays whose lengths do not match.
pub const WRONG_LENGTH: u32 = 6;

/// The error for a number that no export returns.
pub const UNKNOWN_ERROR: u32 = 7;

/// The error for a code that is not that of a machine.
pub const UNKNOWN_MACHINE: u32 = 8;

/// The error for an operand with bits at or above the width of its format.
pub const WIDE_OPERAND: u32 = 9;

/// The error for an operation that the machine does not have.
pub const LACKING_OPERATION: u32 = 10;

/// The error for a control word with unknown bits, or with some that the machine does not have, and the greatest code.
pub const WRONG_CONTROL: u32 = 12;

/// The mode of calls that take no mode.
pub const NEAREST_EVEN: u32 = 0;

/// Whether an integer may have this width: at least `least`, and at most 128 bits.
pub fn is_width(least: u32, width: u32) -> bool
    ensures { result ≡ (nat_le least width && nat_le width 128) }
{
    least <= width && width <= 128
}

/// 1 if the condition holds, otherwise 0.
pub fn one_if(holds: bool) -> i32
    ensures { result ≡ one_if holds }
{
    if holds { 1 } else { 0 }
}

/// The code of an order: -1, 0 or 1, and 2 if either operand is a NaN.
pub fn order_code(order: Option<Ordering>) -> i32
    ensures { result ≡ order_code order }
{
    match order {
        Some(Ordering::Less) => -1,
        Some(Ordering::Equal) => 0,
        Some(Ordering::Greater) => 1,
        None => 2,
    }
}

/// The code of the class of a value of this category and sign (IEEE 754-2019 5.7.2).
pub fn class_code(category: Category, negative: bool, denormal: bool, signaling: bool) -> i32
    ensures { result ≡ class_code category negative denormal signaling }
{
    match category {
        Category::NaN => if signaling { 0 } else { 1 },
        Category::Infinity => if negative { 2 } else { 9 },
        Category::Normal => {
            if negative {
                if denormal { 4 } else { 3 }
            } else {
                if denormal { 7 } else { 8 }
            }
        }
        Category::Zero => if negative { 5 } else { 6 },
    }
}
