//! Sums of two terms, with what is lost below the last digit.

ghost use Rattle.std.specs.Prelude.{◌≡◌, ◌^◌, ◌<◌};
ghost use Rattle.apfloat_model.specs.rounding.Bounds.{IsWithin, exponent_bound};

use crate::asserts::same;
use apfloat_model::{ExpInt, Loss};
use apfloat_words::{Term, Total, add_terms};

/// A sign, an exponent, a significand, and the first letter of what was lost below it, or `Z` for nothing.
type Plain = (bool, ExpInt, u128, char);

/// The letter of a loss.
fn letter(loss: Loss) -> char {
    match loss {
        Loss::ExactlyZero => 'Z',
        Loss::LessThanHalf => 'L',
        Loss::ExactlyHalf => 'E',
        Loss::MoreThanHalf => 'M',
    }
}

/// The parts of a total.
fn parts(total: Total) -> Plain {
    (
        total.negative,
        total.exponent,
        total.significand,
        letter(total.loss),
    )
}

/// A term.
fn term(negative: bool, exponent: ExpInt, significand: u128) -> Term
    ensures { result ≡ record { negative = negative; exponent = exponent; significand = significand } }
{
    Term {
        negative,
        exponent,
        significand,
    }
}

/// The difference of two terms of at most 17 digits.
fn less(x_exponent: ExpInt, x: u128, y_exponent: ExpInt, y: u128) -> Plain
    requires x { IsWithin exponent_bound x_exponent }
    requires y { IsWithin exponent_bound y_exponent }
    requires x_fits { x < 2 ^ 17 }
    requires y_fits { y < 2 ^ 17 }
{
    parts(add_terms(term(false, x_exponent, x), term(true, y_exponent, y)))
}

#[test]
fn like_exponents(rt: HostRuntime) {
    let sum = parts(add_terms(term(true, 3, 0x20), term(false, 3, 0x30)));
    let got = [less(1, 0x10, 1, 0x5), less(-2, 0x20, -2, 0x20), sum];
    let expected = [
        (false, 1, 0xb, 'Z'),
        (false, -2, 0, 'Z'),
        (false, 3, 0x10, 'Z'),
    ];
    same(&rt, got, expected, "totals");
}

/// The difference of 0x100 at exponent 7 and `y` at exponent 3, and that of both the other way round.
fn both_ways(y: u128) -> [Plain; 2]
    requires { y < 2 ^ 17 }
{
    [less(7, 0x100, 3, y), less(3, y, 7, 0x100)]
}

#[test]
fn unlike_exponents(rt: HostRuntime) {
    let got = [
        both_ways(0x100),
        both_ways(0x101),
        both_ways(0x1000),
        both_ways(0x1001),
        both_ways(0x10000),
        both_ways(0x10001),
    ];
    let expected = [
        [(false, 6, 0x1e0, 'Z'), (true, 6, 0x1e0, 'Z')],
        [(false, 6, 0x1df, 'M'), (true, 6, 0x1df, 'M')],
        [(false, 6, 0, 'Z'), (false, 6, 0, 'Z')],
        [(true, 6, 0, 'L'), (false, 6, 0, 'L')],
        [(true, 6, 0x1e00, 'Z'), (false, 6, 0x1e00, 'Z')],
        [(true, 6, 0x1e00, 'L'), (false, 6, 0x1e00, 'L')],
    ];
    same(&rt, got, expected, "totals");
}
