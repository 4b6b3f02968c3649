//! The operations of a kind of values, by which the contracts name calls.

use formats_at_run_time::{Arithmetic, FlaggedKind};

/// An operation with its operands; values are given by their bits.
#[derive(Clone, Copy)]
pub enum ExportedCall<'a> {
    /// An operation on two values.
    OfTwo(Arithmetic, u128, u128),
    /// The product of the first two values plus the third, rounded once.
    FusedSum(u128, u128, u128),
    /// The square root of a value.
    SquareRoot(u128),
    /// An integer as a value.
    FromUnsigned(u128),
    /// A signed integer as a value.
    FromSigned(i128),
    /// A value as an integer of that many binary digits.
    ToUnsigned(u128, u32),
    /// A value as an integer of that many binary digits, in two's complement.
    ToSigned(u128, u32),
    /// A value rounded to an integral value.
    RoundToIntegral(u128),
    /// A value times a power of two.
    Scaling(u128, i32),
    /// The fraction of a value, with its exponent.
    Fraction(u128),
    /// The exponent of the highest digit.
    Exponent(u128),
    /// The least value above.
    NextUp(u128),
    /// The greatest value below.
    NextDown(u128),
    /// The order of two values.
    Comparison(u128, u128),
    /// The class of a value.
    Class(u128),
    /// The value in another kind, if that is known.
    Conversion(u128, Option<FlaggedKind>),
    /// The value of a text.
    Text(&'a [u8]),
}
