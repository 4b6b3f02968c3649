//! The operations of IEEE 754-2019 that `Float` lacks, by which the contracts of their exports name them, and the codes
//! of their kinds.

ghost use Rattle.std.specs.Prelude.{◌≡◌};
ghost use Rattle.coded_calls.specs.IeeeCalls.{extremum_coded, on_nan_coded, predicate_coded};
ghost use Rattle.coded_calls.specs.IeeeCalls.{comparison_call, extremum_call, operation_coded};

use ieee_operations::{Extremum, OnNan, Predicate};

/// An operation on values of a format; they are given by their bits.
#[derive(Clone, Copy)]
pub enum IeeeCall {
    /// Whether a predicate holds of two values (5.6.1, 5.11).
    Predicated(Predicate, OnNan, u128, u128),
    /// The order of two values in the total order (5.10).
    TotalOrder(u128, u128),
    /// A minimum or a maximum of two values; if true, a number rather than a NaN (9.6).
    ExtremumOf(Extremum, bool, u128, u128),
    /// The exponent of a value, as a value (5.3.3, logB).
    LogB(u128),
    /// A value times a power of two, with its flags (5.3.3, scaleB).
    ScaleB(u128, i32),
    /// A value rounded to an integral value, without INEXACT (5.9).
    Integral(u128),
}

/// An operation whose result is of another format than its operands (5.4.1, formatOf).
#[derive(Clone, Copy)]
pub enum InAnotherCall {
    /// The first value plus the second.
    SumTo(u128, u128),
    /// The first value minus the second.
    DifferenceTo(u128, u128),
    /// The first value times the second.
    ProductTo(u128, u128),
    /// The first value divided by the second.
    QuotientTo(u128, u128),
    /// The product of the first two values plus the third.
    FusedSumTo(u128, u128, u128),
    /// The square root of the first value.
    RootTo(u128),
}

/// The predicate of this code, if there is one.
pub fn predicate_coded(code: u32) -> Option<Predicate>
    ensures { result ≡ predicate_coded code }
{
    match code {
        0 => Some(Predicate::Equal),
        1 => Some(Predicate::NotEqual),
        2 => Some(Predicate::Greater),
        3 => Some(Predicate::GreaterEqual),
        4 => Some(Predicate::Less),
        5 => Some(Predicate::LessEqual),
        6 => Some(Predicate::NotGreater),
        7 => Some(Predicate::LessUnordered),
        8 => Some(Predicate::NotLess),
        9 => Some(Predicate::GreaterUnordered),
        10 => Some(Predicate::Unordered),
        11 => Some(Predicate::Ordered),
        _ => None,
    }
}

/// Which NaNs a comparison is invalid for, by this code, if there is one.
pub fn on_nan_coded(code: u32) -> Option<OnNan>
    ensures { result ≡ on_nan_coded code }
{
    match code {
        0 => Some(OnNan::Quiet),
        1 => Some(OnNan::Signaling),
        _ => None,
    }
}

/// The minimum or maximum of this code, if there is one.
pub fn extremum_coded(code: u32) -> Option<Extremum>
    ensures { result ≡ extremum_coded code }
{
    match code {
        0 => Some(Extremum::Minimum),
        1 => Some(Extremum::Maximum),
        2 => Some(Extremum::MinimumMagnitude),
        3 => Some(Extremum::MaximumMagnitude),
        _ => None,
    }
}

/// The comparison of two values by a predicate, if there is one.
pub fn comparison_call(
    predicate: Option<Predicate>,
    on_nan: Option<OnNan>,
    x: u128,
    y: u128,
) -> Option<IeeeCall>
    ensures { result ≡ comparison_call predicate on_nan x y }
{
    let Some(predicate) = predicate else {
        return None;
    };
    let Some(on_nan) = on_nan else {
        return None;
    };
    Some(IeeeCall::Predicated(predicate, on_nan, x, y))
}

/// A minimum or a maximum of two values, if there is one.
pub fn extremum_call(
    which: Option<Extremum>,
    prefers_number: bool,
    x: u128,
    y: u128,
) -> Option<IeeeCall>
    ensures { result ≡ extremum_call which prefers_number x y }
{
    match which {
        Some(which) => Some(IeeeCall::ExtremumOf(which, prefers_number, x, y)),
        None => None,
    }
}

/// The operation of this code on values, of which it takes the first ones, if there is one.
pub fn operation_coded(code: u32, x: u128, y: u128, z: u128) -> Option<InAnotherCall>
    ensures { result ≡ operation_coded code x y z }
{
    match code {
        0 => Some(InAnotherCall::SumTo(x, y)),
        1 => Some(InAnotherCall::DifferenceTo(x, y)),
        2 => Some(InAnotherCall::ProductTo(x, y)),
        3 => Some(InAnotherCall::QuotientTo(x, y)),
        4 => Some(InAnotherCall::FusedSumTo(x, y, z)),
        5 => Some(InAnotherCall::RootTo(x)),
        _ => None,
    }
}
