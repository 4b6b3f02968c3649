//! Consequences of the laws of `Float`, for every floating-point type: an operator and the corresponding call have the
//! same result.

ghost use Rattle.std.specs.Prelude.{◌≡◌};
ghost use Rattle.tests.specs.Agreements.{AreOneValue};

use rustc_apfloat::{Float, ParseError, Round, StatusAnd};

/// A sum by `+`, by the call that rounds to nearest, ties to even, and by `+=`, which discards the status.
pub fn sums<F: Float>(x: F, y: F) -> (StatusAnd<F>, StatusAnd<F>, F)
    ensures call { result.0 ≡ result.1 }
    ensures assigned { result.2 ≡ result.0.value }
{
    let mut assigned = x;
    assigned += y;
    (x + y, x.add_r(y, Round::NearestTiesToEven), assigned)
}

/// A remainder by `%`, and by the call.
pub fn remainders<F: Float>(x: F, y: F) -> (StatusAnd<F>, StatusAnd<F>)
    ensures { result.0 ≡ result.1 }
{
    (x % y, x.c_fmod(y))
}

/// The reading of a text by `FromStr`, and by the call that rounds to nearest, ties to even.
pub fn readings<F: Float>(text: &str) -> (Result<F, ParseError>, Result<StatusAnd<F>, ParseError>)
    ensures { AreOneValue result.0 result.1 }
{
    (text.parse(), F::from_str_r(text, Round::NearestTiesToEven))
}
