//! Correctly rounded software floating point in integer arithmetic: a port of the Rust crate `rustc_apfloat` (from
//! LLVM's APFloat) in which every operation is proved against a mathematical model.
//!
//! The root contains the statuses, the rounding modes and the traits `Float` and `FloatConvert`; `ieee` has the formats
//! and `IeeeFloat`, `ppc` has pairs of doubles.
//!
//! `double_doubles` has the calls of double-doubles, and `double_double_operations` their conversions to and from every
//! format and their fused sums.
#![tactic(auto)]

pub mod double_double_operations;
pub mod double_doubles;
pub mod ieee;
pub mod ppc;

pub use apfloat_base::{
    Category, ExpInt, FUSED_LIMIT, Flags, Float, FloatConvert, IEK_INF, IEK_NAN, IEK_ZERO,
    PRODUCT_LIMIT, ParseError, Round, Status, StatusAnd,
};

/// Sets a status variable to the status of an expression, or joins that status to it, and returns the expression's
/// value.
///
/// `unpack!(status =, e)` sets it, `unpack!(status |=, e)` joins.
#[macro_export]
macro_rules! unpack {
    ($status:ident =, $e:expr) => {{
        let answer = $e;
        $status = answer.status;
        answer.value
    }};
    ($status:ident |=, $e:expr) => {{
        let answer = $e;
        $status = $crate::Flags::union($status, answer.status);
        answer.value
    }};
}
