//! Arithmetic on the values of one binary floating-point format, generic over the format.
//!
//! A format is a type that implements `Semantics`; `IeeeFloat<S>` is a value of the format `S`. The work is done by the
//! functions of `apfloat_rounding`, `apfloat_arithmetic` and the crates beside it, which take a `Shape`, the constants
//! of a format that rounding reads; the generic functions only supply the constants of a type.
//!
//! `built_in_formats` has the formats of IEEE 754-2019 and of machine learning.
#![tactic(auto)]

pub mod any_float;
pub mod built_in_formats;
mod convert;
mod debug;
pub mod flagged;
pub mod format_of;
pub mod fused;
pub mod ieee_float;
pub mod impls;
pub mod order;
pub mod products;
pub mod reading;
pub mod remainders;
pub mod roots;
pub mod scaling;
pub mod semantics;
pub mod sums;
pub mod wide;

pub use any_float::AnyFloat;
pub use apfloat_base::NonfiniteBehavior;
pub use flagged::{Flagged, IeeeFlags, TinyBefore};
pub use ieee_float::{IeeeFloat, Number, deliver};
pub use semantics::Semantics;
