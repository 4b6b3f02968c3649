//! The traits that all floating-point types of the library implement, `Float` and `FloatConvert`, and the small types
//! in their signatures, which `apfloat_model` defines.
#![tactic(auto)]

pub mod convert;
pub mod float;

pub use apfloat_model::{
    Category, ExpInt, FUSED_LIMIT, Flags, IEK_INF, IEK_NAN, IEK_ZERO, NonfiniteBehavior,
    PRODUCT_LIMIT, ParseError, Round, Status, StatusAnd,
};
pub use convert::FloatConvert;
pub use float::Float;
