//! The model: what each operation returns, as definitions in `specs/` and theorems about them in `proofs/`, and the
//! small types that they mention: rounding modes, categories, statuses, the faults of a text.
//!
//! `docs/MODEL.md` at the root of the repository explains it in prose.
#![tactic(auto)]

pub mod kinds;
pub mod loss;
pub mod marks;
pub mod parse_error;
pub mod status;

pub use bitflags::Flags;
pub use kinds::{
    Category, ExpInt, FUSED_LIMIT, IEK_INF, IEK_NAN, IEK_ZERO, NonfiniteBehavior, PRODUCT_LIMIT,
    Round,
};
pub use loss::Loss;
pub use parse_error::ParseError;
pub use status::{Status, StatusAnd};
