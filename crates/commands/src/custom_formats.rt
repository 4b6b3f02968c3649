//! Custom formats, as a user would declare them: each gives its constants and proves its law in one line.
//!
//! Rows of test vectors name them (`check_vectors`), and tests use them at the limits of the law (`tests::sweeps`).

mod broad;
mod deep;
mod fused_limit;
mod least;
mod least_finite;
mod precise;
mod product_limit;
mod seven;
mod ten;
mod vast;
mod written_bit;

pub use broad::{Broad, BroadS};
pub use deep::{Deep, DeepS};
pub use formats_at_run_time::{X87DoubleS, X87SingleS};
pub use fused_limit::{FusedLimit, FusedLimitS};
pub use least::{Least, LeastS};
pub use least_finite::{LeastFinite, LeastFiniteS};
pub use precise::{Precise, PreciseS};
pub use product_limit::{ProductLimit, ProductLimitS, square};
pub use seven::{Seven, SevenS};
pub use ten::{Ten, TenS};
pub use vast::{Vast, VastS};
pub use written_bit::{WrittenBit, WrittenBitS};
