//! Augmented sums, differences and products for every format (IEEE 754-2019 9.5), whose two results are together the
//! exact one unless it overflows or has digits below the quantum, and payloads of NaNs (9.7).

mod augmented;
mod payloads;
mod products;
mod sums;
mod theorems;

pub use augmented::Augmented;
pub use payloads::{get_payload, set_payload, set_payload_signaling};
pub use products::augmented_multiply;
pub use sums::{augmented_add, augmented_subtract};
pub use theorems::{
    augmented_differences_have_one_answer, augmented_flags_go_together,
    augmented_products_are_exact, augmented_products_have_one_answer, augmented_sums_are_exact,
    augmented_sums_have_one_answer, payloads_are_kept,
};
