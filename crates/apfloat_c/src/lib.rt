//! The library for C programs, declared in `include/apfloat.h`.
//!
//! Values are passed as their bits, in two halves, and formats and rounding modes as codes. Each export returns 0 on
//! success, and an error code otherwise. Each is total: it requires nothing of the contents of its arguments.
#![tactic(auto)]

mod about;
mod augmented;
mod decimals;
mod digits;
mod exports;
mod facts;
mod flagless_exports;
mod ieee_exports;
mod machine_exports;
mod one_answer;
mod p3109_exports;
mod pairs;
mod readings;
