//! Calls by a code for the format and one for the rounding mode, which write a struct of numbers: what the library for
//! C exports for single values, in Rust.
//!
//! Each call returns 0, or the code of the first error and leaves the answer unchanged; it requires nothing of codes
//! and bits. None looks into a value: each makes a public call of the library, or one from bits to bits. Arrays and
//! blocks do not belong here, and no export can: all that needs `apfloat_arrays` stands above, so that these calls are
//! proved beside it.
#![tactic(auto)]

pub mod answers;
pub mod augmented;
pub mod by_code;
pub mod coded_formats;
pub mod codes;
pub mod data;
pub mod encoded_decimals;
pub mod exported_call;
pub mod facts;
pub mod fewer_digits;
pub mod flagless;
pub mod flagless_call;
pub mod ieee_answers;
pub mod ieee_call;
pub mod instructions;
pub mod machine_call;
pub mod machine_operations;
pub mod operations;
pub mod p3109;
pub mod standard_operations;
pub mod usual_operands;
