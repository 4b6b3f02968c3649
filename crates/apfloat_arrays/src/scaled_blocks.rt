//! Arrays in blocks with a common scale, the Open Compute Project's microscaling formats and NVFP4: values of a
//! built-in format, in bytes that the caller lends, quantized to scales and element codes, and taken out of them. Every
//! block is what `small_formats::blocks` says of one.
//!
//! Scales and codes take a byte each, codes its lowest bits; `small_formats::packing` packs codes of 4 and 6 bits.

mod dequantizing;
mod digits;
mod elements;
mod errors;
mod formats;
mod lengths;
mod products;
mod quantizing;
mod scales;
mod theorems;
mod values;

pub use dequantizing::Dequantization;
pub use errors::ArrayError;
pub use formats::BlockFormat;
pub use quantizing::Quantization;
pub use theorems::{dequantized_arrays_have_one_answer, quantized_arrays_have_one_answer};
