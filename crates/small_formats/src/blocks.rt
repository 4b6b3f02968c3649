//! Blocks of small values with a common scale: the Open Compute Project's microscaling formats (`mx`) and NVFP4.
//!
//! A block is quantized in three steps: its greatest magnitude decides the scale, the scale is taken exactly into a
//! format that has it, and each element is the quotient by it, rounded once (`elements`). Dequantizing multiplies an
//! element by the scale and rounds once. Nothing here rounds by itself: quotients are those of `apfloat_ieee` and
//! `small_formats`.
//!
//! Codes stand one in a byte, in its lowest bits.

mod counts;
mod elements;
mod errors;
mod magnitudes;
mod mx;
mod mx_scales;
mod nvfp4;
mod nvfp4_errors;
mod nvfp4_scales;
mod theorems;

pub use counts::Counts;
pub use elements::{ElementFormat, quotient_code};
pub use errors::BlockError;
pub use magnitudes::greater;
pub use mx::{BLOCK, Block, dequantize_block, quantize_block, quantize_block_by, scaled};
pub use mx_scales::{ScaleRule, power_of, scale_by};
pub use nvfp4::{NVFP4_BLOCK, dequantize_nvfp4_block, nvfp4_scaled, quantize_nvfp4_block};
pub use nvfp4_errors::Nvfp4Error;
pub use nvfp4_scales::{is_positive, nvfp4_scale, tensor_scale};
pub use theorems::{
    blocks_are_exact_in_bfloat, blocks_are_exact_in_double, blocks_are_exact_in_single,
    blocks_quantized_again_keep_their_values, dequantized_blocks_have_one_answer,
    dequantized_nvfp4_blocks_have_one_answer, finite_blocks_are_exact,
    nvfp4_blocks_have_one_answer, quantized_blocks_have_one_answer, tensor_scales_have_one_answer,
};
