//! Theorems about the definitions that the calls cite, as contracts of functions with empty bodies.

ghost use Rattle.small_formats.specs.blocks.Again.{IsExactBlock, IsExactFromSingles, IsQuantizedAgain};
ghost use Rattle.small_formats.specs.blocks.Laws.{IsDequantizedOnce, IsExactIntoBFloat, IsExactIntoDouble};
ghost use Rattle.small_formats.specs.blocks.Laws.{IsExactIntoSingle, IsNvDequantizedOnce};
ghost use Rattle.small_formats.specs.blocks.Laws.{IsNvQuantizedOnce, IsQuantizedOnce, IsTensorOnce};

/// A block that is quantized has one answer: its codes, its scale and its counts, or its error.
pub fn quantized_blocks_have_one_answer()
    ensures { IsQuantizedOnce }
{}

/// A block that is dequantized has one answer: its values and its counts, or its error.
pub fn dequantized_blocks_have_one_answer()
    ensures { IsDequantizedOnce }
{}

/// `Double` has the product of each number of an element format and each scale of the microscaling formats:
/// dequantizing into it delivers that product, and raises no flag.
pub fn blocks_are_exact_in_double()
    ensures { IsExactIntoDouble }
{}

/// `Single` has these products too where the exponent of the scale and that of the largest element are together at
/// most 127. So what `quantize_block` made of singles comes back exactly in singles, and raises no flag.
pub fn blocks_are_exact_in_single()
    ensures each { IsExactIntoSingle }
    ensures quantized { IsExactFromSingles }
{}

/// So has `BFloat`, if the quantum of the element format times the scale is at least its own quantum: always with the
/// elements of 4 and 6 bits, in `E5M2` from the scale with the code 10 on, and in `E4M3FN` from that with code 3 on.
pub fn blocks_are_exact_in_bfloat()
    ensures { IsExactIntoBFloat }
{}

/// A block of finite elements is dequantized exactly, and raises no flag, into a format that has the product of each
/// finite element and its scale.
pub fn finite_blocks_are_exact()
    ensures { IsExactBlock }
{}

/// A finite block that was dequantized exactly and is quantized again, in any mode, keeps its values, and raises no
/// flag. It also keeps its scale and its codes if its greatest element has the exponent of the largest number, or if
/// its scale is the least one.
///
/// Blocks of `E4M3FN` whose greatest element has the significand 15 are excepted, unless their scale is too low for
/// that element to reach 480, which the format does not have.
pub fn blocks_quantized_again_keep_their_values()
    ensures { IsQuantizedAgain }
{}

/// The scale of a tensor has one answer.
pub fn tensor_scales_have_one_answer()
    ensures { IsTensorOnce }
{}

/// A block of NVFP4 that is quantized has one answer: its codes, its scale and its counts, or its error.
pub fn nvfp4_blocks_have_one_answer()
    ensures { IsNvQuantizedOnce }
{}

/// A block of NVFP4 that is dequantized has one answer: its values and its counts, or its error.
pub fn dequantized_nvfp4_blocks_have_one_answer()
    ensures { IsNvDequantizedOnce }
{}
