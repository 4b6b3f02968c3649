//! Theorems about the definitions that the calls cite, as contracts of functions with empty bodies.

ghost use Rattle.apfloat_arrays.specs.scaled_blocks.OneArray.{IsDequantizedArrayOnce, IsQuantizedArrayOnce};

/// An array that is quantized has one answer: its scales, its codes and its counts, or its error.
pub fn quantized_arrays_have_one_answer()
    ensures { IsQuantizedArrayOnce }
{}

/// An array that is dequantized has one answer: its values and its counts, or its error.
pub fn dequantized_arrays_have_one_answer()
    ensures { IsDequantizedArrayOnce }
{}
