//! The lengths of arrays.

ghost use Rattle.std.specs.Prelude.{◌≡◌, ◌≤◌, ℕ, Ok};
ghost use Rattle.apfloat_arrays.specs.scaled_blocks.{Formats.HasScale, Lengths.blocks_in, Lengths.blocks_of};

use crate::scaled_blocks::errors::ArrayError;
use crate::scaled_blocks::formats::BlockFormat;

/// The number of blocks, if the arrays have these lengths: of a block in elements, of a value in bytes, of the values
/// in bytes, of the scales and of the codes.
fn blocks_of(
    length: usize,
    width: usize,
    values: usize,
    scales: usize,
    codes: usize,
) -> Result<usize, ArrayError>
    requires { 1 ≤ width }
    ensures { result ≡ blocks_of length width values scales codes }
{
    if length == 0 {
        return Err(ArrayError::EmptyBlock);
    }
    if values % width != 0 {
        return Err(ArrayError::Lengths);
    }
    let count = values / width;
    if count % length != 0 {
        return Err(ArrayError::Uneven);
    }
    if codes != count || scales != count / length {
        return Err(ArrayError::Lengths);
    }
    Ok(scales)
}

/// The same, if the tensor has a scale.
pub(crate) fn blocks_in(
    format: BlockFormat,
    length: usize,
    width: usize,
    values: usize,
    scales: usize,
    codes: usize,
) -> Result<usize, ArrayError>
    requires { 1 ≤ width }
    ensures count { result ≡ blocks_in format length width values scales codes }
    ensures scale { (count : ℕ) → result ≡ Ok count → HasScale format }
{
    match blocks_of(length, width, values, scales, codes) {
        Err(error) => Err(error),
        Ok(blocks) => {
            if format.has_scale() {
                Ok(blocks)
            } else {
                Err(ArrayError::TensorScale)
            }
        }
    }
}
