//! What a call leaves is determined by its arguments.

ghost use Rattle.arrays_for_c.specs.OneAnswer.{IsConvertedArrayOnce, IsDequantizedCallOnce, IsMappedArrayOnce};
ghost use Rattle.arrays_for_c.specs.OneAnswer.{IsPackedCallOnce, IsQuantizedCallOnce, IsUnpackedCallOnce};
ghost use Rattle.arrays_for_c.specs.Reductions.{IsDotBlocksCallOnce, IsReducedCallOnce};
ghost use Rattle.arrays_for_c.specs.StorageModes.{IsModeArrayOnce, IsModeReplyOnce};
ghost use Rattle.arrays_for_c.specs.{StorageOperations.IsOperationReplyOnce, StorageValues.IsStorageReplyOnce};

use exact_reductions::block_dots_have_one_answer;
use small_formats::packing::packed_codes_have_one_answer;
use small_formats::stochastic::{
    e3m4_conversions_by_mode_have_one_answer, unsigned_conversions_by_mode_have_one_answer,
};
use small_formats::{
    conversions_by_mode_have_one_answer, scales_by_mode_have_one_answer,
    stored_results_have_one_answer,
};

/// The contract of each export allows one code and one result or array.
pub fn one_answer()
    ensures converted { IsConvertedArrayOnce }
    ensures mapped { IsMappedArrayOnce }
    ensures reduced { IsReducedCallOnce }
    ensures block_dots { IsDotBlocksCallOnce }
    ensures stored { IsStorageReplyOnce }
    ensures operated { IsOperationReplyOnce }
    ensures stored_by_mode { IsModeReplyOnce }
    ensures array_by_mode { IsModeArrayOnce }
    ensures quantized { IsQuantizedCallOnce }
    ensures dequantized { IsDequantizedCallOnce }
    ensures packed { IsPackedCallOnce }
    ensures unpacked { IsUnpackedCallOnce }
{
    stored_results_have_one_answer();
    conversions_by_mode_have_one_answer();
    e3m4_conversions_by_mode_have_one_answer();
    scales_by_mode_have_one_answer();
    unsigned_conversions_by_mode_have_one_answer();
    packed_codes_have_one_answer();
    block_dots_have_one_answer();
}
