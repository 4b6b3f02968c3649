//! The result of an export is determined by its arguments.

ghost use Rattle.coded_calls.specs.OneReply.{AreAugmentedCallsOnce, IsFlaglessReplyOnce, IsIeeeReplyOnce};
ghost use Rattle.coded_calls.specs.OneReply.{IsInAnotherReplyOnce, IsInstructionReplyOnce, IsMachineReplyOnce};
ghost use Rattle.coded_calls.specs.OneReply.{IsP3109ReplyOnce, IsReplyOnce};
ghost use Rattle.apfloat_c.specs.Digits.{AreDigitsWrittenOnce, IsCountGivenOnce, IsHexPutOnce, IsRoundedHexPutOnce};
ghost use Rattle.apfloat_c.specs.{Facts.AreFactsOnce, OneAnswer.IsErrorTextOnce, OneAnswer.IsParsedOnce};
ghost use Rattle.apfloat_c.specs.{OneAnswer.IsTextOnce, Pairs.ArePairCallsOnce, Readings.IsDecimalReadOnce};

use apfloat_arithmetic::other_formats::theorems::operations_have_one_answer;
use apfloat_digits::of_double_doubles::pair_shortest_reads_back;
use ieee_operations::augmented::{
    augmented_differences_have_one_answer, augmented_products_have_one_answer,
    augmented_sums_have_one_answer,
};
use p3109_formats::projections_by_mode_have_one_answer;
use rustc_apfloat::double_double_operations;

/// The contract of each export allows one code and one result or text.
pub fn one_answer()
    ensures reply { IsReplyOnce }
    ensures parsed { IsParsedOnce }
    ensures read { IsDecimalReadOnce }
    ensures text { IsTextOnce }
    ensures digits { AreDigitsWrittenOnce }
    ensures count { IsCountGivenOnce }
    ensures exact_hex { IsHexPutOnce }
    ensures rounded_hex { IsRoundedHexPutOnce }
    ensures flagless { IsFlaglessReplyOnce }
    ensures ieee { IsIeeeReplyOnce }
    ensures in_another { IsInAnotherReplyOnce }
    ensures augmented { AreAugmentedCallsOnce }
    ensures pairs { ArePairCallsOnce }
    ensures machine { IsMachineReplyOnce }
    ensures instruction { IsInstructionReplyOnce }
    ensures p3109 { IsP3109ReplyOnce }
    ensures facts { AreFactsOnce }
    ensures error { IsErrorTextOnce }
{
    operations_have_one_answer();
    augmented_sums_have_one_answer();
    augmented_differences_have_one_answer();
    augmented_products_have_one_answer();
    double_double_operations::operations_have_one_answer();
    pair_shortest_reads_back();
    projections_by_mode_have_one_answer();
}
