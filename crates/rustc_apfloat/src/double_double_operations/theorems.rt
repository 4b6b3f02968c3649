//! Theorems about the definitions that the calls cite, as contracts of functions that do nothing.

ghost use Rattle.std.specs.Prelude.{ℕ};
ghost use Rattle.apfloat_model.specs.{Determined.DeterminesBoth, declared.kinds.Round.Round};
ghost use Rattle.apfloat_model.specs.formats.{Datum.Datum, Format.Format};
ghost use Rattle.apfloat_pair_theory.specs.{PairAnswers.HasOneAnswer, Pairs.Pair};
ghost use Rattle.rustc_apfloat.specs.double_double_operations.PairConversions.{IsPairFrom, IsPairNumberTo, IsPairTo};
ghost use Rattle.rustc_apfloat.specs.double_double_operations.PairFusedSums.{IsPairFusedSum};

use apfloat_arithmetic::other_formats::theorems::operations_have_one_answer as operations_to_a_format_have_one_answer;

/// Each fused sum of pairs and each conversion to a pair has exactly one result, and each conversion of a pair at most
/// one, for all formats, modes and operands.
pub fn operations_have_one_answer()
    ensures fused_sum { (mode : Round) (x y z : Pair) → HasOneAnswer (IsPairFusedSum mode x y z) }
    ensures from_format { (f : Format) (mode : Round) (x : Datum)
        → HasOneAnswer (IsPairFrom f mode x) }
    ensures to_format { (g : Format) (mode : Round) (x : Pair)
        → DeterminesBoth (IsPairTo g mode x) }
{
    operations_to_a_format_have_one_answer();
}

/// A pair with finite parts whose high part is not zero is converted as its number: the exact sum of the parts, in
/// quanta of a double, is delivered once.
pub fn numbers_are_delivered()
    ensures { (g : Format) (mode : Round) (x : Pair) (value : Datum) (status : ℕ)
        → IsPairTo g mode x value status → IsPairNumberTo g mode x value status }
{}
