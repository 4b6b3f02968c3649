//! Definitions of the operations on pairs of doubles, and theorems about them.
//!
//! `specs/` defines what each operation on pairs returns: sums and products as chains of steps on doubles, other
//! operations by the parts or in a wide format of 106 binary digits. The functions here do nothing: their clauses are
//! theorems about those definitions, within the ranges given in `specs/PairAccuracy.antt`. Rounded to nearest, the sum
//! and the product of two doubles are exact; those of two normalized pairs are normalized, and the error is at most 2 ^
//! -103 of the sum of both magnitudes and 2 ^ -102 of the exact product. A split loses nothing if its high part is
//! finite. Each operation named below has exactly one result.
#![tactic(auto)]

ghost use Rattle.std.specs.Prelude.{◌≡◌, ℕ, ◌^◌, ◌<◌, ℤ};
ghost use Rattle.apfloat_model.specs.declared.kinds.Round.{Round, TheVariants.NearestTiesToEven};
ghost use Rattle.apfloat_model.specs.formats.{Datum.Datum, Members.IsMember};
ghost use Rattle.apfloat_pair_theory.specs.PairFormats.{double};
ghost use Rattle.apfloat_pair_theory.specs.Pairs.{Pair, IsSplit, negated_pair, pair_of, IsPairEncodedBy};
ghost use Rattle.apfloat_pair_theory.specs.{PairSums.IsPairSum, PairSums.IsPairDifference, PairProducts.IsPairProduct};
ghost use Rattle.apfloat_pair_theory.specs.PairParts.{IsDenormalPair, is_denormal_pair};
ghost use Rattle.apfloat_pair_theory.specs.PairCalls.{IsPairQuotient, IsPairTruncatedRemainder, IsPairNearestRemainder};
ghost use Rattle.apfloat_pair_theory.specs.PairCalls.{IsPairRoundToIntegral, IsPairNextUp, IsPairNextDown};
ghost use Rattle.apfloat_pair_theory.specs.PairCalls.{IsPairFromUnsigned, IsPairFromSigned};
ghost use Rattle.apfloat_pair_theory.specs.{PairRoots.IsPairRoot, PairAnswers.HasOneAnswer};
ghost use Rattle.apfloat_pair_theory.specs.PairAccuracy.{IsErrorFreeSum, IsAccurateSum, IsErrorFreeDifference};
ghost use Rattle.apfloat_pair_theory.specs.PairAccuracy.{IsAccurateDifference, IsErrorFreeProduct, IsAccurateProduct};
ghost use Rattle.apfloat_pair_theory.specs.PairAccuracy.{HasPlainStatus, IsExactSplit, IsLosslessSplit};
ghost use Rattle.apfloat_pair_theory.specs.PairAccuracy.{IsExactQuotient, IsExactTruncatedRemainder};
ghost use Rattle.apfloat_pair_theory.specs.PairAccuracy.{IsExactNearestRemainder};
ghost use Rattle.apfloat_pair_theory.specs.WrongAnswers.{before_closing, half_unit, least, one, one_and_half_unit};
ghost use Rattle.apfloat_pair_theory.specs.WrongAnswers.{one_and_quarter_unit};

/// The laws of each sum of pairs, rounded to nearest.
pub fn sum_laws()
    ensures error_free { (x y answer : Pair) (status : ℕ)
        → IsMember double x.high → IsMember double y.high
        → IsPairSum NearestTiesToEven x y answer status → IsErrorFreeSum x y answer }
    ensures accurate { (x y answer : Pair) (status : ℕ)
        → IsPairSum NearestTiesToEven x y answer status → IsAccurateSum x y answer }
    ensures plain { (x y answer : Pair) (status : ℕ)
        → IsPairSum NearestTiesToEven x y answer status → HasPlainStatus x y status }
{}

/// The laws of each difference of pairs, which is the sum with the negated second pair.
pub fn difference_laws()
    ensures error_free { (x y answer : Pair) (status : ℕ)
        → IsMember double x.high → IsMember double y.high
        → IsPairDifference NearestTiesToEven x y answer status → IsErrorFreeDifference x y answer }
    ensures accurate { (x y answer : Pair) (status : ℕ)
        → IsPairDifference NearestTiesToEven x y answer status → IsAccurateDifference x y answer }
    ensures plain { (x y answer : Pair) (status : ℕ)
        → IsPairDifference NearestTiesToEven x y answer status → HasPlainStatus x y status }
{}

/// The laws of each product of pairs, rounded to nearest.
pub fn product_laws()
    ensures error_free { (x y answer : Pair) (status : ℕ)
        → IsMember double x.high → IsMember double y.high
        → IsPairProduct NearestTiesToEven x y answer status → IsErrorFreeProduct x y answer }
    ensures accurate { (x y answer : Pair) (status : ℕ)
        → IsPairProduct NearestTiesToEven x y answer status → IsAccurateProduct x y answer }
{}

/// The laws on sums and products rule out the results of chains with a step left out: a sum without the error of the
/// high parts, a sum without the closing step, and a product without the left low part times the right high part.
pub fn wrong_answers_are_refused()
    ensures dropped_error { IsErrorFreeSum one least one → ⊥ }
    ensures skipped_closing_step { IsAccurateSum one_and_half_unit half_unit before_closing → ⊥ }
    ensures dropped_cross_term { IsAccurateProduct one_and_quarter_unit one one → ⊥ }
{}

/// The laws of each split of a wide number into two doubles.
pub fn split_laws()
    ensures exact { (x : Datum) (answer : Pair) → IsSplit x answer → IsExactSplit x answer }
    ensures lossless { (x : Datum) (answer : Pair) → IsSplit x answer → IsLosslessSplit x answer }
{}

/// Quotients and remainders are splits, so whenever the high part is finite, both parts add up to the wide result.
pub fn quotient_laws()
    ensures quotient { (mode : Round) (x y answer : Pair) (status : ℕ)
        → IsPairQuotient mode x y answer status → IsExactQuotient mode x y answer status }
    ensures truncated_remainder { (x y answer : Pair) (status : ℕ)
        → IsPairTruncatedRemainder x y answer status
        → IsExactTruncatedRemainder x y answer status }
    ensures nearest_remainder { (x y answer : Pair) (status : ℕ)
        → IsPairNearestRemainder x y answer status → IsExactNearestRemainder x y answer status }
{}

/// The laws of the bits of pairs: each pair has one encoding, and reading and writing undo each other.
pub fn bits_laws()
    ensures read_back { (bits : ℕ) (x : Pair) → IsPairEncodedBy bits x → pair_of bits ≡ x }
    ensures written_back { (bits : ℕ) → bits < 2 ^ 128 → IsPairEncodedBy bits (pair_of bits) }
    ensures once { (x : Pair) (a b : ℕ) → IsPairEncodedBy a x → IsPairEncodedBy b x → a ≡ b }
{}

/// A pair negated twice is the pair itself.
pub fn negation_law()
    ensures { (x : Pair) → negated_pair (negated_pair x) ≡ x }
{}

/// The function that decides whether a pair is denormal agrees with the steps on doubles.
pub fn denormal_law()
    ensures { (x : Pair) → IsDenormalPair x (is_denormal_pair x) }
{}

/// Each sum, difference and product, a chain of steps, has exactly one result in each mode.
pub fn steps_have_one_answer()
    ensures sum { (mode : Round) (x y : Pair) → HasOneAnswer (IsPairSum mode x y) }
    ensures difference { (mode : Round) (x y : Pair) → HasOneAnswer (IsPairDifference mode x y) }
    ensures product { (mode : Round) (x y : Pair) → HasOneAnswer (IsPairProduct mode x y) }
{}

/// Each operation in the wide format has exactly one result.
pub fn wide_calls_have_one_answer()
    ensures quotient { (mode : Round) (x y : Pair) → HasOneAnswer (IsPairQuotient mode x y) }
    ensures truncated_remainder { (x y : Pair) → HasOneAnswer (IsPairTruncatedRemainder x y) }
    ensures nearest_remainder { (x y : Pair) → HasOneAnswer (IsPairNearestRemainder x y) }
    ensures round_to_integral { (mode : Round) (x : Pair)
        → HasOneAnswer (IsPairRoundToIntegral mode x) }
    ensures next_up { (x : Pair) → HasOneAnswer (IsPairNextUp x) }
    ensures next_down { (x : Pair) → HasOneAnswer (IsPairNextDown x) }
    ensures from_unsigned { (mode : Round) (number : ℕ)
        → HasOneAnswer (IsPairFromUnsigned mode number) }
    ensures from_signed { (mode : Round) (number : ℤ)
        → HasOneAnswer (IsPairFromSigned mode number) }
{}

/// Each square root has exactly one result.
pub fn roots_have_one_answer()
    ensures { (mode : Round) (x : Pair) → HasOneAnswer (IsPairRoot mode x) }
{}
