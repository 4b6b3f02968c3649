//! Conversions of pairs of doubles from and to formats, and their fused sum, for C programs.

ghost use Rattle.formats_at_run_time.specs.{FlaggedKinds.flagged_kind_coded, Modes.mode_coded};
ghost use Rattle.coded_calls.specs.Answers.{whole};
ghost use Rattle.apfloat_c.specs.Pairs.{IsPairConverted, IsPairFilled, IsPairFusedCall, IsPairMade, IsPairOfKind};
ghost use Rattle.apfloat_c.specs.Pairs.{IsPairShortestWritten, IsPairText, known_source, known_target};

use crate::decimals::{DecimalText, Shortest, pair_in_bits, write};
use apfloat_digits::of_double_doubles::shortest_of_pair;
use coded_calls::codes::{ANSWERED, NO_SUCH_OPERATION, UNKNOWN_FORMAT, UNKNOWN_MODE};
use coded_calls::data::{Answer, Halves};
use formats_at_run_time::{FillsInFormat, FlaggedKind, InFormat, mode_coded};
use rustc_apfloat::double_double_operations::{pair_from_format, pair_mul_add_r, pair_to_format};
use rustc_apfloat::ieee::{Flagged, IeeeFloat, Semantics};
use rustc_apfloat::ppc::DoubleDouble;
use rustc_apfloat::{Category, Float, Round, StatusAnd};

/// The exact sum of the parts of a pair, rounded once to a format.
#[unsafe(no_mangle)]
pub extern "C" fn apfloat_pair_to_format(
    format: u32,
    mode: u32,
    x: Halves,
    answer: &mut Answer,
) -> u32
    ensures { IsPairConverted (known_target (flagged_kind_coded format) (mode_coded mode)) (whole x)
        answer.old answer.new result }
{
    let Some(kind) = FlaggedKind::coded(format) else {
        return UNKNOWN_FORMAT;
    };
    let Some(round) = mode_coded(mode) else {
        return UNKNOWN_MODE;
    };
    match kind {
        FlaggedKind::OfFormat(target) => {
            let bits = x.number();
            target.fill(PairToFormat { round, bits }, answer);
            ANSWERED
        }
        FlaggedKind::Pairs => NO_SUCH_OPERATION,
    }
}

/// A value of a format as a pair, rounded once to 106 digits and split.
#[unsafe(no_mangle)]
pub extern "C" fn apfloat_pair_from_format(
    format: u32,
    mode: u32,
    x: Halves,
    answer: &mut Answer,
) -> u32
    ensures { IsPairMade (known_source (flagged_kind_coded format) (mode_coded mode)) (whole x)
        answer.old answer.new result }
{
    let Some(kind) = FlaggedKind::coded(format) else {
        return UNKNOWN_FORMAT;
    };
    let Some(round) = mode_coded(mode) else {
        return UNKNOWN_MODE;
    };
    match kind {
        FlaggedKind::OfFormat(source) => {
            let bits = x.number();
            *answer = pair_in_bits(source.built_in().run(PairFromFormat { round, bits }));
            ANSWERED
        }
        FlaggedKind::Pairs => NO_SUCH_OPERATION,
    }
}

/// The product of two pairs plus a third one, rounded once to 106 digits and split.
#[unsafe(no_mangle)]
pub extern "C" fn apfloat_pair_fma(
    mode: u32,
    x: Halves,
    y: Halves,
    z: Halves,
    answer: &mut Answer,
) -> u32
    ensures { IsPairFusedCall (mode_coded mode) (whole x) (whole y) (whole z) answer.old answer.new
        result }
{
    let Some(round) = mode_coded(mode) else {
        return UNKNOWN_MODE;
    };
    let x = DoubleDouble::from_bits(x.number());
    let y = DoubleDouble::from_bits(y.number());
    let z = DoubleDouble::from_bits(z.number());
    *answer = pair_in_bits(pair_mul_add_r(x, y, z, round));
    ANSWERED
}

/// The text of the shortest decimal that is read as the pair, `inf`, `-inf` or `nan`. A pair that no decimal is read as
/// has none.
#[unsafe(no_mangle)]
pub extern "C" fn apfloat_pair_shortest(x: Halves, text: &mut DecimalText) -> u32
    ensures { IsPairShortestWritten (whole x) text.old text.new result }
{
    match text_of_pair(DoubleDouble::from_bits(x.number())) {
        Some(found) => {
            write(found, text);
            ANSWERED
        }
        None => NO_SUCH_OPERATION,
    }
}

/// What is written of a pair, if it has a text.
fn text_of_pair(x: DoubleDouble) -> Option<Shortest>
    ensures { IsPairText x result }
{
    match shortest_of_pair(x) {
        Some(decimal) => Some(Shortest::Number(decimal)),
        None => match x.category() {
            Category::NaN => Some(Shortest::Nan),
            Category::Infinity => Some(Shortest::Infinity(x.is_negative())),
            Category::Normal | Category::Zero => None,
        },
    }
}

/// A pair to be converted to a format.
#[derive(Clone, Copy)]
struct PairToFormat {
    round: Round,
    bits: u128,
}

impl FillsInFormat for PairToFormat {
    type Place = Answer;

    type Output = ();

    ghost gives = { λ it kind old new done. IsPairFilled kind it.round it.bits new };

    #[inline(always)]
    fn fill_in_format<S: Flagged>(self, answer: &mut Answer) {
        let made = pair_to_format::<S>(DoubleDouble::from_bits(self.bits), self.round);
        *answer = Answer::of(made.value.to_bits(), made.status, 0);
    }
}

/// A value of a format to be made a pair.
#[derive(Clone, Copy)]
struct PairFromFormat {
    round: Round,
    bits: u128,
}

impl InFormat for PairFromFormat {
    type Output = StatusAnd<DoubleDouble>;

    ghost gives = { λ it kind pair. IsPairOfKind kind it.round it.bits pair };

    fn in_format<S: Semantics>(self) -> StatusAnd<DoubleDouble> {
        pair_from_format(IeeeFloat::<S>::from_bits(self.bits), self.round)
    }
}
