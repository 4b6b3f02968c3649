//! One value.

ghost use Rattle.std.specs.Prelude.{◌≡◌, ◌<◌, length, IfSome, false};
ghost use Rattle.rustc_apfloat.specs.FlaggedTypes.{constants_of};
ghost use Rattle.apfloat_arrays.specs.{FarNumbers.AreFarAnswers, Tasks.HaveWidths};
ghost use Rattle.apfloat_arrays.specs.Values.{IsAnswerAt, IsAnswerFrom, IsConvertedBy};

use crate::byte_tables::{ByteResults, PLACES};
use crate::bytes::{number_of, write_number};
use crate::converted::Converted;
use crate::counts::Outcome;
use crate::each::ValueConversion;
use crate::far_numbers::{FarAnswers, far_place};
use crate::tables::{Results, fill_entries};
use fast_bits::{Encoded, convert_normal};
use rustc_apfloat::ieee::{Flagged, IeeeFloat};
use rustc_apfloat::{Float, Round, StatusAnd};
use small_formats::saturation::{Overflow, convert_by};
use std::marker::PhantomData;

/// The conversion from `S` to `T`.
#[derive(Drop)]
pub struct Between<'a, S: Flagged, T: Flagged> {
    /// Whether the code that converts a value is in the loop, and not in a function of its own.
    pub in_line: bool,
    /// The results for numbers far out of the range of `T`, if they were computed.
    pub far: &'a Option<FarAnswers>,
    /// What a number that overflows becomes.
    pub overflow: Overflow,
    /// The rounding mode.
    pub round: Round,
    /// The source and the target format.
    pub formats: PhantomData<(S, T)>,
}

impl<S: Flagged, T: Flagged> ValueConversion for Between<'_, S, T> {
    ghost can = { λ it source target. HaveWidths (constants_of S.Flagged)
        (constants_of T.Flagged) source target
        × IfSome it.far.now (AreFarAnswers it.overflow (constants_of T.Flagged) it.round) };

    ghost gives = { λ it.
        IsConvertedBy it.overflow (constants_of S.Flagged) (constants_of T.Flagged) it.round };

    #[inline(always)]
    fn convert(&self, input: &[u8], output: &mut [u8]) -> Outcome {
        if self.in_line {
            let answer = convert_bits::<S, T>(
                self.far,
                self.overflow,
                self.round,
                number_of(input),
            );
            write_number(answer.bits, output);
            answer.outcome
        } else {
            convert_slowly::<S, T>(self.overflow, self.round, input, output)
        }
    }
}

impl<S: Flagged, T: Flagged> Results for Between<'_, S, T> {
    ghost bits = { T.BITS };

    ghost has = { λ it place. (S.PRECISION < S.BITS) × (T.PRECISION < T.BITS)
        × IfSome it.far.now (AreFarAnswers it.overflow (constants_of T.Flagged) it.round) };

    ghost gives = { λ it.
        IsAnswerAt it.overflow (constants_of S.Flagged) (constants_of T.Flagged) it.round };

    #[inline(always)]
    fn bits() -> usize
        ensures { result ≡ T.BITS }
    {
        T::BITS
    }

    #[inline(always)]
    fn result_in(&self, place: usize) -> Converted {
        convert_bits::<S, T>(self.far, self.overflow, self.round, place as u128)
    }

    ghost fits = { λ it place code outcome made. made.is_encoded.below };
}

impl<S: Flagged, T: Flagged> ByteResults for Between<'_, S, T> {
    fn fill_bytes(&self, table: &mut [u8]) {
        fill_entries(self, PLACES, table)
    }
}

/// Converts the value in little-endian bytes to the format `T`, into the bytes of `output`, out of line.
#[inline(never)]
pub fn convert_slowly<S: Flagged, T: Flagged>(
    overflow: Overflow,
    round: Round,
    input: &[u8],
    output: &mut [u8],
) -> Outcome
    requires { HaveWidths (constants_of S.Flagged) (constants_of T.Flagged) (length input.now)
        (length output.old) }
    ensures { IsConvertedBy overflow (constants_of S.Flagged) (constants_of T.Flagged) round
        input.now output.new result }
{
    let answer = convert_near::<S, T>(overflow, round, number_of(input));
    write_number(answer.bits, output);
    answer.outcome
}

/// Converts the value that these bits encode.
#[inline(always)]
pub fn convert_bits<S: Flagged, T: Flagged>(
    far: &Option<FarAnswers>,
    overflow: Overflow,
    round: Round,
    bits: u128,
) -> Converted
    requires read { S.PRECISION < S.BITS }
    requires written { T.PRECISION < T.BITS }
    requires far { IfSome far.now (AreFarAnswers overflow (constants_of T.Flagged) round) }
    ensures { IsAnswerFrom overflow (constants_of S.Flagged) (constants_of T.Flagged) round bits
        result }
{
    if let Some(number) = convert_normal::<S, T>(bits, round) {
        return converted_number(number);
    }
    if let Some(answers) = far {
        if let Some(place) = far_place::<S, T>(bits) {
            return answers[place];
        }
    }
    convert_near::<S, T>(overflow, round, bits)
}

/// A number as a converted value.
#[inline(always)]
fn converted_number(number: Encoded) -> Converted
    ensures bits { result.bits ≡ number.bits }
    ensures status { result.outcome.status ≡ number.status }
    ensures no_nan { result.outcome.is_nan ≡ false }
{
    Converted {
        bits: number.bits,
        outcome: Outcome {
            status: number.status,
            is_nan: false,
        },
    }
}

/// Converts the value that these bits encode by `convert_by`. Kept out of line, so that the loops over normal numbers
/// are small.
#[inline(never)]
fn convert_near<S: Flagged, T: Flagged>(overflow: Overflow, round: Round, bits: u128) -> Converted
    requires read { S.PRECISION < S.BITS }
    requires written { T.PRECISION < T.BITS }
    ensures { IsAnswerFrom overflow (constants_of S.Flagged) (constants_of T.Flagged) round bits
        result }
{
    let mut loses_info = false;
    let x = IeeeFloat::<S>::from_bits(bits);
    let answer: StatusAnd<IeeeFloat<T>> = convert_by(overflow, round, x, &mut loses_info);
    Converted {
        bits: answer.value.to_bits(),
        outcome: Outcome {
            status: answer.status,
            is_nan: answer.value.is_nan(),
        },
    }
}
