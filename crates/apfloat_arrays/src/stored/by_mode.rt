//! Conversions into storage formats by the modes of conversions: to odd, and with random digits that the caller lends.

ghost use Rattle.std.specs.Prelude.{◌≡◌, ◌*◌, ◌^◌, ◌<◌, ◌≤◌, length};
ghost use Rattle.rustc_apfloat.specs.{Flags.bits_of, Types.format_of};
ghost use Rattle.formats_at_run_time.specs.FormatKinds.{IfFormat};
ghost use Rattle.small_formats.specs.{ModeConversions.IsIntoBy, declared.NanResult.TheVariants.Zero};
ghost use Rattle.small_formats.specs.Types.{constants_of as storage_constants_of};
ghost use Rattle.apfloat_arrays.specs.stored.Formats.{bits_in};
ghost use Rattle.apfloat_arrays.specs.stored.ByMode.{AreStoredWith, HasDigits, HasRandomAt, HasRandoms, IsModeWith};
ghost use Rattle.apfloat_arrays.specs.stored.ByMode.{IsOwnBy, IsStoredByMode, IsStoredWith, mode_width, random_of};
ghost use Rattle.apfloat_arrays.specs.Bytes.{number_of};

use crate::bytes::value_at;
use crate::specials::word_of;
use crate::stored::formats::StoredFormat;
use crate::{Converted, Counts, Extended, Outcome, number_of, width, write_number};
use formats_at_run_time::{BuiltInFormat, InFormat};
use rustc_apfloat::ieee::{IeeeFloat, Semantics};
use rustc_apfloat::{Float, Round, StatusAnd};
use small_formats::stochastic::{e3m4_by, unsigned_by};
use small_formats::{
    ConversionRound, E2M1FN, E2M3FN, E3M2FN, E8M0FNU, NanResult, RandomDigits, StorageFormat,
    StoredFloat,
};

/// How values are rounded.
#[derive(Clone, Copy)]
pub enum EachRound {
    /// In a mode of IEEE 754.
    Ieee(Round),
    /// To odd.
    ToOdd,
    /// With so many random digits, 1 to 32, of a number that each value has for itself.
    Stochastic(u32),
}

impl EachRound {
    /// The random number with that index, or 0 where none is used.
    fn random_at(self, index: usize, randoms: &[u8]) -> u32
        requires { HasRandomAt self index (length randoms.now) }
        ensures { result ≡ random_of self randoms.now index }
    {
        match self {
            EachRound::Ieee(_) => 0,
            EachRound::ToOdd => 0,
            EachRound::Stochastic(_) => {
                let from = index * 4;
                word_of(&randoms[from..from + 4])
            }
        }
    }

    /// The mode of a value with this random number, of which the lowest digits are taken.
    fn with(self, random: u32) -> ConversionRound
        requires { HasDigits self }
        ensures { IsModeWith self random result }
    {
        match self {
            EachRound::Ieee(round) => ConversionRound::Ieee(round),
            EachRound::ToOdd => ConversionRound::ToOdd,
            EachRound::Stochastic(digits) => {
                let lowest = u64::from(random) % (1 << digits);
                match RandomDigits::new(digits, lowest as u32) {
                    Ok(bits) => ConversionRound::Stochastic(bits),
                    // So many digits fit.
                    Err(_) => ConversionRound::ToOdd,
                }
            }
        }
    }
}

/// A value as a code of the format `F`, rounded once in a mode of conversions.
fn element_by<S: Semantics, F: StorageFormat>(
    x: IeeeFloat<S>,
    mode: ConversionRound,
    loses_info: &mut bool,
) -> StatusAnd<u8>
    ensures stored { IsIntoBy (storage_constants_of F.StorageFormat) (format_of S.Semantics) mode
        Zero x result.value (bits_of result.status) loses_info.new }
    ensures below { result.value < 2 ^ F.BITS }
{
    let answer = StoredFloat::<F>::from_value_by(x, mode, NanResult::Zero, loses_info);
    answer.status.and(answer.value.to_bits())
}

impl StoredFormat {
    /// A value of any format as a code, rounded once in a mode of conversions.
    fn from_value_by<S: Semantics>(
        self,
        x: IeeeFloat<S>,
        mode: ConversionRound,
        loses_info: &mut bool,
    ) -> StatusAnd<u8>
        ensures stored { IsOwnBy self (format_of S.Semantics) mode x result.value
            (bits_of result.status) loses_info.new }
        ensures below { result.value < 2 ^ bits_in self }
    {
        match self {
            StoredFormat::E2M1FN => element_by::<S, E2M1FN>(x, mode, loses_info),
            StoredFormat::E2M3FN => element_by::<S, E2M3FN>(x, mode, loses_info),
            StoredFormat::E3M2FN => element_by::<S, E3M2FN>(x, mode, loses_info),
            StoredFormat::E3M4 => {
                let answer = e3m4_by(x, mode, loses_info);
                answer.status.and(answer.value.to_bits())
            }
            StoredFormat::E8M0FNU => {
                let answer = E8M0FNU::from_value_by(x, mode, loses_info);
                answer.status.and(answer.value.to_bits())
            }
            StoredFormat::UE4M3 => {
                let answer = unsigned_by(x, mode, loses_info);
                answer.status.and(answer.value.to_bits())
            }
        }
    }
}

/// The call that converts a value, made at the type of its format.
#[derive(Clone, Copy)]
struct StoreByMode {
    target: StoredFormat,
    mode: ConversionRound,
    bits: u128,
}

impl InFormat for StoreByMode {
    type Output = Converted;

    ghost gives = { λ it kind made. IfFormat kind
        (λ c. IsStoredByMode c it.target it.mode it.bits made.bits made.outcome) };

    fn in_format<S: Semantics>(self) -> Converted {
        let mut loses_info = false;
        let x = IeeeFloat::<S>::from_bits(self.bits);
        let answer = self.target.from_value_by(x, self.mode, &mut loses_info);
        Converted {
            bits: u128::from(answer.value),
            outcome: Outcome {
                status: answer.status,
                is_nan: self.target.is_nan(answer.value),
            },
        }
    }
}

/// A conversion into a storage format, one value a byte, without saturation.
#[derive(Clone, Copy)]
pub struct ModeConversion {
    /// The source format.
    pub source: BuiltInFormat,
    /// The target format.
    pub target: StoredFormat,
    /// How values are rounded.
    pub round: EachRound,
}

impl ModeConversion {
    /// How many bytes a value of the source format takes.
    pub fn width(self) -> usize
        ensures is { result ≡ mode_width self }
        ensures least { 1 ≤ result }
        ensures greatest { result ≤ 16 }
    {
        width(self.source, Extended::Packed)
    }

    /// Converts the value of these bits, with this random number. The bits above those of its format are ignored.
    pub fn convert_bits(self, random: u32, bits: u128) -> Converted
        requires { HasDigits self.round }
        ensures { IsStoredWith self random bits result.bits result.outcome }
    {
        self.source.run(StoreByMode {
            target: self.target,
            mode: self.round.with(random),
            bits,
        })
    }

    /// `convert_bits` of the value in little-endian bytes; its code is written into the byte of `output`.
    fn convert_value(self, random: u32, input: &[u8], output: &mut [u8]) -> Outcome
        requires digits { HasDigits self.round }
        requires input { length input.now ≤ 16 }
        requires output { length output.old ≡ 1 }
        ensures { IsStoredWith self random (number_of input.now) (number_of output.new) result }
    {
        let made = self.convert_bits(random, number_of(input));
        write_number(made.bits, output);
        made.outcome
    }

    /// Converts `count` values, each in its place. If the mode needs random digits, those of a value are in the number
    /// with its index in `randoms`; a number takes four bytes, the lowest first.
    pub fn convert(self, count: usize, randoms: &[u8], input: &[u8], output: &mut [u8]) -> Counts
        requires digits { HasDigits self.round }
        requires randoms { HasRandoms self.round count (length randoms.now) }
        requires input { length input.now ≡ count * mode_width self }
        requires output { length output.old ≡ count * 1 }
        ensures { AreStoredWith self randoms.now input.now count output.new result }
    {
        let width = self.width();
        let mut counts = Counts::NONE;
        for index in 0..count {
            let random = self.round.random_at(index, randoms);
            let value = value_at(input, index, width);
            let to = index * 1;
            let place = &mut output[to..to + 1];
            counts.count(self.convert_value(random, value, place));
        }
        counts
    }
}
