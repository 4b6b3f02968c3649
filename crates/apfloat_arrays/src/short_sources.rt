//! Values converted to formats of at most four digits by a table of all values of six digits with the same exponents. A
//! value is first rounded to odd to six digits, which changes neither the result of its conversion nor the flags.

ghost use Rattle.std.specs.Prelude.{◌≡◌, ◌-◌, ◌*◌, ◌^◌, ◌<◌, ◌≤◌, pos, negsuc, ◌+ℤ◌, ◌-ℤ◌, ◌≤ℤ◌, true, false, refl};
ghost use Rattle.std.specs.Prelude.{IsTrue, length};
ghost use Rattle.apfloat_model.specs.declared.kinds.NonfiniteBehavior.TheVariants.{IEEE754};
ghost use Rattle.rustc_apfloat.specs.FlaggedTypes.{constants_of};
ghost use Rattle.rustc_apfloat.proofs.LawTest.{lawful_from_test};
ghost use Rattle.apfloat_arrays.specs.ShortSources.{AreShortened, HasShortTable, IsCoarseFor, IsShortFor, is_nan_of};
ghost use Rattle.apfloat_arrays.specs.{ShortSources.short_of, Tasks.HaveWidths, Tasks.IsDone, Tasks.IsGiven};
ghost use Rattle.apfloat_arrays.specs.Values.{IsConvertedBy};

use crate::bytes::{bits_in, has_width};
use crate::counts::{Counts, Outcome};
use crate::each::{ValueConversion, convert_each};
use crate::far_numbers::far_answers_for;
use crate::one_value::{Between, convert_slowly};
use crate::tables::{fill_table, look_up};
use crate::task::Task;
use crate::widths::Widths;
use rustc_apfloat::ieee::{Flagged, NonfiniteBehavior, Semantics};
use rustc_apfloat::{ExpInt, Round};
use small_formats::saturation::Overflow;
use std::marker::PhantomData;

/// Six digits with the exponents of singles.
#[derive(Clone, Copy)]
pub struct ShortSingleS;

impl Semantics for ShortSingleS {
    const BITS: usize = 14;

    const EXP_BITS: usize = 8;

    const PRECISION: usize = 6;

    const NONFINITE_BEHAVIOR: NonfiniteBehavior = NonfiniteBehavior::IEEE754;

    const MAX_EXP: ExpInt = 127;

    const IEEE_MAX_EXP: ExpInt = 127;

    const MIN_EXP: ExpInt = -126;

    const IEEE_MIN_EXP: ExpInt = -126;

    const NAN_SIGNIFICAND_BASE: u128 = 0;

    const NAN_PAYLOAD_MASK: u128 = (1 << 5) - 1;

    const QNAN_SIGNIFICAND: u128 = 1 << 4;

    const EXPLICIT_INTEGER_BIT: bool = false;

    const TINY_BEFORE_ROUNDING: bool = false;

    ghost BITS = { 14 };

    ghost EXP_BITS = { 8 };

    ghost PRECISION = { 6 };

    ghost NONFINITE_BEHAVIOR = { IEEE754 };

    ghost MAX_EXP = { pos 127 };

    ghost IEEE_MAX_EXP = { pos 127 };

    ghost MIN_EXP = { negsuc 125 };

    ghost IEEE_MIN_EXP = { negsuc 125 };

    ghost NAN_SIGNIFICAND_BASE = { 0 };

    ghost NAN_PAYLOAD_MASK = { 2 ^ 5 - 1 };

    ghost QNAN_SIGNIFICAND = { 2 ^ 4 };

    ghost EXPLICIT_INTEGER_BIT = { false };

    ghost TINY_BEFORE_ROUNDING = { false };

    ghost lawful = { lawful_from_test _ refl };
}

/// Six digits with the exponents of halves.
#[derive(Clone, Copy)]
pub struct ShortHalfS;

impl Semantics for ShortHalfS {
    const BITS: usize = 11;

    const EXP_BITS: usize = 5;

    const PRECISION: usize = 6;

    const NONFINITE_BEHAVIOR: NonfiniteBehavior = NonfiniteBehavior::IEEE754;

    const MAX_EXP: ExpInt = 15;

    const IEEE_MAX_EXP: ExpInt = 15;

    const MIN_EXP: ExpInt = -14;

    const IEEE_MIN_EXP: ExpInt = -14;

    const NAN_SIGNIFICAND_BASE: u128 = 0;

    const NAN_PAYLOAD_MASK: u128 = (1 << 5) - 1;

    const QNAN_SIGNIFICAND: u128 = 1 << 4;

    const EXPLICIT_INTEGER_BIT: bool = false;

    const TINY_BEFORE_ROUNDING: bool = false;

    ghost BITS = { 11 };

    ghost EXP_BITS = { 5 };

    ghost PRECISION = { 6 };

    ghost NONFINITE_BEHAVIOR = { IEEE754 };

    ghost MAX_EXP = { pos 15 };

    ghost IEEE_MAX_EXP = { pos 15 };

    ghost MIN_EXP = { negsuc 13 };

    ghost IEEE_MIN_EXP = { negsuc 13 };

    ghost NAN_SIGNIFICAND_BASE = { 0 };

    ghost NAN_PAYLOAD_MASK = { 2 ^ 5 - 1 };

    ghost QNAN_SIGNIFICAND = { 2 ^ 4 };

    ghost EXPLICIT_INTEGER_BIT = { false };

    ghost TINY_BEFORE_ROUNDING = { false };

    ghost lawful = { lawful_from_test _ refl };
}

/// The number of places in the larger table.
const PLACES: usize = 1 << 14;

/// Whether a table of all values of `Z` has the results, and there are enough values to fill it.
#[inline(always)]
pub fn has_short_table<S: Flagged, Z: Flagged, T: Flagged>(widths: Widths, count: usize) -> bool
    ensures { IsTrue result → AreShortened (constants_of S.Flagged) (constants_of Z.Flagged)
        (constants_of T.Flagged) widths × (Z.BITS ≤ 14) }
{
    is_short_for::<S, Z>()
        & is_coarse_for::<Z, T>()
        & (S::BITS <= 32)
        & pays::<Z>(count)
        & (T::BITS <= 8)
        & has_width::<S>(widths.source)
        & (widths.target == 1)
}

/// Whether there are four times as many values as a table of all values of `Z` has. Fewer take less time one by one.
#[inline(always)]
fn pays<Z: Flagged>(count: usize) -> bool
    ensures { IsTrue result → Z.BITS ≤ 14 }
{
    Z::BITS <= 14 && count >= 4 << Z::BITS
}

/// Whether `Z` has six digits and the exponents of `S`.
#[inline(always)]
fn is_short_for<S: Flagged, Z: Flagged>() -> bool
    ensures { IsTrue result → IsShortFor (constants_of S.Flagged) (constants_of Z.Flagged) }
{
    (Z::PRECISION == 6)
        & (S::PRECISION >= 6)
        & (S::EXP_BITS == Z::EXP_BITS)
        & (S::MIN_EXP == Z::MIN_EXP)
        & (S::NONFINITE_BEHAVIOR == NonfiniteBehavior::IEEE754)
        & (Z::NONFINITE_BEHAVIOR == NonfiniteBehavior::IEEE754)
        & !S::EXPLICIT_INTEGER_BIT
        & !Z::EXPLICIT_INTEGER_BIT
}

/// Whether `T` has at most four digits and a quantum of at least eight quanta of `Z`.
#[inline(always)]
fn is_coarse_for<Z: Flagged, T: Flagged>() -> bool
    ensures { IsTrue result → IsCoarseFor (constants_of Z.Flagged) (constants_of T.Flagged) }
{
    (T::PRECISION <= 4) & has_finer_quantum::<Z, T>()
}

/// Whether eight quanta of `Z` are at most one of `T`.
#[inline(always)]
fn has_finer_quantum<Z: Flagged, T: Flagged>() -> bool
    ensures { IsTrue result → ((pos T.PRECISION -ℤ T.MIN_EXP) +ℤ pos 3)
        ≤ℤ (pos Z.PRECISION -ℤ Z.MIN_EXP) }
{
    T::PRECISION as ExpInt - T::MIN_EXP + 3 <= Z::PRECISION as ExpInt - Z::MIN_EXP
}

/// Converts each value in its place, by a table of all values of `Z`.
#[inline(never)]
pub fn convert_shortened<S: Flagged, Z: Flagged, T: Flagged>(
    task: Task,
    widths: Widths,
    output: &mut [u8],
) -> Counts
    requires listed { Z.PRECISION < Z.BITS }
    requires places { Z.BITS ≤ 14 }
    requires short { AreShortened (constants_of S.Flagged) (constants_of Z.Flagged)
        (constants_of T.Flagged) widths }
    requires given { IsGiven (constants_of S.Flagged) (constants_of T.Flagged) task widths
        output.old }
    ensures { IsDone (constants_of S.Flagged) (constants_of T.Flagged) task.entry widths output.new
        result }
{
    let mut values = [0_u8; PLACES];
    let mut outcomes = [Outcome::EXACT; PLACES];
    let places = places_of::<Z>();
    let whole = Widths {
        source: S::BITS / 8,
        target: 1,
    };
    convert_with::<S, Z, T>(
        task,
        whole,
        places,
        &mut values[..places],
        &mut outcomes[..places],
        output,
    )
}

/// The number of values of `Z`.
#[inline(always)]
fn places_of<Z: Flagged>() -> usize
    requires { Z.BITS ≤ 14 }
    ensures is { result ≡ 2 ^ Z.BITS }
    ensures most { result ≤ 16384 }
{
    1 << Z::BITS
}

/// `convert_shortened` in memory lent for the table, which has `places` places.
#[inline(always)]
fn convert_with<S: Flagged, Z: Flagged, T: Flagged>(
    task: Task,
    widths: Widths,
    places: usize,
    values: &mut [u8],
    outcomes: &mut [Outcome],
    output: &mut [u8],
) -> Counts
    requires listed { Z.PRECISION < Z.BITS }
    requires places { places ≡ 2 ^ Z.BITS }
    requires values { length values.old ≡ places * 1 }
    requires outcomes { length outcomes.old ≡ places }
    requires short { AreShortened (constants_of S.Flagged) (constants_of Z.Flagged)
        (constants_of T.Flagged) widths }
    requires given { IsGiven (constants_of S.Flagged) (constants_of T.Flagged) task widths
        output.old }
    ensures { IsDone (constants_of S.Flagged) (constants_of T.Flagged) task.entry widths output.new
        result }
{
    let far = far_answers_for::<Z, T>(task.overflow, task.round, places);
    let listed = Between::<Z, T> {
        in_line: true,
        far: &far,
        overflow: task.overflow,
        round: task.round,
        formats: PhantomData,
    };
    fill_table(&listed, 1, places, values, outcomes);
    let shortened = Shortened::<S, Z, T> {
        overflow: task.overflow,
        round: task.round,
        values,
        outcomes,
        formats: PhantomData,
    };
    convert_each(&shortened, widths, task.count, task.input, output)
}

/// The conversion from `S` to `T` by a table of those from `Z`.
#[derive(Drop)]
struct Shortened<'a, S: Flagged, Z: Flagged, T: Flagged> {
    overflow: Overflow,
    round: Round,
    values: &'a [u8],
    outcomes: &'a [Outcome],
    formats: PhantomData<(S, Z, T)>,
}

impl<S: Flagged, Z: Flagged, T: Flagged> ValueConversion for Shortened<'_, S, Z, T> {
    ghost can = { λ it. HasShortTable it.overflow (constants_of S.Flagged) (constants_of Z.Flagged)
        (constants_of T.Flagged) it.round it.values.now it.outcomes.now };

    ghost gives = { λ it.
        IsConvertedBy it.overflow (constants_of S.Flagged) (constants_of T.Flagged) it.round };

    /// Converts a value by the table, or a NaN, whose payload may need more digits, in the general way.
    #[inline(always)]
    fn convert(&self, input: &[u8], output: &mut [u8]) -> Outcome {
        let bits = bits_in::<S>(input);
        if is_nan::<S>(bits) {
            convert_apart::<S, T>(self.overflow, self.round, input, output)
        } else {
            look_up(self.values, self.outcomes, short_of::<S, Z>(bits), output)
        }
    }
}

/// Converts a value in the general way. A function of this file alone, so that the compiler knows the widths.
#[inline(never)]
fn convert_apart<S: Flagged, T: Flagged>(
    overflow: Overflow,
    round: Round,
    source: &[u8],
    target: &mut [u8],
) -> Outcome
    requires { HaveWidths (constants_of S.Flagged) (constants_of T.Flagged) (length source.now)
        (length target.old) }
    ensures { IsConvertedBy overflow (constants_of S.Flagged) (constants_of T.Flagged) round
        source.now target.new result }
{
    convert_slowly::<S, T>(overflow, round, source, target)
}

/// Whether the bits are those of a NaN.
#[inline(always)]
fn is_nan<S: Flagged>(bits: u32) -> bool
    requires read { S.PRECISION < S.BITS }
    requires implied { S.EXPLICIT_INTEGER_BIT ≡ false }
    requires bits { S.BITS ≤ 32 }
    ensures { result ≡ is_nan_of (constants_of S.Flagged) bits }
{
    let unit = 1_u32 << (S::PRECISION - 1);
    let exponents = 1_u32 << S::EXP_BITS;
    (bits / unit % exponents == exponents - 1) & (bits % unit != 0)
}

/// The bits of the value of six digits that a value rounded to odd becomes.
#[inline(always)]
fn short_of<S: Flagged, Z: Flagged>(bits: u32) -> usize
    requires read { S.PRECISION < S.BITS }
    requires listed { Z.PRECISION < Z.BITS }
    requires short { IsShortFor (constants_of S.Flagged) (constants_of Z.Flagged) }
    requires bits { S.BITS ≤ 32 }
    requires below { bits < 2 ^ S.BITS }
    ensures is { result ≡ short_of (constants_of S.Flagged) bits }
    ensures within { result < 2 ^ Z.BITS }
{
    let unit = 1_u32 << (S::PRECISION - 6);
    let kept = (bits / unit) as usize;
    if bits % unit == 0 {
        kept
    } else {
        kept + 1 - kept % 2
    }
}
