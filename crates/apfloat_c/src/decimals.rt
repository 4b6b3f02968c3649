//! Decimal texts as values, and the text of a value's shortest decimal, for C programs.

ghost use Rattle.std.specs.Prelude.{◌≡◌, ◌<◌, IsTrue, false, length, pos};
ghost use Rattle.apfloat_model.specs.order.Classes.{quanta_of};
ghost use Rattle.rustc_apfloat.specs.{Datum.finite, Lawful.format_with};
ghost use Rattle.rustc_apfloat.specs.FlaggedTypes.{constants_of, format_of};
ghost use Rattle.rustc_apfloat.specs.Types.{format_of as plain_format_of};
ghost use Rattle.apfloat_decimals.specs.{Decimals.HasQuadExponents, ShortestSearch.IsWithinQuad};
ghost use Rattle.formats_at_run_time.specs.{FlaggedKinds.flagged_kind_coded, FormatKinds.IfFormat, Modes.mode_coded};
ghost use Rattle.formats_at_run_time.specs.{Relations.in_pairs, ValueKinds.of_format, ValueKinds.of_pairs};
ghost use Rattle.coded_calls.specs.{Answers.IsValueWritten, Answers.whole, KnownCalls.text_format};
ghost use Rattle.apfloat_c.specs.Decimals.{IsKindText, IsParsed, IsReadInto, IsShortestWritten, IsShownText};
ghost use Rattle.apfloat_c.specs.Decimals.{IsShownWritten, IsText, whole_decimal, IsValueText, decimal_kind};
ghost use Rattle.apfloat_c.specs.Decimals.{known_reading, text_of_shortest};

use apfloat_decimals::formatting::{CAPACITY, put_decimal};
use apfloat_decimals::{Decimal, shortest};
use apfloat_digits::of_double_doubles::read_decimal_pair_ascii;
use coded_calls::answers::with_bits;
use coded_calls::codes::{ANSWERED, NO_SUCH_OPERATION, REFUSED_TEXT, UNKNOWN_FORMAT, UNKNOWN_MODE};
use coded_calls::data::{Answer, Halves};
use coded_calls::encoded_decimals::read_decimal_bits;
use formats_at_run_time::{
    BuiltInKind, FillsInFormat, FlaggedFormat, FlaggedKind, InFormat, mode_coded,
};
use rustc_apfloat::ieee::{Flagged, IeeeFloat, Semantics};
use rustc_apfloat::ppc::DoubleDouble;
use rustc_apfloat::{Category, Float, Round, StatusAnd};

/// A text of less than 64 bytes, with zeros after it.
#[repr(C)]
#[derive(Clone, Copy)]
pub struct DecimalText {
    /// The text and the zeros.
    pub bytes: [u8; CAPACITY],
    /// How many bytes the text has, without the zeros.
    pub length: u32,
}

const _: () = prove!(size_of::<DecimalText>() == 68);

const _: () = prove!(align_of::<DecimalText>() == 4);

/// The value of a text, a decimal number or what `apfloat_parse` reads, rounded once. A text with a byte above 127 is
/// refused, and so is a format with the flags of IEEE 754-2019.
#[unsafe(no_mangle)]
pub extern "C" fn apfloat_parse_decimal(
    format: u32,
    mode: u32,
    text: &[u8],
    answer: &mut Answer,
) -> u32
    ensures { IsParsed (known_reading (flagged_kind_coded format) (mode_coded mode)) text.now
        answer.old answer.new result }
{
    let Some(kind) = FlaggedKind::coded(format) else {
        return UNKNOWN_FORMAT;
    };
    let Some(round) = mode_coded(mode) else {
        return UNKNOWN_MODE;
    };
    let Some(kind) = decimal_kind(kind) else {
        return NO_SUCH_OPERATION;
    };
    match kind {
        BuiltInKind::OfFormat(format) => format.fill(DecimalReading { round, text }, answer),
        BuiltInKind::Pairs => read_pair(answer, round, text),
    }
}

/// The text of the shortest decimal that gives the value when it is rounded to nearest, ties to even. That of an
/// infinity is `inf` or `-inf`, and that of each NaN `nan`. Pairs of doubles do not have it.
#[unsafe(no_mangle)]
pub extern "C" fn apfloat_shortest(format: u32, x: Halves, text: &mut DecimalText) -> u32
    ensures { IsShortestWritten (text_format (flagged_kind_coded format)) (whole x)
        text.old text.new result }
{
    match FlaggedKind::coded(format) {
        None => UNKNOWN_FORMAT,
        Some(FlaggedKind::Pairs) => NO_SUCH_OPERATION,
        Some(FlaggedKind::OfFormat(format)) => {
            write(format.built_in().run(Writing { bits: x.number() }), text);
            ANSWERED
        }
    }
}

/// The text of a value for a person: a whole number below 10^16 in full, and any other value as `apfloat_shortest`
/// writes it.
#[unsafe(no_mangle)]
pub extern "C" fn apfloat_to_text(format: u32, x: Halves, text: &mut DecimalText) -> u32
    ensures { IsShownWritten (text_format (flagged_kind_coded format)) (whole x)
        text.old text.new result }
{
    match FlaggedKind::coded(format) {
        None => UNKNOWN_FORMAT,
        Some(FlaggedKind::Pairs) => NO_SUCH_OPERATION,
        Some(FlaggedKind::OfFormat(format)) => {
            write(format.built_in().run(Showing { bits: x.number() }), text);
            ANSWERED
        }
    }
}

/// The kind of values in which decimals are read, if it has the flags of the built-in formats.
fn decimal_kind(kind: FlaggedKind) -> Option<BuiltInKind>
    ensures { result ≡ decimal_kind kind }
{
    match kind {
        FlaggedKind::OfFormat(FlaggedFormat::BuiltIn(format)) => {
            Some(BuiltInKind::OfFormat(format))
        }
        FlaggedKind::OfFormat(_) => None,
        FlaggedKind::Pairs => Some(BuiltInKind::Pairs),
    }
}

/// A text to be read.
#[derive(Clone, Copy)]
pub(crate) struct DecimalReading<'a> {
    pub round: Round,
    pub text: &'a [u8],
}

impl FillsInFormat for DecimalReading<'_> {
    type Place = Answer;

    type Output = u32;

    ghost gives = { λ it kind old new code.
        IfFormat kind (λ c. HasQuadExponents (format_with c))
        → IsReadInto kind it.round it.text.now old new code };

    #[inline(always)]
    fn fill_in_format<S: Flagged>(self, answer: &mut Answer) -> u32 {
        read_in_format::<S>(answer, self.round, self.text)
    }
}

/// Reads a text in a format. The answer is written where the caller wants it: to copy it just after its parts were
/// written would stall the processor until they are stored.
#[inline(never)]
fn read_in_format<S: Flagged>(answer: &mut Answer, round: Round, text: &[u8]) -> u32
    requires { S.PRECISION < S.BITS }
    ensures { let c = constants_of S.Flagged in HasQuadExponents (format_of S.Flagged)
        → IsReadInto (of_format c) round text.now answer.old answer.new result }
{
    if !has_quad_exponents::<S>() {
        return REFUSED_TEXT;
    }
    match read_decimal_bits::<S>(text, round) {
        Ok(read) => {
            *answer = with_bits(read);
            ANSWERED
        }
        Err(_) => REFUSED_TEXT,
    }
}

/// Whether the exponents of the format are within those of `quad`, as they are in every built-in format.
#[inline(always)]
fn has_quad_exponents<S: Flagged>() -> bool
    ensures has { IsTrue result → HasQuadExponents (format_of S.Flagged) }
    ensures every { HasQuadExponents (format_of S.Flagged) → IsTrue result }
{
    (S::MIN_EXP >= -16382) & (S::MAX_EXP <= 16383)
}

/// Reads a text as a pair of doubles.
pub(crate) fn read_pair(answer: &mut Answer, round: Round, text: &[u8]) -> u32
    ensures { IsReadInto of_pairs round text.now answer.old answer.new result }
{
    match read_decimal_pair_ascii(text, round) {
        Ok(read) => {
            *answer = pair_in_bits(read);
            ANSWERED
        }
        Err(_) => REFUSED_TEXT,
    }
}

/// A pair with its flags.
pub(crate) fn pair_in_bits(read: StatusAnd<DoubleDouble>) -> Answer
    ensures { IsValueWritten in_pairs read (pos 0) result }
{
    Answer::of(read.value.to_bits(), read.status, 0)
}

/// A value whose text is to be written.
#[derive(Clone, Copy)]
struct Writing {
    bits: u128,
}

impl InFormat for Writing {
    type Output = Shortest;

    ghost can = { λ _ kind. IfFormat kind (λ c. IsWithinQuad (format_with c)) };

    ghost gives = { λ it kind found. IsKindText IsValueText kind it.bits
        (text_of_shortest found) };

    fn in_format<S: Semantics>(self) -> Shortest {
        shortest_of(IeeeFloat::<S>::from_bits(self.bits))
    }
}

/// A value whose text for a person is to be written.
#[derive(Clone, Copy)]
struct Showing {
    bits: u128,
}

impl InFormat for Showing {
    type Output = Shortest;

    ghost can = { λ _ kind. IfFormat kind (λ c. IsWithinQuad (format_with c)) };

    ghost gives = { λ it kind found. IsKindText IsShownText kind it.bits
        (text_of_shortest found) };

    fn in_format<S: Semantics>(self) -> Shortest {
        shown_of(IeeeFloat::<S>::from_bits(self.bits))
    }
}

/// A whole number below 10^16 as a decimal without a fraction.
fn whole_decimal<S: Semantics>(x: IeeeFloat<S>) -> Option<Decimal>
    ensures { result ≡ whole_decimal (plain_format_of S.Semantics) x }
{
    match x.category() {
        Category::Infinity | Category::NaN => None,
        Category::Zero => Some(Decimal {
            negative: x.is_negative(),
            digits: 0,
            exponent: 0,
        }),
        Category::Normal => whole_number(x.is_negative(), x.abs()),
    }
}

/// The same of a positive number and its sign.
fn whole_number<S: Semantics>(negative: bool, x: IeeeFloat<S>) -> Option<Decimal>
    requires { x ≡ finite false (quanta_of x) }
    ensures { result ≡ whole_decimal (plain_format_of S.Semantics) (finite negative (quanta_of x)) }
{
    let mut is_exact = false;
    let digits = x.to_u128_r(64, Round::TowardZero, &mut is_exact).value;
    if !is_exact || digits >= 10_000_000_000_000_000 {
        return None;
    }
    Some(Decimal {
        negative,
        digits,
        exponent: 0,
    })
}

/// What is written of a value for a person.
fn shown_of<S: Semantics>(x: IeeeFloat<S>) -> Shortest
    requires { IsWithinQuad (plain_format_of S.Semantics) }
    ensures { IsShownText (plain_format_of S.Semantics) x (text_of_shortest result) }
{
    match whole_decimal(x) {
        Some(decimal) => Shortest::Number(decimal),
        None => shortest_of(x),
    }
}

/// What is written of a value.
#[derive(Clone, Copy)]
pub(crate) enum Shortest {
    /// The shortest decimal of a number.
    Number(Decimal),
    /// An infinity, which may be negative.
    Infinity(bool),
    Nan,
}

/// What is written of a value.
fn shortest_of<S: Semantics>(x: IeeeFloat<S>) -> Shortest
    requires { IsWithinQuad (plain_format_of S.Semantics) }
    ensures { IsValueText (plain_format_of S.Semantics) x (text_of_shortest result) }
{
    match shortest(x) {
        Some(decimal) => Shortest::Number(decimal),
        None if x.is_nan() => Shortest::Nan,
        None => Shortest::Infinity(x.is_negative()),
    }
}

/// Writes a text; that of a number is written where the caller wants it: to copy it just after its bytes were written
/// would stall the processor until they are stored.
pub(crate) fn write(found: Shortest, text: &mut DecimalText)
    ensures { IsText (text_of_shortest found) text.new }
{
    match found {
        Shortest::Number(decimal) => {
            text.length = put_decimal(&mut text.bytes, decimal) as u32;
        }
        Shortest::Infinity(negative) => *text = text_of(if negative { "-inf" } else { "inf" }),
        Shortest::Nan => *text = text_of("nan"),
    }
}

/// A text as it is passed to C.
pub(crate) fn text_of(text: &str) -> DecimalText
    requires { length text.now < 64 }
    ensures { IsText text.now result }
{
    let mut bytes = [0; CAPACITY];
    bytes[..text.len()].copy_from_slice(text.as_bytes());
    DecimalText {
        bytes,
        length: text.len() as u32,
    }
}
