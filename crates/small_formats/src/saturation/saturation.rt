//! Conversions that saturate: a number that overflows becomes the largest value of its sign.

ghost use Rattle.std.specs.Prelude.{◌≡◌};
ghost use Rattle.apfloat_model.specs.order.Classes.{category_of, is_negative};
ghost use Rattle.apfloat_model.specs.formats.{Datum.Datum, Datum.finite, Format.Format, Format.largest};
ghost use Rattle.apfloat_model.specs.{rounding.Flags.bits_of, arithmetic.Conversions.IsConversion};
ghost use Rattle.apfloat_model.specs.declared.kinds.Round.{Round};
ghost use Rattle.apfloat_ieee.specs.FlaggedTypes.{format_of};
ghost use Rattle.small_formats.specs.saturation.Saturation.{IsConversionBy, class_of, saturated};

use apfloat_base::{Category, Float, FloatConvert, Round, Status, StatusAnd};
use apfloat_ieee::{Flagged, IeeeFloat};

/// What a NaN becomes where only finite values are wanted.
#[derive(Clone, Copy, Debug)]
pub enum FiniteNan {
    /// What it becomes without that wish.
    Kept,
    /// The largest value, with sign plus.
    Largest,
}

/// What a number becomes that is past the largest value once it is rounded.
#[derive(Clone, Copy, Debug)]
pub enum Overflow {
    /// What its rounding delivers: an infinity (or the NaN of a format without infinities), or the largest value.
    Rounded,
    /// The largest value of its sign, in every mode.
    Saturated,
    /// The same, and an infinity becomes the largest value of its sign too, with INEXACT; a NaN that becomes the
    /// largest value has INVALID_OP. This is the saturating conversion of the OCP's 8-bit formats and of PTX
    /// (`satfinite`).
    Finite(FiniteNan),
}

/// What a value is, as far as saturation asks.
#[derive(Clone, Copy)]
pub enum ValueClass {
    /// A zero or a number.
    Number,
    /// An infinity.
    Infinity,
    /// A NaN.
    NotANumber,
}

impl ValueClass {
    /// The class of the values of a category.
    #[inline]
    pub fn of(category: Category) -> ValueClass
        ensures { (x : Datum) → category_of x ≡ category → class_of x ≡ result }
    {
        match category {
            Category::NaN => ValueClass::NotANumber,
            Category::Infinity => ValueClass::Infinity,
            Category::Zero => ValueClass::Number,
            Category::Normal => ValueClass::Number,
        }
    }
}

/// A value in the format `T`, rounded once, with the flags of that rounding. Saturation changes no flags of numbers;
/// only `Overflow::Finite` changes the conversion of infinities and NaNs.
#[inline]
pub fn convert_by<S: Flagged, T: Flagged>(
    overflow: Overflow,
    round: Round,
    x: IeeeFloat<S>,
    loses_info: &mut bool,
) -> StatusAnd<IeeeFloat<T>>
    ensures { IsConversionBy overflow (format_of S.Flagged) (format_of T.Flagged) round x
        result.value (bits_of result.status) loses_info.new }
{
    let answer: StatusAnd<IeeeFloat<T>> = x.convert_r(round, loses_info);
    treat(
        overflow,
        ValueClass::of(x.category()),
        x.is_negative(),
        answer,
        loses_info,
    )
}

/// What a conversion of a value of this class and sign gives, if `answer` is its conversion without saturation.
#[inline]
pub fn treat<T: Flagged>(
    overflow: Overflow,
    class: ValueClass,
    negative: bool,
    answer: StatusAnd<IeeeFloat<T>>,
    loses_info: &mut bool,
) -> StatusAnd<IeeeFloat<T>>
    ensures { let g = format_of T.Flagged in (f : Format) (mode : Round) (x : Datum)
        → class_of x ≡ class → is_negative x ≡ negative
        → IsConversion f g mode x answer.value (bits_of answer.status) loses_info.old
        → IsConversionBy overflow f g mode x result.value (bits_of result.status) loses_info.new }
{
    match overflow {
        Overflow::Rounded => answer,
        Overflow::Saturated => answer.status.and(saturated(class, negative, answer.value)),
        Overflow::Finite(nans) => match class {
            ValueClass::NotANumber => match nans {
                FiniteNan::Kept => answer,
                FiniteNan::Largest => {
                    *loses_info = true;
                    Status::INVALID_OP.and(largest_of_sign(false))
                }
            },
            ValueClass::Infinity => {
                *loses_info = true;
                Status::INEXACT.and(largest_of_sign(negative))
            }
            ValueClass::Number => answer.status.and(saturated(class, negative, answer.value)),
        },
    }
}

/// The converted value, given the value that one of this class and sign was rounded to.
#[inline]
fn saturated<T: Flagged>(class: ValueClass, negative: bool, rounded: IeeeFloat<T>) -> IeeeFloat<T>
    ensures { (x : Datum) → class_of x ≡ class → is_negative x ≡ negative
        → result ≡ saturated (format_of T.Flagged) x rounded }
{
    match class {
        ValueClass::Number => {
            if rounded.is_finite() {
                rounded
            } else {
                largest_of_sign(negative)
            }
        }
        ValueClass::Infinity => rounded,
        ValueClass::NotANumber => rounded,
    }
}

/// The largest value with this sign.
pub fn largest_of_sign<T: Flagged>(negative: bool) -> IeeeFloat<T>
    ensures { result ≡ finite negative (largest (format_of T.Flagged)) }
{
    let largest = IeeeFloat::<T>::largest();
    if negative { -largest } else { largest }
}
