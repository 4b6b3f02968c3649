//! The constants of a format that rounding reads.

ghost use Rattle.apfloat_model.specs.{formats.Lawful.AreParameters, rounding.Bounds.span_bound};

use apfloat_model::{ExpInt, NonfiniteBehavior};
use apfloat_words::power_of_two;

/// The constants of a format that rounding reads. Its precision and exponents obey the law of formats.
#[derive(Clone, Copy)]
pub struct Shape {
    /// How many binary digits a significand has, including the integer bit.
    pub precision: u32,
    /// The exponent of the integer bit of the smallest normalized value.
    pub min_exp: ExpInt,
    /// The exponent of the integer bit of the largest value.
    pub max_exp: ExpInt,
    /// Which non-finite values the format has.
    pub nonfinite: NonfiniteBehavior,
    /// Whether encodings contain the integer bit.
    pub explicit_integer_bit: bool,
    /// Whether tininess is detected before rounding.
    pub tiny_before_rounding: bool,
    /// Whether flags are raised as IEEE 754-2019 7.4 and 7.5 say.
    pub ieee_flags: bool,
    pub ghost parameters: { AreParameters precision min_exp max_exp },
}

impl Shape {
    ghost use Rattle.std.specs.Prelude.{◌≡◌, ◌-◌, ◌^◌, ◌<◌, ◌≤◌};
    ghost use Rattle.apfloat_model.specs.formats.Format.{greatest_significand, smallest_normalized};
    ghost use Rattle.apfloat_rounding.specs.Shapes.{format_at};

    /// The same shape, rebuilt from its fields, for a call that takes it by address: a struct passed that way is kept
    /// in memory, and its constants would no longer fold in the caller.
    #[inline(always)]
    pub fn remade(self) -> Shape
        ensures { result ≡ self }
    {
        Shape {
            precision: self.precision,
            min_exp: self.min_exp,
            max_exp: self.max_exp,
            nonfinite: self.nonfinite,
            explicit_integer_bit: self.explicit_integer_bit,
            tiny_before_rounding: self.tiny_before_rounding,
            ieee_flags: self.ieee_flags,
        }
    }

    /// The negated exponent of the quantum, which is a power of two.
    #[inline(always)]
    pub fn scale(self) -> u32
        ensures value { result ≡ (format_at self).scale }
        ensures bound { result ≤ span_bound }
    {
        (self.precision as ExpInt - 1 - self.min_exp) as u32
    }

    /// The greatest exponent minus the least one.
    #[inline(always)]
    pub fn span(self) -> u32
        ensures value { result ≡ (format_at self).span }
        ensures bound { result ≤ span_bound }
    {
        (self.max_exp - self.min_exp) as u32
    }

    /// The integer bit of a significand, which is also the smallest normalized value in quanta.
    #[inline(always)]
    pub fn integer_bit(self) -> u128
        ensures { result ≡ smallest_normalized (format_at self) }
    {
        power_of_two(self.precision - 1)
    }

    /// The significand of the largest value.
    #[inline(always)]
    pub fn greatest_significand(self) -> u128
        ensures value { result ≡ greatest_significand self.nonfinite self.precision }
        ensures fits { result < 2 ^ self.precision }
        ensures full { 2 ^ (self.precision - 1) ≤ result }
    {
        match self.nonfinite {
            NonfiniteBehavior::NanOnly => power_of_two(self.precision) - 2,
            NonfiniteBehavior::IEEE754 => power_of_two(self.precision) - 1,
            NonfiniteBehavior::NanNegativeZero => power_of_two(self.precision) - 1,
        }
    }
}
