//! The parts of a text that reading distinguishes: a leading sign, and the base of a payload.

/// The sign that a text or an exponent begins with, if any.
#[derive(Clone, Copy)]
pub enum Mark {
    /// No sign.
    Unmarked,
    /// A `+`.
    Plus,
    /// A `-`.
    Minus,
}

impl Mark {
    ghost use Rattle.std.specs.Prelude.{◌≡◌};
    ghost use Rattle.apfloat_model.specs.texts.Specials.{is_minus};

    /// Whether the sign is minus.
    #[inline]
    pub fn is_minus(self) -> bool
        ensures { result ≡ is_minus self }
    {
        match self {
            Mark::Unmarked | Mark::Plus => false,
            Mark::Minus => true,
        }
    }
}

/// The base of a payload's digits.
#[derive(Clone, Copy)]
pub enum Radix {
    /// Hexadecimal digits, after `0x` or `0X`.
    Sixteen,
    /// Octal digits, after a `0`.
    Eight,
    /// Decimal digits, without a prefix.
    Ten,
}

impl Radix {
    ghost use Rattle.std.specs.Prelude.{◌≡◌};
    ghost use Rattle.apfloat_model.specs.texts.Specials.{base_of};

    /// The base as an integer.
    #[inline(always)]
    pub fn base(self) -> u128
        ensures { result ≡ base_of self }
    {
        match self {
            Radix::Sixteen => 16,
            Radix::Eight => 8,
            Radix::Ten => 10,
        }
    }
}
