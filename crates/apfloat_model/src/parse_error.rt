//! The faults of texts.

/// The error for a refused text: the message for its first fault from the left.
#[derive(Clone, Copy, PartialEq, Eq, Debug)]
pub struct ParseError(pub &'static str);

/// The first fault of a text, from the left.
#[derive(Clone, Copy)]
pub enum Fault {
    /// The text is empty.
    EmptyText,
    /// Nothing follows the sign.
    LoneMark,
    /// It is neither an infinity nor a NaN, and does not begin with `0x` or `0X`.
    NoLiteral,
    /// Nothing follows the prefix.
    LonePrefix,
    /// The significand has more than one dot.
    SecondDot,
    /// What follows the digits and dots of the significand is not `p` or `P`.
    WrongInSignificand,
    /// The significand has no digit.
    NoDigits,
    /// The exponent has a character that is not a decimal digit.
    WrongInExponent,
    /// The exponent has no digit.
    NoExponentDigits,
    /// The text ends after the significand.
    NoExponent,
}

impl Fault {
    ghost use Rattle.std.specs.Prelude.{◌≡◌};
    ghost use Rattle.apfloat_model.specs.texts.Faults.{words};

    /// The error with the message for this fault.
    pub fn refusal(self) -> ParseError
        ensures { result.0.now ≡ words self }
    {
        ParseError(match self {
            Fault::EmptyText => "Invalid string length",
            Fault::LoneMark => "String has no digits",
            Fault::NoLiteral => "Not a special or hexadecimal literal",
            Fault::LonePrefix => "Invalid string",
            Fault::SecondDot => "String contains multiple dots",
            Fault::WrongInSignificand => "Invalid character in significand",
            Fault::NoDigits => "Significand has no digits",
            Fault::WrongInExponent => "Invalid character in exponent",
            Fault::NoExponentDigits => "Exponent has no digits",
            Fault::NoExponent => "Hex strings require an exponent",
        })
    }
}
