//! Values as texts and back.

ghost use Rattle.std.specs.Prelude.{ℕ, List, Result};
ghost use Rattle.apfloat_model.specs.declared.{kinds.Round.Round, parse_error.ParseError.ParseError};
ghost use Rattle.apfloat_model.specs.{declared.status.StatusAnd.StatusAnd, formats.Datum.Datum};
ghost use Rattle.apfloat_model.specs.{formats.Members.IsMember, texts.Parsing.IsRead};
ghost use Rattle.apfloat_ieee.specs.Types.{format_of};
ghost use Rattle.apfloat_digits.specs.hexadecimal.{HexTexts.IsHexText, ReadBack.IsReadBack};

use apfloat_ieee::Semantics;

/// The text of a value is read back, in each mode, with no flag: a number or an infinity as that value, and a NaN as
/// the one of its sign and kind that has no payload.
pub fn text_reads_back<S: Semantics>()
    ensures { (mode : Round) (x : Datum) (text : List ℕ)
        (answer : Result (StatusAnd Datum) ParseError)
        → IsMember (format_of S.Semantics) x → IsHexText (format_of S.Semantics) x text
        → IsRead (format_of S.Semantics) mode text answer
        → IsReadBack (format_of S.Semantics) x answer }
{}
