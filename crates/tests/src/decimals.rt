//! Round trips: values through decimals, and decimals through texts.

ghost use Rattle.std.specs.Prelude.{◌≡◌, Bool, false, Some, Ok, MatchOption, IsOkAnd};
ghost use Rattle.rustc_apfloat.specs.Types.{format_of};
ghost use Rattle.apfloat_model.specs.order.Classes.{is_finite};
ghost use Rattle.apfloat_decimals.specs.{ReadBack.written, ShortestSearch.IsWithinQuad, ShortestSearch.GivesShortest};
ghost use Rattle.apfloat_decimals.specs.Texts.{decimal_text};
ghost use Rattle.tests.specs.DecimalRoundTrips.{IsReadBack};

use apfloat_decimals::{
    Decimal, DecimalError, decimal_text_once, from_decimal, read_decimal, shortest,
    shortest_reads_back, written_text,
};
use rustc_apfloat::ieee::{IeeeFloat, Semantics};
use rustc_apfloat::{Float, ParseError, Round, StatusAnd};

/// The shortest decimal of a value, rounded to nearest, ties to even, which is the value again, with its sign.
pub fn of_shortest<S: Semantics>(x: IeeeFloat<S>) -> Option<StatusAnd<IeeeFloat<S>>>
    requires { IsWithinQuad (format_of S.Semantics) }
    ensures { MatchOption result (is_finite x ≡ false)
        (λ answer. IsReadBack (format_of S.Semantics) x answer) }
{
    x.category();
    shortest_reads_back();
    let Some(decimal) = shortest(x) else {
        return None;
    };
    Some(from_decimal::<S>(decimal, Round::NearestTiesToEven))
}

/// The decimal read back from the text of one.
pub fn of_text(text: &str, decimal: Decimal) -> Result<Decimal, DecimalError>
    requires { text.now ≡ decimal_text decimal }
    ensures { result ≡ Ok (written decimal) }
{
    decimal_text_once();
    written_text();
    text.parse()
}

/// The text of the shortest decimal of a value, rounded to nearest, ties to even, which is the value again, with its
/// sign.
pub fn of_shortest_text<S: Semantics>(
    text: &str,
    decimal: Decimal,
    x: IeeeFloat<S>,
) -> Result<StatusAnd<IeeeFloat<S>>, ParseError>
    requires within { IsWithinQuad (format_of S.Semantics) }
    requires shortest { GivesShortest (format_of S.Semantics) x (Some decimal) }
    requires text { text.now ≡ decimal_text decimal }
    ensures { IsOkAnd result (λ answer. answer.value ≡ x) }
{
    x.category();
    decimal_text_once();
    written_text();
    shortest_reads_back();
    read_decimal::<S>(text, Round::NearestTiesToEven)
}
