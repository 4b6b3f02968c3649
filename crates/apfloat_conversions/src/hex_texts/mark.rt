//! The sign before a text or an exponent.

ghost use Rattle.std.specs.Prelude.{◌≡◌};
ghost use Rattle.apfloat_model.specs.texts.Specials.{mark_of, after_mark};

use apfloat_model::marks::Mark;

/// The sign.
#[inline(always)]
fn mark_of(text: &[u8]) -> Mark
    ensures { result ≡ mark_of text.now }
{
    match text {
        [b'-', ..] => Mark::Minus,
        [b'+', ..] => Mark::Plus,
        _ => Mark::Unmarked,
    }
}

/// The sign, and what follows it.
///
/// What follows is found by arithmetic instead of a branch, since the sign of a text is unpredictable.
#[inline(always)]
pub fn split_mark(text: &[u8]) -> (Mark, &[u8])
    ensures mark { result.0 ≡ mark_of text.now }
    ensures rest { result.1.now ≡ after_mark text.now }
{
    let mark = mark_of(text);
    let marks = match mark {
        Mark::Unmarked => 0,
        Mark::Plus | Mark::Minus => 1,
    };
    (mark, &text[marks..])
}
