//! The word that was meant by a misspelt one.

ghost use Rattle.std.specs.Prelude.{◌≡◌, Some, None, MatchOption, map};
ghost use Rattle.commands.specs.Suggestions.{first_near, is_one_edit, is_swap};

/// The formats of the programs other than `vectors`, except pairs of doubles.
pub static FORMATS: &[&str] = &[
    "half",
    "single",
    "double",
    "quad",
    "bfloat",
    "e5m2",
    "e4m3fn",
    "e4m3fnuz",
    "x87",
    "e4m3",
    "e5m2fnuz",
    "e4m3b11fnuz",
    "tf32",
];

/// The rounding modes.
pub static MODES: &[&str] = &["even", "up", "down", "zero", "away"];

/// The first of some words that is one edit away from this one: with a byte put in, taken out or replaced, or with two
/// neighbours swapped.
pub fn suggested<'a>(word: &str, known: &[&'a str]) -> Option<&'a str>
    ensures { let meant = first_near word.now (map (λ w. w.now) known.now) in
        MatchOption result (meant ≡ None) (λ w. meant ≡ Some w.now) }
{
    let Some((first, others)) = known.split_first() else {
        return None;
    };
    if is_one_edit(word.as_bytes(), first.as_bytes()) {
        return Some(*first);
    }
    suggested(word, others)
}

/// Whether two words are one edit apart.
fn is_one_edit(word: &[u8], other: &[u8]) -> bool
    ensures { result ≡ is_one_edit word.now other.now }
{
    let Some((x, xs)) = word.split_first() else {
        return other.len() == 1;
    };
    let Some((y, ys)) = other.split_first() else {
        return xs.is_empty();
    };
    if *x == *y {
        return is_one_edit(xs, ys);
    }
    xs == ys || xs == other || word == ys || is_swap(*x, xs, *y, ys)
}

/// Whether two words, given by their first bytes and the rest of each, are equal once the first two bytes of one are
/// swapped.
fn is_swap(x: u8, xs: &[u8], y: u8, ys: &[u8]) -> bool
    ensures { result ≡ is_swap x xs.now y ys.now }
{
    let Some((second, rest)) = xs.split_first() else {
        return false;
    };
    let Some((other_second, other_rest)) = ys.split_first() else {
        return false;
    };
    *second == y && *other_second == x && rest == other_rest
}
