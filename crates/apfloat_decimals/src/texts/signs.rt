//! The sign of a text. It is read without a branch, since no branch can predict it.

ghost use Rattle.std.specs.Prelude.{◌≡◌, ◌≤◌, ◌||◌, eqb, if◌then◌else◌, drop, length};
ghost use Rattle.apfloat_model.specs.texts.Specials.{after_mark, is_minus, mark_of};

/// Whether this is a sign.
#[inline(always)]
fn is_sign(byte: u8) -> bool
    ensures { result ≡ (eqb byte 45 || eqb byte 43) }
{
    (byte == b'-') | (byte == b'+')
}

/// Whether a text begins with a minus sign.
#[inline(always)]
fn is_negative(text: &[u8]) -> bool
    ensures { result ≡ is_minus (mark_of text.now) }
{
    match text {
        [first, ..] => *first == b'-',
        [] => false,
    }
}

/// 1 or 0.
#[inline(always)]
fn one_if(holds: bool) -> usize
    ensures { result ≡ (if holds then 1 else 0) }
{
    if holds { 1 } else { 0 }
}

/// How many characters the sign of a text has.
#[inline(always)]
fn sign_length(text: &[u8]) -> usize
    ensures within { result ≤ length text.now }
    ensures rest { drop result text.now ≡ after_mark text.now }
{
    match text {
        [first, ..] => one_if(is_sign(*first)),
        [] => 0,
    }
}

/// Whether a text begins with a minus sign, and what follows its sign.
#[inline(always)]
pub fn split_sign(text: &[u8]) -> (bool, &[u8])
    ensures negative { result.0 ≡ is_minus (mark_of text.now) }
    ensures rest { result.1.now ≡ after_mark text.now }
{
    let (_, rest) = text.split_at(sign_length(text));
    (is_negative(text), rest)
}
