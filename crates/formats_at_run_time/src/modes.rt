//! The rounding modes, by their words and codes.

ghost use Rattle.std.specs.Prelude.{◌≡◌};
ghost use Rattle.formats_at_run_time.specs.Modes.{mode_coded, mode_named};

use rustc_apfloat::Round;

/// The rounding mode that this word names, if any.
pub fn mode_named(word: &str) -> Option<Round>
    ensures { result ≡ mode_named word.now }
{
    match word {
        "even" => Some(Round::NearestTiesToEven),
        "up" => Some(Round::TowardPositive),
        "down" => Some(Round::TowardNegative),
        "zero" => Some(Round::TowardZero),
        "away" => Some(Round::NearestTiesToAway),
        _ => None,
    }
}

/// The rounding mode that this code names, if any.
#[inline(always)]
pub fn mode_coded(code: u32) -> Option<Round>
    ensures { result ≡ mode_coded code }
{
    match code {
        0 => Some(Round::NearestTiesToEven),
        1 => Some(Round::TowardPositive),
        2 => Some(Round::TowardNegative),
        3 => Some(Round::TowardZero),
        4 => Some(Round::NearestTiesToAway),
        _ => None,
    }
}
