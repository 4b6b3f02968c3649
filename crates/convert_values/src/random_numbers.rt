//! Random numbers by their position: those of SplitMix64, of which the upper 32 bits are taken. A stream that is cut
//! can be resumed, and another program can compute the same numbers.

ghost use Rattle.std.specs.Prelude.{◌≡◌};
ghost use Rattle.convert_values.specs.RandomNumbers.{IsRandomMode, mixed, random_at};

use small_formats::{ConversionRound, RandomDigits};

/// What the state of SplitMix64 grows by.
const GAMMA: u64 = 0x9E37_79B9_7F4A_7C15;

/// How many random digits each value is given.
const DIGITS: u32 = 32;

/// The output of SplitMix64 for a state.
fn mixed(state: u64) -> u64
    ensures { result ≡ mixed state }
{
    let first = (state ^ (state >> 30)).wrapping_mul(0xBF58_476D_1CE4_E5B9);
    let second = (first ^ (first >> 27)).wrapping_mul(0x94D0_49BB_1331_11EB);
    second ^ (second >> 31)
}

/// The random number at that position, of a generator with that seed.
fn random_at(seed: u64, position: u64) -> u32
    ensures { result ≡ random_at seed position }
{
    let state = seed.wrapping_add(position.wrapping_add(1).wrapping_mul(GAMMA));
    (mixed(state) >> 32) as u32
}

/// The mode in which the value at that position is rounded.
pub fn mode_at(seed: u64, position: u64) -> ConversionRound
    ensures { IsRandomMode seed position result }
{
    match RandomDigits::new(DIGITS, random_at(seed, position)) {
        Ok(bits) => ConversionRound::Stochastic(bits),
        // 32 digits fit each number of 32 bits.
        Err(_) => ConversionRound::ToOdd,
    }
}
