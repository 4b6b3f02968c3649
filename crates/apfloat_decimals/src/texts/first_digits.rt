//! The number that the first 38 digits of a text spell, in 128 binary digits.

ghost use Rattle.std.specs.Prelude.{◌≡◌, ◌+◌, ◌*◌, ◌^◌, ◌<◌, ◌≤◌, ◌++◌, IsTrue, length};
ghost use Rattle.apfloat_model.specs.texts.Digits.{every, is_decimal, number};
ghost use Rattle.apfloat_decimals.specs.LeadingDigits.{IsFront, number_from};

/// The greatest number of digits that are taken.
const TAKEN: usize = 38;

/// Numbers below this, with one more digit, fit in one machine word.
const WORD: u128 = 1 << 60;

/// A number followed by one more digit.
#[inline(always)]
fn with_digit(number: u128, digit: u8) -> u128
    requires digit { digit < 10 }
    requires fits { number < 10 ^ 37 }
    ensures { result ≡ number * 10 + digit }
{
    if number < WORD {
        return u128::from(number as u64 * 10 + u64::from(digit));
    }
    number * 10 + u128::from(digit)
}

/// The number with the digits of `first` followed by these, at most 38 in all.
pub fn number_after(first: u128, digits: &[u8]) -> u128
    requires digits { IsTrue (every is_decimal digits.now) }
    requires fits { (first + 1) * 10 ^ length digits.now ≤ 10 ^ 38 }
    ensures number { result ≡ number_from first digits.now }
    ensures fits { result + 1 ≤ (first + 1) * 10 ^ length digits.now }
{
    let mut number = first;
    for i in 0..digits.len() {
        number = with_digit(number, digits[i] - b'0');
    }
    number
}

/// The first digits of a number, leading zeros included, and how many follow.
#[derive(Clone, Copy)]
pub struct Front {
    pub digits: u128,
    pub left: u128,
}

/// The first digits of two texts of digits, the first before the second: at most 38.
pub fn front_of(whole: &[u8], fraction: &[u8]) -> Front
    requires whole { IsTrue (every is_decimal whole.now) }
    requires fraction { IsTrue (every is_decimal fraction.now) }
    ensures front { IsFront (number 10 (whole.now ++ fraction.now)) result.digits result.left }
    ensures left { result.left ≤ 2 ^ 72 }
{
    if whole.len() > TAKEN {
        let (first, others) = whole.split_at(TAKEN);
        return Front {
            digits: number_after(0, first),
            left: others.len() as u128 + fraction.len() as u128,
        };
    }
    let (first, others) = fraction.split_at(fraction.len().min(TAKEN - whole.len()));
    Front {
        digits: number_after(number_after(0, whole), first),
        left: others.len() as u128,
    }
}
