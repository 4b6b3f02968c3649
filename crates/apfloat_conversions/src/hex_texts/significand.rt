//! The significand of a hexadecimal text: its leading bits, and how the remaining digits compare with half of the last
//! one.

ghost use Rattle.std.specs.Prelude.{◌≡◌, ℕ, ◌+◌, ◌*◌, ◌^◌, ◌<◌, ◌≤◌, true, false, ltb, length, filter, MatchResult};
ghost use Rattle.std.specs.Prelude.{IsTrue};
ghost use Rattle.apfloat_model.specs.rounding.Standing.{StandsFor};
ghost use Rattle.apfloat_model.specs.texts.Digits.{is_hexadecimal, digit_value};
ghost use Rattle.apfloat_model.specs.texts.Faults.{is_dot, is_digit_or_dot, significand_of, after_significand};
ghost use Rattle.apfloat_model.specs.texts.Literals.{digits_number, places_after_dot};
ghost use Rattle.apfloat_model.specs.declared.parse_error.Fault.TheVariants.{SecondDot};
ghost use Rattle.apfloat_conversions.specs.hex_texts.Scans.{IsKept, IsScan, IsScanned};

use crate::hex_texts::characters::{digit_value, is_digit_or_dot, is_hexadecimal};
use apfloat_model::Loss;
use apfloat_model::parse_error::Fault;
use apfloat_words::loss_of_rest;

/// The leading bits of an integer, with what was lost when its `cut` last hexadecimal digits were cut off.
#[derive(Clone, Copy)]
pub struct Digits {
    /// The leading bits as an integer: all of them if no digits are cut off, else at least 125.
    pub significand: u128,
    /// The digits that were cut off, as a fraction of the last kept bit.
    pub loss: Loss,
    /// How many hexadecimal digits were cut off.
    pub cut: usize,
}

/// The loss after one more digit is cut off, if others were before.
#[inline(always)]
fn loss_after(loss: Loss, digit: u8) -> Loss
    requires { digit < 16 }
    ensures { (number significand half : ℕ) → 0 < half
        → StandsFor significand loss number (2 * half)
        → StandsFor significand result (number * 16 + digit) (16 * (2 * half)) }
{
    match loss {
        Loss::ExactlyZero => {
            if digit == 0 {
                Loss::ExactlyZero
            } else {
                Loss::LessThanHalf
            }
        }
        Loss::LessThanHalf => Loss::LessThanHalf,
        Loss::ExactlyHalf => {
            if digit == 0 {
                Loss::ExactlyHalf
            } else {
                Loss::MoreThanHalf
            }
        }
        _ => Loss::MoreThanHalf,
    }
}

impl Digits {
    ghost use Rattle.std.specs.Prelude.{◌≡◌, ℕ, ◌+◌, ◌*◌, ◌^◌, ◌<◌, ◌≤◌};
    ghost use Rattle.apfloat_conversions.specs.hex_texts.Scans.{IsKept};

    /// No digits yet.
    fn none() -> Digits
        ensures kept { IsKept 0 result }
        ensures cut { result.cut ≡ 0 }
    {
        Digits {
            significand: 0,
            loss: Loss::ExactlyZero,
            cut: 0,
        }
    }

    /// These digits followed by one more.
    #[inline(always)]
    fn followed_by(self, digit: u8) -> Digits
        requires small { digit < 16 }
        requires room { self.cut < usize.MAX }
        ensures kept { (number : ℕ) → IsKept number self → IsKept (number * 16 + digit) result }
        ensures cut { result.cut ≤ self.cut + 1 }
    {
        if self.significand < 1 << 124 {
            return Digits {
                significand: self.significand * 16 + u128::from(digit),
                loss: Loss::ExactlyZero,
                cut: 0,
            };
        }
        let loss = if self.cut == 0 {
            loss_of_rest(u128::from(digit), 8, Loss::ExactlyZero)
        } else {
            loss_after(self.loss, digit)
        };
        Digits {
            significand: self.significand,
            loss,
            cut: self.cut + 1,
        }
    }
}

/// A significand read so far.
#[derive(Clone, Copy)]
pub struct Scan {
    /// The digits read so far, as one integer without the dot.
    pub digits: Digits,
    /// How many of the digits follow the dot.
    pub places: usize,
    /// Whether a dot was read.
    pub pointed: bool,
    /// Whether a digit was read.
    pub some: bool,
}

impl Scan {
    ghost use Rattle.std.specs.Prelude.{◌≡◌, ℕ, ◌+◌, ◌<◌, List, ◌∷◌, length, filter, ltb, true, IsTrue, MatchResult};
    ghost use Rattle.apfloat_model.specs.texts.Digits.{is_hexadecimal};
    ghost use Rattle.apfloat_model.specs.texts.Faults.{is_dot, is_digit_or_dot, significand_of};
    ghost use Rattle.apfloat_conversions.specs.hex_texts.Scans.{IsScan};
    ghost use Rattle.apfloat_model.specs.declared.parse_error.Fault.{Fault};
    ghost use Rattle.apfloat_model.specs.declared.parse_error.Fault.TheVariants.{SecondDot};

    /// Nothing was read.
    fn none() -> Scan
        ensures { (rest : List ℕ) → IsScan rest rest result }
    {
        Scan {
            digits: Digits::none(),
            places: 0,
            pointed: false,
            some: false,
        }
    }

    /// The scan after one more digit.
    #[inline(always)]
    fn with_digit(self, byte: u8) -> Scan
        requires digit { IsTrue (is_hexadecimal byte) }
        requires cut { self.digits.cut < usize.MAX }
        requires places { self.places < usize.MAX }
        ensures { (rest left : List ℕ) → IsScan rest (byte ∷ left) self → IsScan rest left result }
    {
        Scan {
            digits: self.digits.followed_by(digit_value(byte)),
            places: if self.pointed {
                self.places + 1
            } else {
                self.places
            },
            pointed: self.pointed,
            some: true,
        }
    }

    /// The scan after a dot.
    #[inline(always)]
    fn with_dot(self) -> Result<Scan, Fault>
        ensures { (rest left : List ℕ) → IsScan rest (46 ∷ left) self
            → MatchResult result (λ scan. IsScan rest left scan)
            (λ fault. (fault ≡ SecondDot)
            × (ltb 1 (length (filter is_dot (significand_of rest))) ≡ true)) }
    {
        if self.pointed {
            return Err(Fault::SecondDot);
        }
        Ok(Scan {
            digits: self.digits,
            places: self.places,
            pointed: true,
            some: self.some,
        })
    }

    /// The scan after the digits at the start of the text, up to the first that would be cut off, and the text after
    /// them.
    ///
    /// No dot is read and nothing is lost here, so all counters stay in registers.
    #[inline(always)]
    fn with_digits(self, text: &[u8]) -> (Scan, &[u8])
        requires { (rest : List ℕ) × (length rest ≤ usize.MAX) × IsScan rest text.now self }
        ensures { (rest : List ℕ) → IsScan rest text.now self → IsScan rest result.1.now result.0 }
    {
        let mut scan = self;
        let mut left = text;
        while let [byte, tail @ ..] = left
            && scan.digits.significand < 1 << 124
            && is_hexadecimal(*byte)
        {
            let next = scan.with_digit(*byte);
            scan = next.remade();
            left = tail;
        }
        (scan.remade(), left)
    }

    /// The scan, rebuilt from its fields, so that they are copied in registers.
    #[inline(always)]
    fn remade(self) -> Scan
        ensures { result ≡ self }
    {
        Scan {
            digits: Digits {
                significand: self.digits.significand,
                loss: self.digits.loss,
                cut: self.digits.cut,
            },
            places: self.places,
            pointed: self.pointed,
            some: self.some,
        }
    }

    /// The scan after one more character.
    #[inline(always)]
    fn with(self, byte: u8) -> Result<Scan, Fault>
        requires passes { IsTrue (is_digit_or_dot byte) }
        requires cut { self.digits.cut < usize.MAX }
        requires places { self.places < usize.MAX }
        ensures { (rest left : List ℕ) → IsScan rest (byte ∷ left) self
            → MatchResult result (λ scan. IsScan rest left scan)
            (λ fault. (fault ≡ SecondDot)
            × (ltb 1 (length (filter is_dot (significand_of rest))) ≡ true)) }
    {
        if byte == b'.' {
            self.with_dot()
        } else {
            Ok(self.with_digit(byte))
        }
    }
}

/// The significand at the start of the text after the prefix, and what follows it.
///
/// Most texts are only digits before and after the dot, none of which is cut off. The loop reads what is left of any
/// other.
#[inline(always)]
pub fn scanned(rest: &[u8]) -> Result<(Scan, &[u8]), Fault>
    ensures { MatchResult result (λ answer. IsScanned rest.now answer.1.now answer.0)
        (λ fault. (fault ≡ SecondDot)
        × (ltb 1 (length (filter is_dot (significand_of rest.now))) ≡ true)) }
{
    let (mut scan, mut left) = Scan::none().with_digits(rest);
    if let [b'.', tail @ ..] = left {
        (scan, left) = scan.with_dot()?.with_digits(tail);
    }
    while let [byte, tail @ ..] = left
        && is_digit_or_dot(*byte)
    {
        let next = scan.with(*byte)?;
        scan = next.remade();
        left = tail;
    }
    Ok((scan, left))
}
