//! The data that are passed between C and the library.

ghost use Rattle.std.specs.Prelude.{◌≡◌};
ghost use Rattle.rustc_apfloat.specs.Flags.{bits_of};
ghost use Rattle.coded_calls.specs.Answers.{whole};

use rustc_apfloat::{Flags, Status};

/// 128 bits as two 64-bit words.
#[repr(C)]
#[derive(Clone, Copy)]
pub struct Halves {
    /// The lower half.
    pub low: u64,
    /// The upper half.
    pub high: u64,
}

/// The result of a call. Fields that a call does not use are 0.
#[repr(C)]
#[derive(Clone, Copy)]
pub struct Answer {
    /// The bits of a value, or an integer.
    pub bits: Halves,
    /// The flags that the operation raised.
    pub status: u32,
    /// An extra result: an exponent, an order, a class, or whether a conversion was exact or lost information.
    pub number: i32,
}

// C programs take these sizes from the header. The order of the fields is tested from C (`tests/c/check_rows.c`).
const _: () = prove!(size_of::<Halves>() == 16);

const _: () = prove!(size_of::<Answer>() == 24);

const _: () = prove!(align_of::<Answer>() == 8);

impl Halves {
    /// The 128 bits of these halves.
    #[inline(always)]
    pub fn number(self) -> u128
        ensures { result ≡ whole self }
    {
        self.low as u128 + self.high as u128 * (1 << 64)
    }

    /// The halves of a word.
    #[inline(always)]
    pub fn of_word(word: u64) -> Halves
        ensures { whole result ≡ word }
    {
        Halves { low: word, high: 0 }
    }

    /// The halves of 128 bits.
    #[inline(always)]
    pub fn of(number: u128) -> Halves
        ensures { whole result ≡ number }
    {
        Halves {
            low: (number % (1 << 64)) as u64,
            high: (number / (1 << 64)) as u64,
        }
    }
}

impl Answer {
    /// A result with only the extra result.
    pub fn number(number: i32) -> Answer
        ensures bits { whole result.bits ≡ 0 }
        ensures status { result.status ≡ 0 }
        ensures number { result.number ≡ number }
    {
        Answer {
            bits: Halves { low: 0, high: 0 },
            status: 0,
            number,
        }
    }

    /// A result with bits, flags and the extra result.
    #[inline(always)]
    pub fn of(bits: u128, status: Status, number: i32) -> Answer
        ensures bits { whole result.bits ≡ bits }
        ensures status { result.status ≡ bits_of status }
        ensures number { result.number ≡ number }
    {
        Answer {
            bits: Halves::of(bits),
            status: status.bits() as u32,
            number,
        }
    }
}
