//! The storage formats, by their words and codes.

ghost use Rattle.std.specs.Prelude.{◌≡◌, if◌then◌else◌};
ghost use Rattle.apfloat_arrays.specs.stored.Formats.{keeps_infinity, largest_code, stored_format_coded};
ghost use Rattle.apfloat_arrays.specs.stored.Formats.{stored_format_named};

/// The storage formats that a word and a code name.
#[derive(Clone, Copy, PartialEq, Eq, Debug)]
pub enum StoredFormat {
    /// Four bits: 0, 0.5, 1, 1.5, 2, 3, 4, 6 and their negatives.
    E2M1FN,
    /// Six bits with three of the significand.
    E2M3FN,
    /// Six bits with two of the significand.
    E3M2FN,
    /// Eight bits with four of the significand, and infinities and NaNs.
    E3M4,
    /// Eight bits: the powers of two from 2^-127 to 2^127, and a NaN.
    E8M0FNU,
    /// Seven bits: the numbers of `e4m3fn` that are not below zero, and a NaN.
    UE4M3,
}

impl StoredFormat {
    /// The format that this word names, if any.
    pub fn named(word: &str) -> Option<StoredFormat>
        ensures { result ≡ stored_format_named word.now }
    {
        match word {
            "e2m1fn" => Some(StoredFormat::E2M1FN),
            "e2m3fn" => Some(StoredFormat::E2M3FN),
            "e3m2fn" => Some(StoredFormat::E3M2FN),
            "e3m4" => Some(StoredFormat::E3M4),
            "e8m0fnu" => Some(StoredFormat::E8M0FNU),
            "ue4m3" => Some(StoredFormat::UE4M3),
            _ => None,
        }
    }

    /// The format that this code names, if any. No built-in kind of values has such a code.
    pub fn coded(code: u32) -> Option<StoredFormat>
        ensures { result ≡ stored_format_coded code }
    {
        match code {
            32 => Some(StoredFormat::E2M1FN),
            33 => Some(StoredFormat::E2M3FN),
            34 => Some(StoredFormat::E3M2FN),
            35 => Some(StoredFormat::E3M4),
            48 => Some(StoredFormat::E8M0FNU),
            49 => Some(StoredFormat::UE4M3),
            _ => None,
        }
    }

    /// The code of the largest number with this sign; a format without a sign has one.
    pub(crate) fn largest_code(self, negative: bool) -> u8
        ensures { result ≡ largest_code self negative }
    {
        match self {
            StoredFormat::E2M1FN => signed(negative, 15, 7),
            StoredFormat::E2M3FN => signed(negative, 63, 31),
            StoredFormat::E3M2FN => signed(negative, 63, 31),
            StoredFormat::E3M4 => signed(negative, 239, 111),
            StoredFormat::E8M0FNU => 254,
            StoredFormat::UE4M3 => 126,
        }
    }

    /// Where only finite values are wanted: whether an infinity with this sign is converted as without saturation. So
    /// it is where that gives the largest number already, and where the format has no numbers with that sign.
    pub(crate) fn keeps_infinity(self, negative: bool) -> bool
        ensures { result ≡ keeps_infinity self negative }
    {
        match self {
            StoredFormat::E2M1FN | StoredFormat::E2M3FN | StoredFormat::E3M2FN => true,
            StoredFormat::E3M4 => false,
            StoredFormat::E8M0FNU | StoredFormat::UE4M3 => negative,
        }
    }
}

/// The code with this sign.
fn signed(negative: bool, minus: u8, plus: u8) -> u8
    ensures { result ≡ (if negative then minus else plus) }
{
    if negative { minus } else { plus }
}
