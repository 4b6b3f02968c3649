//! The built-in kinds of values.

ghost use Rattle.std.specs.Prelude.{◌≡◌, Some};
ghost use Rattle.formats_at_run_time.specs.ValueKinds.{of_format};
ghost use Rattle.formats_at_run_time.specs.BuiltIns.{constants_in, format_in, kind_coded, kind_named, kind_of};

use crate::flagged::{FillsInFormat, WritesInFormat};
use crate::in_kind::{InFormat, InKind, ReadsInFormat};
use rustc_apfloat::ieee::{
    BFloatS, DoubleS, Float8E4M3B11FNUZS, Float8E4M3FNS, Float8E4M3FNUZS, Float8E4M3S,
    Float8E5M2FNUZS, Float8E5M2S, FloatTF32S, HalfS, QuadS, SingleS, X87DoubleExtendedS,
};

// Passes each built-in format to the macro named: its variant, the constants of its type, its word and its code. The
// code of pairs is 10; 11 to 15 name nothing.
macro_rules! each_format {
    ($taker:ident($($given:tt)*)) => {
        $taker! {
            ($($given)*)
            Half HalfS "half" 1,
            Single SingleS "single" 2,
            Double DoubleS "double" 3,
            Quad QuadS "quad" 4,
            BFloat BFloatS "bfloat" 5,
            E5M2 Float8E5M2S "e5m2" 6,
            E4M3FN Float8E4M3FNS "e4m3fn" 7,
            E4M3FNUZ Float8E4M3FNUZS "e4m3fnuz" 8,
            X87 X87DoubleExtendedS "x87" 9,
            E4M3 Float8E4M3S "e4m3" 16,
            E5M2FNUZ Float8E5M2FNUZS "e5m2fnuz" 17,
            E4M3B11FNUZ Float8E4M3B11FNUZS "e4m3b11fnuz" 18,
            TF32 FloatTF32S "tf32" 19,
        }
    };
}

// Makes a call by one of its methods, in the format.
macro_rules! made_in {
    (($format:expr, $call:expr, $method:ident $arguments:tt)
        $($name:ident $semantics:ident $word:literal $code:literal,)*) => {
        match $format {
            $(BuiltInFormat::$name => $call.$method::<$semantics> $arguments,)*
        }
    };
}

macro_rules! kind_of_word {
    (($of:expr) $($name:ident $semantics:ident $word:literal $code:literal,)*) => {
        match $of {
            $($word => Some(BuiltInKind::OfFormat(BuiltInFormat::$name)),)*
            "dd" => Some(BuiltInKind::Pairs),
            _ => None,
        }
    };
}

macro_rules! word_of_kind {
    (($kind:expr) $($name:ident $semantics:ident $word:literal $code:literal,)*) => {
        match $kind {
            $(BuiltInKind::OfFormat(BuiltInFormat::$name) => $word,)*
            BuiltInKind::Pairs => "dd",
        }
    };
}

macro_rules! kind_of_code {
    (($of:expr) $($name:ident $semantics:ident $word:literal $code:literal,)*) => {
        match $of {
            $($code => Some(BuiltInKind::OfFormat(BuiltInFormat::$name)),)*
            10 => Some(BuiltInKind::Pairs),
            _ => None,
        }
    };
}

/// The built-in formats that have bits.
#[derive(Clone, Copy)]
pub enum BuiltInFormat {
    /// Binary16.
    Half,
    /// Binary32.
    Single,
    /// Binary64.
    Double,
    /// Binary128.
    Quad,
    /// Bfloat16: the upper half of a binary32.
    BFloat,
    /// Eight bits, five of them the exponent.
    E5M2,
    /// Eight bits, four of them the exponent, without infinities.
    E4M3FN,
    /// The same without a negative zero.
    E4M3FNUZ,
    /// The extended format of the x87, with an explicit integer bit.
    X87,
    /// Eight bits, four of them the exponent, with infinities.
    E4M3,
    /// Eight bits, five of them the exponent, without infinities and a negative zero.
    E5M2FNUZ,
    /// Eight bits, four of them the exponent, of bias 11, without infinities and a negative zero.
    E4M3B11FNUZ,
    /// Nineteen bits: the exponents of binary32 and the digits of binary16.
    TF32,
}

/// The built-in kinds of values.
#[derive(Clone, Copy)]
pub enum BuiltInKind {
    /// Values of a format.
    OfFormat(BuiltInFormat),
    /// Pairs of doubles.
    Pairs,
}

impl BuiltInFormat {
    /// Makes a call in the format.
    #[inline(always)]
    pub fn run<C: InFormat>(self, call: C) -> C::Output
        requires { C.can call (of_format (constants_in self)) }
        ensures { C.gives call (of_format (constants_in self)) result }
    {
        each_format!(made_in(self, call, in_format()))
    }

    /// Makes a call for values of the format that it reads, which writes to lent bytes.
    pub fn read<C: ReadsInFormat>(self, call: C, bytes: &mut [u8]) -> C::Output
        requires { C.can call (of_format (constants_in self)) bytes.old }
        ensures { C.gives call (of_format (constants_in self)) bytes.old bytes.new result }
    {
        each_format!(made_in(self, call, read_in_format(bytes)))
    }

    /// Makes a call that writes to lent bytes, in the format.
    pub fn write<C: WritesInFormat>(self, call: C, bytes: &mut [u8]) -> C::Output
        requires { C.can call (of_format (constants_in self)) bytes.old }
        ensures { C.gives call (of_format (constants_in self)) bytes.old bytes.new result }
    {
        each_format!(made_in(self, call, write_in_format(bytes)))
    }

    /// Makes a call that fills a lent place, in the format.
    #[inline(always)]
    pub fn fill<C: FillsInFormat>(self, call: C, place: &mut C::Place) -> C::Output
        ensures { C.gives call (of_format (constants_in self)) place.old place.new result }
    {
        each_format!(made_in(self, call, fill_in_format(place)))
    }
}

impl BuiltInKind {
    /// Makes a call at the type of the kind.
    pub fn run<C: InKind>(self, call: C) -> C::Output
        requires { C.can call (kind_of self) }
        ensures { C.gives call (kind_of self) result }
    {
        match self {
            BuiltInKind::OfFormat(format) => format.run(call),
            BuiltInKind::Pairs => call.in_pairs(),
        }
    }

    /// The kind that this word names, if any.
    pub fn named(word: &str) -> Option<BuiltInKind>
        ensures { result ≡ kind_named word.now }
    {
        each_format!(kind_of_word(word))
    }

    /// The word that names the kind: `half`, `single` and so on, `dd` for pairs.
    pub fn word(self) -> &'static str
        ensures { kind_named result.now ≡ Some self }
    {
        each_format!(word_of_kind(self))
    }

    /// The kind that this code names, if any.
    #[inline(always)]
    pub fn coded(code: u32) -> Option<BuiltInKind>
        ensures { result ≡ kind_coded code }
    {
        each_format!(kind_of_code(code))
    }

    /// The format of the kind; `None` for pairs.
    pub fn format(self) -> Option<BuiltInFormat>
        ensures { result ≡ format_in self }
    {
        match self {
            BuiltInKind::OfFormat(format) => Some(format),
            BuiltInKind::Pairs => None,
        }
    }
}
