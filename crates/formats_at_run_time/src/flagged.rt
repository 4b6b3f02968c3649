//! The built-in kinds of values, each with its rule of flags: when calls raise OVERFLOW and UNDERFLOW.

ghost use Rattle.std.specs.Prelude.{⊤, ℕ, ◌≡◌, ◌<◌, List};
ghost use Rattle.rustc_apfloat.specs.FlaggedTypes.{constants_of};
ghost use Rattle.formats_at_run_time.specs.ValueKinds.{Kind, of_format, of_pairs};
ghost use Rattle.formats_at_run_time.specs.FlaggedKinds.{after_rounding, before_rounding, built_in, flagged_constants};
ghost use Rattle.formats_at_run_time.specs.FlaggedKinds.{flagged_kind_coded, flagged_kind_of, format_of_ieee};
ghost use Rattle.formats_at_run_time.specs.FlaggedKinds.{format_without_rule, ieee_format_in};

use crate::built_in::{BuiltInFormat, BuiltInKind};
use crate::in_kind::{InFormat, InKind};
use rustc_apfloat::ieee::{
    BFloatS, DoubleS, Flagged, Float8E5M2S, HalfS, IeeeFlags, QuadS, Semantics, SingleS,
    TinyBefore, X87DoubleExtendedS,
};

// Passes each built-in format with the infinities of IEEE 754 to the macro named, with the constants of its type.
macro_rules! each_ieee_format {
    ($taker:ident($($given:tt)*)) => {
        $taker! {
            ($($given)*)
            Half HalfS,
            Single SingleS,
            Double DoubleS,
            Quad QuadS,
            BFloat BFloatS,
            E5M2 Float8E5M2S,
            X87 X87DoubleExtendedS,
        }
    };
}

// Makes a call by one of its methods, in a format whose tininess is detected after rounding.
macro_rules! after_rounding {
    (($format:expr, $call:expr, $method:ident $arguments:tt) $($name:ident $semantics:ident,)*) => {
        match $format {
            $(IeeeFormat::$name => $call.$method::<IeeeFlags<$semantics>> $arguments,)*
        }
    };
}

// The same, detected before rounding.
macro_rules! before_rounding {
    (($format:expr, $call:expr, $method:ident $arguments:tt) $($name:ident $semantics:ident,)*) => {
        match $format {
            $(IeeeFormat::$name => $call.$method::<IeeeFlags<TinyBefore<$semantics>>> $arguments,)*
        }
    };
}

macro_rules! built_in_format {
    (($format:expr) $($name:ident $semantics:ident,)*) => {
        match $format {
            $(IeeeFormat::$name => BuiltInFormat::$name,)*
        }
    };
}

macro_rules! ieee_format {
    (($kind:expr) $($name:ident $semantics:ident,)*) => {
        match $kind {
            $(BuiltInKind::OfFormat(BuiltInFormat::$name) => Some(IeeeFormat::$name),)*
            _ => None,
        }
    };
}

/// A call that can be made in every format with bits, under any rule of flags.
pub trait InFlaggedFormat {
    /// What the call returns.
    type Output;

    // What the call returns for a kind of values; by default anything.
    ghost gives: { Self → Kind → Self.Output → Type 0 } = { λ _ _ _. ⊤ };

    /// Makes the call in the format `S`.
    fn in_flagged_format<S: Flagged>(self) -> Self::Output
        requires { S.PRECISION < S.BITS }
        ensures { gives self (of_format (constants_of S.Flagged)) result };
}

/// A call that can also be made for pairs of doubles.
pub trait InFlaggedKind: InFlaggedFormat {
    /// Makes the call for pairs of doubles.
    fn in_pairs(self) -> Self::Output
        ensures { Self.gives self of_pairs result };
}

/// A call that can be made in every format with bits, under any rule of flags, and writes to bytes lent to it.
pub trait WritesInFormat {
    /// What the call returns.
    type Output;

    // For which kinds of values, and on which bytes, the call may be made; by default for all, on any.
    ghost can: { Self → Kind → List ℕ → Type 0 } = { λ _ _ _. ⊤ };

    // What the call returns for a kind of values, and what becomes of the bytes; by default anything.
    ghost gives: { Self → Kind → List ℕ → List ℕ → Self.Output → Type 0 } = { λ _ _ _ _ _. ⊤ };

    /// Makes the call in the format `S`.
    fn write_in_format<S: Flagged>(self, bytes: &mut [u8]) -> Self::Output
        requires written { S.PRECISION < S.BITS }
        requires can { can self (of_format (constants_of S.Flagged)) bytes.old }
        ensures { gives self (of_format (constants_of S.Flagged)) bytes.old bytes.new result };
}

/// A call that can be made in every format with bits, under any rule of flags, and fills a place lent to it.
pub trait FillsInFormat {
    /// What is lent to the call.
    type Place;

    /// What the call returns.
    type Output;

    // What the call returns for a kind of values, and what becomes of the place; by default anything.
    ghost gives: { Self → Kind → Self.Place → Self.Place → Self.Output → Type 0 } = { λ _ _ _ _ _. ⊤ };

    /// Makes the call in the format `S`.
    fn fill_in_format<S: Flagged>(self, place: &mut Self::Place) -> Self::Output
        requires { S.PRECISION < S.BITS }
        ensures { gives self (of_format (constants_of S.Flagged)) place.old place.new result };
}

/// A call that fills a place lent to it, and can also be made for pairs of doubles.
pub trait FillsInKind: FillsInFormat {
    /// Makes the call for pairs of doubles.
    fn fill_in_pairs(self, place: &mut Self::Place) -> Self::Output
        ensures { Self.gives self of_pairs place.old place.new result };
}

/// The built-in formats with the infinities and NaNs of IEEE 754, whose calls can raise its flags.
#[derive(Clone, Copy)]
pub enum IeeeFormat {
    /// Binary16.
    Half,
    /// Binary32.
    Single,
    /// Binary64.
    Double,
    /// Binary128.
    Quad,
    /// Bfloat16: the upper half of a binary32.
    BFloat,
    /// Eight bits, five of them the exponent.
    E5M2,
    /// The extended format of the x87.
    X87,
}

/// The built-in formats, each with its rule of flags.
#[derive(Clone, Copy)]
pub enum FlaggedFormat {
    /// With the flags of the built-in formats.
    BuiltIn(BuiltInFormat),
    /// With the flags of IEEE 754-2019, tininess detected after rounding.
    AfterRounding(IeeeFormat),
    /// With the flags of IEEE 754-2019, tininess detected before rounding.
    BeforeRounding(IeeeFormat),
}

/// The built-in kinds of values, formats with their rule of flags.
#[derive(Clone, Copy)]
pub enum FlaggedKind {
    /// Values of a format.
    OfFormat(FlaggedFormat),
    /// Pairs of doubles.
    Pairs,
}

/// A call in formats with the flags of the built-in formats.
#[derive(Drop)]
struct WithBuiltInFlags<C> {
    call: C,
}

impl<C: InFlaggedFormat> InFormat for WithBuiltInFlags<C> {
    type Output = C::Output;

    ghost gives = { λ it kind output. C.gives it.call kind output };

    #[inline(always)]
    fn in_format<S: Semantics>(self) -> C::Output {
        self.call.in_flagged_format::<S>()
    }
}

impl IeeeFormat {
    /// The format of this kind, if it has the infinities and NaNs of IEEE 754.
    #[inline(always)]
    pub fn of(kind: BuiltInKind) -> Option<IeeeFormat>
        ensures { result ≡ ieee_format_in kind }
    {
        each_ieee_format!(ieee_format(kind))
    }

    /// Makes a call in the format with the flags of IEEE 754-2019, tininess detected after rounding.
    #[inline(always)]
    fn run_after_rounding<C: InFlaggedFormat>(self, call: C) -> C::Output
        ensures { C.gives call (of_format (after_rounding self)) result }
    {
        each_ieee_format!(after_rounding(self, call, in_flagged_format()))
    }

    /// Makes a call in the format with the flags of IEEE 754-2019, tininess detected before rounding.
    #[inline(always)]
    fn run_before_rounding<C: InFlaggedFormat>(self, call: C) -> C::Output
        ensures { C.gives call (of_format (before_rounding self)) result }
    {
        each_ieee_format!(before_rounding(self, call, in_flagged_format()))
    }
}

impl IeeeFormat {
    /// Makes a call that fills a lent place, with the flags of IEEE 754-2019, tininess detected after rounding.
    #[inline(always)]
    fn fill_after_rounding<C: FillsInFormat>(self, call: C, place: &mut C::Place) -> C::Output
        ensures { C.gives call (of_format (after_rounding self)) place.old place.new result }
    {
        each_ieee_format!(after_rounding(self, call, fill_in_format(place)))
    }

    /// Makes a call that fills a lent place, with the flags of IEEE 754-2019, tininess detected before rounding.
    #[inline(always)]
    fn fill_before_rounding<C: FillsInFormat>(self, call: C, place: &mut C::Place) -> C::Output
        ensures { C.gives call (of_format (before_rounding self)) place.old place.new result }
    {
        each_ieee_format!(before_rounding(self, call, fill_in_format(place)))
    }
}

impl IeeeFormat {
    /// The same format with the flags of the built-in formats.
    fn built_in(self) -> BuiltInFormat
        ensures { result ≡ format_of_ieee self }
    {
        each_ieee_format!(built_in_format(self))
    }

    /// Makes a call that writes to lent bytes, with the flags of IEEE 754-2019, tininess detected after rounding.
    fn write_after_rounding<C: WritesInFormat>(self, call: C, bytes: &mut [u8]) -> C::Output
        requires { C.can call (of_format (after_rounding self)) bytes.old }
        ensures { C.gives call (of_format (after_rounding self)) bytes.old bytes.new result }
    {
        each_ieee_format!(after_rounding(self, call, write_in_format(bytes)))
    }

    /// Makes a call that writes to lent bytes, with the flags of IEEE 754-2019, tininess detected before rounding.
    fn write_before_rounding<C: WritesInFormat>(self, call: C, bytes: &mut [u8]) -> C::Output
        requires { C.can call (of_format (before_rounding self)) bytes.old }
        ensures { C.gives call (of_format (before_rounding self)) bytes.old bytes.new result }
    {
        each_ieee_format!(before_rounding(self, call, write_in_format(bytes)))
    }
}

impl FlaggedFormat {
    /// The same format with the flags of the built-in formats.
    pub fn built_in(self) -> BuiltInFormat
        ensures { result ≡ format_without_rule self }
    {
        match self {
            FlaggedFormat::BuiltIn(format) => format,
            FlaggedFormat::AfterRounding(format) => format.built_in(),
            FlaggedFormat::BeforeRounding(format) => format.built_in(),
        }
    }

    /// Makes a call that writes to lent bytes, in the format.
    pub fn write<C: WritesInFormat>(self, call: C, bytes: &mut [u8]) -> C::Output
        requires { C.can call (of_format (flagged_constants self)) bytes.old }
        ensures { C.gives call (of_format (flagged_constants self)) bytes.old bytes.new result }
    {
        match self {
            FlaggedFormat::BuiltIn(format) => format.write(call, bytes),
            FlaggedFormat::AfterRounding(format) => format.write_after_rounding(call, bytes),
            FlaggedFormat::BeforeRounding(format) => format.write_before_rounding(call, bytes),
        }
    }

    /// Makes a call that fills a lent place, in the format.
    #[inline(always)]
    pub fn fill<C: FillsInFormat>(self, call: C, place: &mut C::Place) -> C::Output
        ensures { C.gives call (of_format (flagged_constants self)) place.old place.new result }
    {
        match self {
            FlaggedFormat::BuiltIn(format) => format.fill(call, place),
            FlaggedFormat::AfterRounding(format) => format.fill_after_rounding(call, place),
            FlaggedFormat::BeforeRounding(format) => format.fill_before_rounding(call, place),
        }
    }

    /// Makes a call in the format.
    #[inline(always)]
    pub fn run<C: InFlaggedFormat>(self, call: C) -> C::Output
        ensures { C.gives call (of_format (flagged_constants self)) result }
    {
        match self {
            FlaggedFormat::BuiltIn(format) => format.run(WithBuiltInFlags { call }),
            FlaggedFormat::AfterRounding(format) => format.run_after_rounding(call),
            FlaggedFormat::BeforeRounding(format) => format.run_before_rounding(call),
        }
    }
}

impl FlaggedKind {
    /// Makes a call at the type of the kind.
    #[inline(always)]
    pub fn run<C: InFlaggedKind>(self, call: C) -> C::Output
        ensures { C.gives call (flagged_kind_of self) result }
    {
        match self {
            FlaggedKind::OfFormat(format) => format.run(call),
            FlaggedKind::Pairs => call.in_pairs(),
        }
    }

    /// Makes a call that fills a lent place, at the type of the kind.
    #[inline(always)]
    pub fn fill<C: FillsInKind>(self, call: C, place: &mut C::Place) -> C::Output
        ensures { C.gives call (flagged_kind_of self) place.old place.new result }
    {
        match self {
            FlaggedKind::OfFormat(format) => format.fill(call, place),
            FlaggedKind::Pairs => call.fill_in_pairs(place),
        }
    }

    /// The kind that this code names, if any. The lowest eight bits are the code of a built-in kind; the next bit asks
    /// for the flags of IEEE 754-2019, and the one after it, only together with that bit, for tininess before rounding.
    #[inline(always)]
    pub fn coded(code: u32) -> Option<FlaggedKind>
        ensures { result ≡ flagged_kind_coded code }
    {
        if code < 256 {
            return Some(FlaggedKind::built_in(BuiltInKind::coded(code)?));
        }
        match code / 256 {
            1 => {
                let format = IeeeFormat::of(BuiltInKind::coded(code % 256)?)?;
                Some(FlaggedKind::OfFormat(FlaggedFormat::AfterRounding(format)))
            }
            3 => {
                let format = IeeeFormat::of(BuiltInKind::coded(code % 256)?)?;
                Some(FlaggedKind::OfFormat(FlaggedFormat::BeforeRounding(format)))
            }
            _ => None,
        }
    }

    /// A kind with the flags of the built-in formats.
    #[inline(always)]
    fn built_in(kind: BuiltInKind) -> FlaggedKind
        ensures { result ≡ built_in kind }
    {
        match kind {
            BuiltInKind::OfFormat(format) => {
                FlaggedKind::OfFormat(FlaggedFormat::BuiltIn(format))
            }
            BuiltInKind::Pairs => FlaggedKind::Pairs,
        }
    }
}
