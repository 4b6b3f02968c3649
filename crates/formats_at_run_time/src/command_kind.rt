//! The built-in kinds of values that commands have. A call in one of these has no copy of its code for the others.

ghost use Rattle.std.specs.Prelude.{◌≡◌};
ghost use Rattle.formats_at_run_time.specs.{ValueKinds.of_format, BuiltIns.constants_in, BuiltIns.kind_of};
ghost use Rattle.formats_at_run_time.specs.CommandKinds.{all_command_kinds, built_in_kind, command_kind_in};
ghost use Rattle.formats_at_run_time.specs.CommandKinds.{command_kind_named, format_of_command};

use crate::built_in::{BuiltInFormat, BuiltInKind};
use crate::in_kind::{InFormat, InKind};
use rustc_apfloat::ieee::{
    BFloatS, DoubleS, Float8E4M3FNS, Float8E4M3FNUZS, Float8E5M2S, HalfS, QuadS, SingleS,
    X87DoubleExtendedS,
};

// Passes each format of commands to the macro named, with the constants of its type.
macro_rules! each_command_format {
    ($taker:ident($($given:tt)*)) => {
        $taker! {
            ($($given)*)
            Half HalfS,
            Single SingleS,
            Double DoubleS,
            Quad QuadS,
            BFloat BFloatS,
            E5M2 Float8E5M2S,
            E4M3FN Float8E4M3FNS,
            E4M3FNUZ Float8E4M3FNUZS,
            X87 X87DoubleExtendedS,
        }
    };
}

macro_rules! all_command_kinds {
    (() $($name:ident $semantics:ident,)*) => {
        [$(CommandKind::OfFormat(CommandFormat::$name),)* CommandKind::Pairs]
    };
}

macro_rules! run_in {
    (($format:expr, $call:expr) $($name:ident $semantics:ident,)*) => {
        match $format {
            $(CommandFormat::$name => $call.in_format::<$semantics>(),)*
        }
    };
}

macro_rules! command_kind_of {
    (($kind:expr) $($name:ident $semantics:ident,)*) => {
        match $kind {
            $(
                BuiltInKind::OfFormat(BuiltInFormat::$name) => {
                    Some(CommandKind::OfFormat(CommandFormat::$name))
                }
            )*
            BuiltInKind::Pairs => Some(CommandKind::Pairs),
            _ => None,
        }
    };
}

macro_rules! built_in_of {
    (($kind:expr) $($name:ident $semantics:ident,)*) => {
        match $kind {
            $(
                CommandKind::OfFormat(CommandFormat::$name) => {
                    BuiltInKind::OfFormat(BuiltInFormat::$name)
                }
            )*
            CommandKind::Pairs => BuiltInKind::Pairs,
        }
    };
}

/// The built-in formats of commands.
#[derive(Clone, Copy)]
pub enum CommandFormat {
    /// Binary16.
    Half,
    /// Binary32.
    Single,
    /// Binary64.
    Double,
    /// Binary128.
    Quad,
    /// Bfloat16: the upper half of a binary32.
    BFloat,
    /// Eight bits, five of them the exponent.
    E5M2,
    /// Eight bits, four of them the exponent, without infinities.
    E4M3FN,
    /// The same without a negative zero.
    E4M3FNUZ,
    /// The extended format of the x87, with an explicit integer bit.
    X87,
}

/// The built-in kinds of values of commands.
#[derive(Clone, Copy)]
pub enum CommandKind {
    /// Values of a format.
    OfFormat(CommandFormat),
    /// Pairs of doubles.
    Pairs,
}

/// All kinds of values of commands, in the order of their codes.
pub fn command_kinds() -> &'static [CommandKind]
    ensures { result.now ≡ all_command_kinds }
{
    &each_command_format!(all_command_kinds())
}

impl CommandFormat {
    /// Makes a call in the format.
    #[inline(always)]
    fn run<C: InFormat>(self, call: C) -> C::Output
        requires { C.can call (of_format (constants_in (format_of_command self))) }
        ensures { C.gives call (of_format (constants_in (format_of_command self))) result }
    {
        each_command_format!(run_in(self, call))
    }
}

impl CommandKind {
    /// The same kind, if commands have it.
    pub fn of(kind: BuiltInKind) -> Option<CommandKind>
        ensures { result ≡ command_kind_in kind }
    {
        each_command_format!(command_kind_of(kind))
    }

    /// The kind that this word names in a command, if any.
    pub fn named(word: &str) -> Option<CommandKind>
        ensures { result ≡ command_kind_named word.now }
    {
        CommandKind::of(BuiltInKind::named(word)?)
    }

    /// The same kind among all.
    pub fn built_in(self) -> BuiltInKind
        ensures { result ≡ built_in_kind self }
    {
        each_command_format!(built_in_of(self))
    }

    /// Makes a call at the type of the kind.
    pub fn run<C: InKind>(self, call: C) -> C::Output
        requires { C.can call (kind_of (built_in_kind self)) }
        ensures { C.gives call (kind_of (built_in_kind self)) result }
    {
        match self {
            CommandKind::OfFormat(format) => format.run(call),
            CommandKind::Pairs => call.in_pairs(),
        }
    }
}
