//! Formats chosen at run time: kinds of values and rounding modes by their words and codes, calls at the type of a
//! kind, and operations on two values.
#![tactic(auto)]

mod arithmetic;
mod built_in;
mod command_kind;
mod flagged;
mod in_kind;
mod modes;
mod value_type;
mod x87_double;
mod x87_single;

pub use arithmetic::Arithmetic;
pub use built_in::{BuiltInFormat, BuiltInKind};
pub use command_kind::{CommandFormat, CommandKind, command_kinds};
pub use flagged::{
    FillsInFormat, FillsInKind, FlaggedFormat, FlaggedKind, IeeeFormat, InFlaggedFormat,
    InFlaggedKind, WritesInFormat,
};
pub use in_kind::{InFormat, InKind, ReadsInFormat};
pub use modes::{mode_coded, mode_named};
pub use value_type::ValueType;
pub use x87_double::X87DoubleS;
pub use x87_single::X87SingleS;
