//! How many elements of a block raised each flag.

ghost use Rattle.std.specs.Prelude.{◌≡◌};
ghost use Rattle.apfloat_model.specs.rounding.Flags.{bits_of};
ghost use Rattle.small_formats.specs.blocks.Places.{BlockCountsHaveRoom, with_status};

use apfloat_base::{Flags, Status};

/// The number of elements that raised each flag.
#[derive(Clone, Copy, PartialEq, Eq, Debug)]
pub struct Counts {
    /// Those that raised `INVALID_OP`: signaling NaNs that were multiplied.
    pub invalid: usize,
    /// Those that raised `OVERFLOW`.
    pub overflow: usize,
    /// Those that raised `UNDERFLOW`.
    pub underflow: usize,
    /// Those that raised `INEXACT`.
    pub inexact: usize,
}

impl Counts {
    /// The counts of no elements.
    pub const NONE: Counts = Counts {
        invalid: 0,
        overflow: 0,
        underflow: 0,
        inexact: 0,
    };

    /// The counts with one more element, which raised `status`. DIV_BY_ZERO (0x02), which no element raises, is not
    /// counted.
    pub fn with(self, status: Status) -> Counts
        requires { BlockCountsHaveRoom self }
        ensures { result ≡ with_status self (bits_of status) }
    {
        let flags = status.bits();
        Counts {
            invalid: self.invalid + usize::from(flags & 0x01 != 0),
            overflow: self.overflow + usize::from(flags & 0x04 != 0),
            underflow: self.underflow + usize::from(flags & 0x08 != 0),
            inexact: self.inexact + usize::from(flags & 0x10 != 0),
        }
    }
}
