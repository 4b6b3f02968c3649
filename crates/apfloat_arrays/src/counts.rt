//! The outcomes of conversions, and their counts.

ghost use Rattle.std.specs.Prelude.{◌≡◌};
ghost use Rattle.apfloat_arrays.specs.Outcomes.{HaveRoom, sum_of, with_flags, with_outcome};

use rustc_apfloat::{Flags, Status};

/// The outcome of converting a value.
#[derive(Clone, Copy)]
pub struct Outcome {
    /// The flags that the conversion raised.
    pub status: Status,
    /// Whether the converted value is a NaN.
    pub is_nan: bool,
}

impl Outcome {
    /// The outcome of a conversion that raises no flag and gives no NaN.
    pub(crate) const EXACT: Outcome = Outcome {
        status: Status::OK,
        is_nan: false,
    };
}

/// The number of values, and of those whose conversion raised a flag or gave a NaN.
#[derive(Clone, Copy, Debug, PartialEq, Eq)]
pub struct Counts {
    /// All values.
    pub values: u64,
    /// Those that raised `INEXACT`.
    pub inexact: u64,
    /// Those that raised `UNDERFLOW`.
    pub underflow: u64,
    /// Those that raised `OVERFLOW`.
    pub overflow: u64,
    /// Those that raised `INVALID_OP`.
    pub invalid: u64,
    /// Those whose converted value is a NaN.
    pub nans: u64,
}

impl Counts {
    /// The counts before any value.
    pub const NONE: Counts = Counts {
        values: 0,
        inexact: 0,
        underflow: 0,
        overflow: 0,
        invalid: 0,
        nans: 0,
    };

    /// Counts one more value.
    #[inline]
    pub fn count(&mut self, outcome: Outcome)
        requires { HaveRoom self.old }
        ensures { self.new ≡ with_outcome self.old outcome }
    {
        let flags = outcome.status.bits();
        self.values += 1;
        self.inexact += u64::from(flags & 0x10 != 0);
        self.underflow += u64::from(flags & 0x08 != 0);
        self.overflow += u64::from(flags & 0x04 != 0);
        self.invalid += u64::from(flags & 0x01 != 0);
        self.nans += u64::from(outcome.is_nan);
    }

    /// Counts the flags of a value that is counted already, and whether it became a NaN. A count stops at the greatest
    /// value of its type.
    pub(crate) fn raise(&mut self, outcome: Outcome)
        ensures { self.new ≡ with_flags self.old outcome }
    {
        let flags = outcome.status.bits();
        self.inexact = self.inexact.saturating_add(u64::from(flags & 0x10 != 0));
        self.underflow = self.underflow.saturating_add(u64::from(flags & 0x08 != 0));
        self.overflow = self.overflow.saturating_add(u64::from(flags & 0x04 != 0));
        self.invalid = self.invalid.saturating_add(u64::from(flags & 0x01 != 0));
        self.nans = self.nans.saturating_add(u64::from(outcome.is_nan));
    }

    /// Adds the counts of a block. A count stops at the greatest value of its type.
    pub fn add(&mut self, block: Counts)
        ensures { self.new ≡ sum_of self.old block }
    {
        self.values = self.values.saturating_add(block.values);
        self.inexact = self.inexact.saturating_add(block.inexact);
        self.underflow = self.underflow.saturating_add(block.underflow);
        self.overflow = self.overflow.saturating_add(block.overflow);
        self.invalid = self.invalid.saturating_add(block.invalid);
        self.nans = self.nans.saturating_add(block.nans);
    }
}
