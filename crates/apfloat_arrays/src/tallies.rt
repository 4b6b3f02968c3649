//! How many results raised each flag, and how many are NaNs; of few results, as the digits of one number.

ghost use Rattle.std.specs.Prelude.{◌≡◌, ◌^◌, ◌<◌};
ghost use Rattle.apfloat_arrays.specs.Tallies.{Fits, counts_with, packed_of, sum_of, tally_of, unpacked};

use crate::counts::Counts;

/// The most results whose counts fit in a digit each.
pub(crate) const FEW: usize = 31;

/// Of some results, how many raised each flag, and how many are NaNs.
#[derive(Clone, Copy)]
pub struct Tally {
    /// Those that raised `INEXACT`.
    pub inexact: u64,
    /// Those that raised `UNDERFLOW`.
    pub underflow: u64,
    /// Those that raised `OVERFLOW`.
    pub overflow: u64,
    /// Those that raised `DIV_BY_ZERO`.
    pub div_by_zero: u64,
    /// Those that raised `INVALID_OP`.
    pub invalid: u64,
    /// Those that are NaNs.
    pub nans: u64,
}

impl Tally {
    /// The tally of no result.
    pub(crate) const NONE: Tally = Tally {
        inexact: 0,
        underflow: 0,
        overflow: 0,
        div_by_zero: 0,
        invalid: 0,
        nans: 0,
    };

    /// The tally of these results and of others.
    pub(crate) fn with(self, others: Tally) -> Tally
        requires { Fits (sum_of self others) }
        ensures { result ≡ sum_of self others }
    {
        Tally {
            inexact: self.inexact + others.inexact,
            underflow: self.underflow + others.underflow,
            overflow: self.overflow + others.overflow,
            div_by_zero: self.div_by_zero + others.div_by_zero,
            invalid: self.invalid + others.invalid,
            nans: self.nans + others.nans,
        }
    }

    /// The tally whose counts are the digits of a number to the base 32.
    pub(crate) fn unpacked(packed: u64) -> Tally
        ensures { result ≡ unpacked packed }
    {
        let after_invalid = packed / 32;
        let after_divided = after_invalid / 32;
        let after_overflow = after_divided / 32;
        let after_underflow = after_overflow / 32;
        Tally {
            inexact: after_underflow % 32,
            underflow: after_overflow % 32,
            overflow: after_divided % 32,
            div_by_zero: after_invalid % 32,
            invalid: packed % 32,
            nans: after_underflow / 32,
        }
    }

    /// The counts of so many results.
    pub fn counts(self, values: u64) -> Counts
        ensures { result ≡ counts_with values self }
    {
        Counts {
            values,
            inexact: self.inexact,
            underflow: self.underflow,
            overflow: self.overflow,
            invalid: self.invalid,
            nans: self.nans,
        }
    }
}

/// The tally of one result, packed.
pub fn mark_of(flags: u32, is_nan: bool) -> u64
    ensures is { result ≡ packed_of (tally_of flags is_nan) }
    ensures most { result < 2 ^ 32 }
{
    let late = u64::from(flags & 0x10 != 0) + 32 * u64::from(is_nan);
    let later = u64::from(flags & 0x08 != 0) + 32 * late;
    let middle = u64::from(flags & 0x04 != 0) + 32 * later;
    u64::from(flags & 0x01 != 0) + 32 * (u64::from(flags & 0x02 != 0) + 32 * middle)
}
