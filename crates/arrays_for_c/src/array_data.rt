//! The data of calls on arrays.

ghost use Rattle.std.specs.Prelude.{◌≡◌, ◌≤◌};
ghost use Rattle.arrays_for_c.specs.Arrays.{HaveRoomFor, answer_with, flag_if, with_element};

use apfloat_arrays::Counts;

/// The result of a call on arrays: how many values there were, for how many of them each flag was raised, and how many
/// of the results are NaNs.
#[repr(C)]
#[derive(Clone, Copy)]
pub struct ArrayAnswer {
    /// The number of values.
    pub values: u64,
    /// The number of values that raised `INEXACT`.
    pub inexact: u64,
    /// The number of values that raised `UNDERFLOW`.
    pub underflow: u64,
    /// The number of values that raised `OVERFLOW`.
    pub overflow: u64,
    /// The number of values that raised `DIV_BY_ZERO`.
    pub div_by_zero: u64,
    /// The number of values that raised `INVALID_OP`.
    pub invalid_op: u64,
    /// The number of results that are NaNs.
    pub nans: u64,
    /// The flags that any of them raised.
    pub status: u32,
    /// Always 0.
    pub reserved: u32,
}

// C programs take these sizes from the header. The order of the fields is tested from C (`tests/c/check_rows.c`).
const _: () = prove!(size_of::<ArrayAnswer>() == 64);

const _: () = prove!(align_of::<ArrayAnswer>() == 8);

/// The outcome of an operation on elements.
#[derive(Clone, Copy)]
pub struct Element {
    /// The flags that it raised.
    pub status: u32,
    /// Whether its result is a NaN.
    pub is_nan: bool,
}

/// Counts of elements: those of conversions, and that of divisions by zero, which no conversion raises.
#[derive(Clone, Copy)]
pub struct ElementCounts {
    /// The counts that conversions have too.
    pub counts: Counts,
    /// The number of elements that raised `DIV_BY_ZERO`.
    pub div_by_zero: u64,
}

impl ElementCounts {
    /// The counts before any element.
    pub const NONE: ElementCounts = ElementCounts {
        counts: Counts::NONE,
        div_by_zero: 0,
    };

    /// Counts one more element.
    pub fn count(&mut self, element: Element)
        requires { HaveRoomFor self.old }
        ensures { self.new ≡ with_element self.old element }
    {
        let flags = element.status;
        let Counts {
            values,
            inexact,
            underflow,
            overflow,
            invalid,
            nans,
        } = self.counts;
        self.counts = Counts {
            values: values + 1,
            inexact: inexact + u64::from(flags & 0x10 != 0),
            underflow: underflow + u64::from(flags & 0x08 != 0),
            overflow: overflow + u64::from(flags & 0x04 != 0),
            invalid: invalid + u64::from(flags & 0x01 != 0),
            nans: nans + u64::from(element.is_nan),
        };
        self.div_by_zero += u64::from(flags & 0x02 != 0);
    }
}

impl ArrayAnswer {
    /// The result with these counts.
    pub fn of(counted: ElementCounts) -> ArrayAnswer
        ensures { result ≡ answer_with counted }
    {
        let ElementCounts {
            counts,
            div_by_zero,
        } = counted;
        ArrayAnswer {
            values: counts.values,
            inexact: counts.inexact,
            underflow: counts.underflow,
            overflow: counts.overflow,
            div_by_zero,
            invalid_op: counts.invalid,
            nans: counts.nans,
            status: flag_if(0x10, counts.inexact)
                + flag_if(0x08, counts.underflow)
                + flag_if(0x04, counts.overflow)
                + flag_if(0x02, div_by_zero)
                + flag_if(0x01, counts.invalid),
            reserved: 0,
        }
    }
}

/// The flag, if any element raised it.
fn flag_if(flag: u32, count: u64) -> u32
    ensures is { result ≡ flag_if flag count }
    ensures most { result ≤ flag }
{
    if count == 0 { 0 } else { flag }
}
