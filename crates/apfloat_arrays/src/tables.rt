//! Tables of the results for all values of a format of few bits, filled by the conversion itself, for arrays of at
//! least as many values: looking a result up is meant to cost less than converting its value.

ghost use Rattle.std.specs.Prelude.{◌≡◌, ℕ, ◌+◌, ◌*◌, ◌^◌, ◌<◌, ◌≤◌, length, slice_get, Some};
ghost use Rattle.apfloat_arrays.specs.{Blocks.value_at, Bytes.number_of, Tables.IsResultTable, Tables.IsTable};
ghost use Rattle.apfloat_arrays.specs.{Tables.outcome_tally, Tallies.packed_of};
ghost use Rattle.apfloat_arrays.specs.declared.counts.Outcome.{Outcome as Result};

use crate::bytes::write_number;
use crate::converted::Converted;
use crate::counts::Outcome;
use crate::entries::{ENTRY, write_entry};
use crate::tallies::mark_of;
use rustc_apfloat::Flags;

/// The results for values that are given by their places.
pub(crate) trait Results {
    // How many bits a result has at the most.
    ghost bits: { ℕ };

    // Whether there is a value in a place.
    ghost has: { Self → ℕ → Type 0 };

    // Whether the value in a place becomes these bits, with that outcome.
    ghost gives: { Self → ℕ → ℕ → Result → Type 0 };

    /// How many bits a result has at the most.
    fn bits() -> usize
        ensures { result ≡ bits };

    /// The result for the value in a place.
    fn result_in(&self, place: usize) -> Converted
        requires { has self.now place }
        ensures { gives self.now place result.bits result.outcome };

    // Each result has so few bits.
    ghost fits: { (it : Self) (place code : ℕ) (outcome : Result) → gives it place code outcome
        → code < 2 ^ bits };
}

/// Fills a table with the results for the first `count` places, each in `width` bytes, and one of their outcomes.
pub(crate) fn fill_table<R: Results>(
    results: &R,
    width: usize,
    count: usize,
    values: &mut [u8],
    outcomes: &mut [Outcome],
)
    requires has { (place : ℕ) → place < count → R.has results.now place }
    requires width { R.bits ≤ 8 * width }
    requires values { length values.old ≡ count * width }
    requires outcomes { length outcomes.old ≡ count }
    ensures { IsTable (R.gives results.now) width count values.new outcomes.new }
{
    for index in 0..count {
        let from = index * width;
        let target = &mut values[from..from + width];
        let answer = results.result_in(index);
        write_number(answer.bits, target);
        outcomes[index] = answer.outcome;
    }
}

/// Writes a result with its tally.
#[inline(always)]
pub(crate) fn write_result(answer: Converted, entry: &mut [u8])
    requires fits { answer.bits < 2 ^ 32 }
    requires size { length entry.old ≡ 8 }
    ensures { number_of entry.new
        ≡ answer.bits + 2 ^ 32 * packed_of (outcome_tally answer.outcome) }
{
    let Outcome { status, is_nan } = answer.outcome;
    let mark = mark_of(u32::from(status.bits()), is_nan);
    write_entry(answer.bits, mark, entry)
}

/// Fills a table of entries with the results for the first `count` places.
pub(crate) fn fill_entries<R: Results>(results: &R, count: usize, table: &mut [u8])
    requires has { (place : ℕ) → place < count → R.has results.now place }
    requires few { R.bits ≤ 32 }
    requires table { length table.old ≡ count * 8 }
    ensures { IsResultTable (R.gives results.now) count table.new }
{
    for place in 0..count {
        let from = place * ENTRY;
        write_result(results.result_in(place), &mut table[from..from + ENTRY]);
    }
}

/// Copies a result from its place in a table.
#[inline(always)]
pub fn look_up(values: &[u8], outcomes: &[Outcome], place: usize, target: &mut [u8]) -> Outcome
    requires place { place < length outcomes.now }
    requires size { length values.now ≡ length outcomes.now * length target.old }
    ensures bytes { target.new ≡ value_at (length target.old) place values.now }
    ensures outcome { slice_get outcomes.now place ≡ Some result }
{
    let width = target.len();
    let from = place * width;
    target.copy_from_slice(&values[from..from + width]);
    outcomes[place]
}
