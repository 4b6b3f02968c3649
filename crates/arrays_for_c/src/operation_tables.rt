//! Operations on long arrays of values of 8 bits, by a table of the results for all pairs of values. The operation
//! itself fills it, in memory that the caller lends.

ghost use Rattle.std.specs.Prelude.{◌≡◌, ◌*◌, ◌<◌, ◌≤◌, IsTrue, [], length, true};
ghost use Rattle.rustc_apfloat.specs.FlaggedTypes.{constants_of};
ghost use Rattle.formats_at_run_time.specs.{FlaggedKinds.flagged_kind_of, ValueKinds.of_format};
ghost use Rattle.arrays_for_c.specs.{ArrayCalls.bytes_in, ArrayCalls.has_element_operation, Arrays.AreElements};
ghost use Rattle.arrays_for_c.specs.{Arrays.AreOperands, OperationTables.IsEntry, OperationTables.IsTable};

use crate::array_calls::{MapCall, bytes_in};
use crate::array_data::{Element, ElementCounts};
use crate::elements::{ElementCalls, FormatCalls, element};
use apfloat_arrays::{BytePairs, ENTRY, look_up, mark_of, number_of, write_entry};
use formats_at_run_time::{FlaggedKind, WritesInFormat};
use rustc_apfloat::ieee::Flagged;
use std::marker::PhantomData;

/// The number of pairs of values of 8 bits, each of which has a place in the table.
const PLACES: usize = 65536;

/// The bytes of a table.
const TABLE: usize = PLACES * ENTRY;

/// The least number of elements for which the table is filled.
const LEAST_COUNT: usize = 2 * PLACES;

impl MapCall {
    /// Applies the operation to each element, by a table if `has_table`. The arrays of operands that the operation does
    /// not take are empty.
    pub fn over_with(
        self,
        xs: &[u8],
        ys: &[u8],
        zs: &[u8],
        count: usize,
        output: &mut [u8],
        table: &mut [u8],
    ) -> ElementCounts
        requires has { has_element_operation self.kind self.operation ≡ true }
        requires operands { AreOperands self.kind (bytes_in self.kind) count xs.now ys.now zs.now
            output.old }
        ensures { AreElements self xs.now ys.now zs.now count output.new result }
    {
        if self.has_table(count, ys.len(), zs.len(), table.len()) {
            self.over_by_table(xs, ys, zs, count, output, &mut table[..TABLE])
        } else {
            self.over(xs, ys, zs, count, output)
        }
    }

    /// Whether a table serves: the values have 8 bits, the operation takes two of them, there are enough of them, and
    /// the table has room.
    fn has_table(self, count: usize, second: usize, third: usize, room: usize) -> bool
        ensures { IsTrue result → (bytes_in self.kind ≡ 1) × (second ≡ count) × (third ≡ 0)
            × (65536 * 8 ≤ room) }
    {
        bytes_in(self.kind) == 1
            && second == count
            && third == 0
            && count >= LEAST_COUNT
            && room >= TABLE
    }

    /// Applies an operation on two values of 8 bits to each pair of elements.
    fn over_by_table(
        self,
        xs: &[u8],
        ys: &[u8],
        zs: &[u8],
        count: usize,
        output: &mut [u8],
        table: &mut [u8],
    ) -> ElementCounts
        requires byte { bytes_in self.kind ≡ 1 }
        requires xs { length xs.now ≡ count }
        requires ys { length ys.now ≡ count }
        requires zs { length zs.now ≡ 0 }
        requires output { length output.old ≡ count }
        requires table { length table.old ≡ 65536 * 8 }
        ensures { AreElements self xs.now ys.now zs.now count output.new result }
    {
        match self.kind {
            FlaggedKind::OfFormat(format) => {
                format.write(TableCall { map: self }, table);
                self.looked_up(xs, ys, count, output, table)
            }
            // Their values have 128 bits.
            FlaggedKind::Pairs => ElementCounts::NONE,
        }
    }

    /// The results of a table for each pair of elements.
    fn looked_up(
        self,
        xs: &[u8],
        ys: &[u8],
        count: usize,
        output: &mut [u8],
        table: &[u8],
    ) -> ElementCounts
        requires byte { bytes_in self.kind ≡ 1 }
        requires xs { length xs.now ≡ count }
        requires ys { length ys.now ≡ count }
        requires output { length output.old ≡ count }
        requires size { length table.now ≡ 65536 * 8 }
        requires table { IsTable self 65536 table.now }
        ensures { AreElements self xs.now ys.now [] count output.new result }
    {
        let pairs = BytePairs {
            uppers: xs,
            lowers: ys,
        };
        let tally = look_up(pairs, 1, count, table, output);
        ElementCounts {
            counts: tally.counts(count as u64),
            div_by_zero: tally.div_by_zero,
        }
    }
}

/// The call that fills a table.
#[derive(Clone, Copy)]
struct TableCall {
    map: MapCall,
}

impl WritesInFormat for TableCall {
    type Output = ();

    ghost can = { λ it kind old. (kind ≡ flagged_kind_of it.map.kind) × (bytes_in it.map.kind ≡ 1)
        × (length old ≡ 65536 * 8) };

    ghost gives = { λ it kind old new none. IsTable it.map 65536 new };

    fn write_in_format<S: Flagged>(self, table: &mut [u8]) {
        let calls = FormatCalls::<S> {
            map: self.map,
            format: PhantomData,
        };
        fill(calls, table)
    }
}

/// Fills a table.
fn fill<C: ElementCalls>(calls: C, table: &mut [u8])
    requires can { C.can calls }
    requires byte { bytes_in (C.map calls).kind ≡ 1 }
    requires size { length table.old ≡ 65536 * 8 }
    ensures { IsTable (C.map calls) 65536 table.new }
{
    for place in 0..PLACES {
        let from = place * ENTRY;
        fill_entry(calls, place, &mut table[from..from + ENTRY]);
    }
}

/// Fills the entry of a place: 256 times the bits of the first operand, plus those of the second. Returns the flags of
/// the result and whether it is a NaN, which the contract names.
fn fill_entry<C: ElementCalls>(calls: C, place: usize, entry: &mut [u8]) -> Element
    requires can { C.can calls }
    requires byte { bytes_in (C.map calls).kind ≡ 1 }
    requires place { place < 65536 }
    requires size { length entry.old ≡ 8 }
    ensures { IsEntry (C.map calls) place entry.new result }
{
    let mut bytes = [0_u8; 1];
    let made = element(
        calls,
        (place / 256) as u128,
        (place % 256) as u128,
        0,
        &mut bytes,
    );
    write_entry(number_of(&bytes), mark_of(made.status, made.is_nan), entry);
    made
}
