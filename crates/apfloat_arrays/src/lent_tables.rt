//! Conversion of long arrays of values of two bytes by a table of the results for all of them, in memory that the
//! caller lends.

ghost use Rattle.std.specs.Prelude.{◌≡◌, ◌*◌, ◌<◌, ◌≤◌, IsTrue, length};
ghost use Rattle.rustc_apfloat.specs.FlaggedTypes.{constants_of};
ghost use Rattle.formats_at_run_time.specs.{BuiltIns.constants_in, FlaggedKinds.flagged_constants};
ghost use Rattle.apfloat_arrays.specs.{Blocks.IsBlock, Calls.at_format, Tables.IsResultTable, Values.IsAnswerAt};
ghost use Rattle.apfloat_arrays.specs.{Values.IsConvertedBy, Widths.array_widths};

use crate::array::ArrayConversion;
use crate::counts::Counts;
use crate::entries::{ENTRY, TwoBytes, look_up};
use crate::far_numbers::far_answers_for;
use crate::one_value::Between;
use crate::tables::fill_entries;
use formats_at_run_time::WritesInFormat;
use rustc_apfloat::ieee::Flagged;
use std::marker::PhantomData;

/// The number of places in a table of all values of two bytes.
const PLACES: usize = 65536;

/// The bytes of a table.
const TABLE: usize = PLACES * ENTRY;

/// The least number of values for which the table is filled.
const LEAST_COUNT: usize = 2 * PLACES;

impl ArrayConversion {
    /// Converts `count` values, each in its place, by a table where that takes less time. The contents of the memory
    /// lent for it are unspecified afterwards.
    pub fn convert_with(
        self,
        count: usize,
        input: &[u8],
        output: &mut [u8],
        table: &mut [u8],
    ) -> Counts
        requires input { length input.now ≡ count * (array_widths self).source }
        requires output { length output.old ≡ count * (array_widths self).target }
        ensures { let c = constants_in self.source in let d = flagged_constants self.target in
            IsBlock (IsConvertedBy self.overflow c d self.round) (array_widths self).source
            (array_widths self).target count input.now output.new result }
    {
        if self.has_table(count, table.len()) {
            self.convert_by_table(count, input, output, &mut table[..TABLE])
        } else {
            self.convert(count, input, output)
        }
    }

    /// Whether a table serves: the values have two bytes and their results at most four, there are enough of them, and
    /// the memory has room.
    fn has_table(self, count: usize, room: usize) -> bool
        ensures { IsTrue result → ((array_widths self).source ≡ 2)
            × ((array_widths self).target ≤ 4) × (65536 * 8 ≤ room) }
    {
        let widths = self.widths();
        widths.source == 2 && widths.target <= 4 && count >= LEAST_COUNT && room >= TABLE
    }

    /// Converts `count` values of two bytes by a table.
    fn convert_by_table(
        self,
        count: usize,
        input: &[u8],
        output: &mut [u8],
        table: &mut [u8],
    ) -> Counts
        requires source { (array_widths self).source ≡ 2 }
        requires target { (array_widths self).target ≤ 4 }
        requires input { length input.now ≡ count * 2 }
        requires output { length output.old ≡ count * (array_widths self).target }
        requires table { length table.old ≡ 65536 * 8 }
        ensures { let c = constants_in self.source in let d = flagged_constants self.target in
            IsBlock (IsConvertedBy self.overflow c d self.round) 2 (array_widths self).target count
            input.now output.new result }
    {
        let width = self.widths().target;
        self.source.write(TableCall { conversion: self }, table);
        let places = TwoBytes { bytes: input };
        look_up(places, width, count, table, output).counts(count as u64)
    }
}

/// The call that fills a table, made at the type of the source format.
#[derive(Clone, Copy)]
struct TableCall {
    conversion: ArrayConversion,
}

/// The same call, made at the type of the target format; `S` is the source format.
#[derive(Drop)]
struct TableCallFrom<S: Flagged> {
    conversion: ArrayConversion,
    source: PhantomData<S>,
}

impl WritesInFormat for TableCall {
    type Output = ();

    ghost can = { λ it kind old. at_format kind (λ c. c.bits ≤ 16)
        × ((flagged_constants it.conversion.target).bits ≤ 32) × (length old ≡ 65536 * 8) };

    ghost gives = { λ it kind old new none.
        at_format kind (λ c. IsResultTable (IsAnswerAt it.conversion.overflow c
        (flagged_constants it.conversion.target) it.conversion.round) 65536 new) };

    fn write_in_format<S: Flagged>(self, table: &mut [u8]) {
        let target = self.conversion.target;
        target.write(
            TableCallFrom::<S> {
                conversion: self.conversion,
                source: PhantomData,
            },
            table,
        )
    }
}

impl<S: Flagged> WritesInFormat for TableCallFrom<S> {
    type Output = ();

    ghost can = { λ it kind old. (S.PRECISION < S.BITS) × (S.BITS ≤ 16)
        × at_format kind (λ d. d.bits ≤ 32) × (length old ≡ 65536 * 8) };

    ghost gives = { λ it kind old new none.
        at_format kind (λ d. IsResultTable (IsAnswerAt it.conversion.overflow
        (constants_of S.Flagged) d it.conversion.round) 65536 new) };

    fn write_in_format<T: Flagged>(self, table: &mut [u8]) {
        let ArrayConversion {
            overflow,
            round,
            ..
        } = self.conversion;
        // The other formats have no such table, and no code for one.
        if (S::BITS <= 16) & (T::BITS <= 32) {
            let far = far_answers_for::<S, T>(overflow, round, PLACES);
            let between = Between::<S, T> {
                in_line: true,
                far: &far,
                overflow,
                round,
                formats: PhantomData,
            };
            fill_entries(&between, PLACES, table)
        }
    }
}
