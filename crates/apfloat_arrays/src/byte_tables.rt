//! Values of one byte, converted by a table of the results for all 256.

ghost use Rattle.std.specs.Prelude.{◌≡◌, ℕ, ◌*◌, ◌<◌, ◌≤◌, length};
ghost use Rattle.apfloat_arrays.specs.{Blocks.IsBlock, Bytes.number_of};
ghost use Rattle.apfloat_arrays.specs.Tables.{IsConvertedIn, IsResultTable, IsTable};

use crate::counts::{Counts, Outcome};
use crate::each::{ValueConversion, convert_each};
use crate::entries::{ENTRY, OneByte, byte_of, look_up};
use crate::tables::{Results, fill_table, look_up as look_up_value};
use crate::widths::Widths;

/// The number of places in a table of all bytes.
pub(crate) const PLACES: usize = 256;

/// The results for all bytes, of which a table is filled.
pub(crate) trait ByteResults: Results {
    /// Fills a table of entries with the results for all bytes.
    fn fill_bytes(&self, table: &mut [u8])
        requires has { (place : ℕ) → place < 256 → Self.has self.now place }
        requires few { Self.bits ≤ 32 }
        requires table { length table.old ≡ 256 * 8 }
        ensures { IsResultTable (Self.gives self.now) 256 table.new };
}

/// Results that are looked up in a table of those for all bytes.
#[derive(Drop)]
struct Tabled<'a, R> {
    results: &'a R,
    values: &'a [u8],
    outcomes: &'a [Outcome],
}

impl<R: Results> ValueConversion for Tabled<'_, R> {
    ghost can = { λ it source target. (source ≡ 1)
        × IsTable (R.gives it.results.now) target 256 it.values.now it.outcomes.now
        × (length it.values.now ≡ 256 * target) };

    ghost gives = { λ it. IsConvertedIn (R.gives it.results.now) };

    #[inline(always)]
    fn convert(&self, input: &[u8], output: &mut [u8]) -> Outcome {
        look_up_value(self.values, self.outcomes, byte_of(input), output)
    }
}

/// Converts `count` values of one byte, each in its place: by a table of entries where a result of at most 32 bits fits
/// in one, with its outcome.
#[inline(always)]
pub(crate) fn convert_by_table<R: ByteResults>(
    results: &R,
    width: usize,
    count: usize,
    input: &[u8],
    output: &mut [u8],
) -> Counts
    requires has { (place : ℕ) → place < 256 → R.has results.now place }
    requires width { R.bits ≤ 8 * width }
    requires few { width ≤ 16 }
    requires input { length input.now ≡ count * 1 }
    requires output { length output.old ≡ count * width }
    ensures { IsBlock (IsConvertedIn (R.gives results.now)) 1 width count input.now output.new
        result }
{
    if R::bits() <= 32 {
        let mut table = [0_u8; ENTRY * PLACES];
        results.fill_bytes(&mut table);
        let bytes = OneByte { bytes: input };
        look_up(bytes, width, count, &table, output).counts(count as u64)
    } else {
        let mut values = [0_u8; 16 * PLACES];
        let mut outcomes = [Outcome::EXACT; PLACES];
        let front = &mut values[..PLACES * width];
        convert_wide(results, width, front, &mut outcomes, count, input, output)
    }
}

/// `convert_by_table` by a table of results of any number of bits, and a table of their outcomes, in memory lent for
/// them.
#[inline(always)]
fn convert_wide<R: Results>(
    results: &R,
    width: usize,
    values: &mut [u8],
    outcomes: &mut [Outcome],
    count: usize,
    input: &[u8],
    output: &mut [u8],
) -> Counts
    requires has { (place : ℕ) → place < 256 → R.has results.now place }
    requires width { R.bits ≤ 8 * width }
    requires values { length values.old ≡ 256 * width }
    requires outcomes { length outcomes.old ≡ 256 }
    requires input { length input.now ≡ count * 1 }
    requires output { length output.old ≡ count * width }
    ensures { IsBlock (IsConvertedIn (R.gives results.now)) 1 width count input.now output.new
        result }
{
    fill_table(results, width, PLACES, values, outcomes);
    let tabled = Tabled {
        results,
        values,
        outcomes,
    };
    let widths = Widths {
        source: 1,
        target: width,
    };
    convert_each(&tabled, widths, count, input, output)
}
