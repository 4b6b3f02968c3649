//! Tables of results, each with what it adds to the counts, so that one look-up gives both.

ghost use Rattle.std.specs.Prelude.{◌≡◌, ℕ, ◌+◌, ◌*◌, ◌/◌, ◌%◌, ◌^◌, ◌<◌, ◌≤◌, length};
ghost use Rattle.apfloat_arrays.specs.{Blocks.value_at, Bytes.number_of};
ghost use Rattle.apfloat_arrays.specs.Entries.{AreEntries, AreLookedUp, IsEntryOf, entry_of};
ghost use Rattle.apfloat_arrays.specs.Tallies.{AreTalliesAtMost, packed_of};
ghost use Rattle.apfloat_arrays.specs.declared.tallies.Tally.{Tally as Few};

use crate::bytes::{number_of, write_number};
use crate::tallies::{FEW, Tally};

/// The bytes of an entry.
pub const ENTRY: usize = 8;

/// What follows the bits of a result in an entry.
const MARK: u128 = 1 << 32;

/// The places of values in a table of results.
pub trait TablePlaces: Copy {
    // How many places there are.
    ghost size: { Self → ℕ };

    // Whether there is a value with that index.
    ghost has: { Self → ℕ → Type 0 };

    // Its place.
    ghost place: { Self → ℕ → ℕ };

    /// The place of the value with that index.
    fn place(self, index: usize) -> usize
        requires { has self index }
        ensures is { result ≡ place self index }
        ensures within { result < size self };
}

/// Values of one byte, the places of which are their bits.
#[derive(Clone, Copy)]
pub(crate) struct OneByte<'a> {
    /// Their bytes.
    pub bytes: &'a [u8],
}

/// Values of two bytes.
#[derive(Clone, Copy)]
pub(crate) struct TwoBytes<'a> {
    /// Their bytes.
    pub bytes: &'a [u8],
}

/// Pairs of values of one byte each.
#[derive(Clone, Copy)]
pub struct BytePairs<'a> {
    /// The bytes of the upper digits of the place.
    pub uppers: &'a [u8],
    /// The bytes of the lower ones.
    pub lowers: &'a [u8],
}

impl TablePlaces for OneByte<'_> {
    ghost size = { λ it. 256 };

    ghost has = { λ it index. index < length it.bytes.now };

    ghost place = { λ it index. number_of (value_at 1 index it.bytes.now) };

    #[inline(always)]
    fn place(self, index: usize) -> usize {
        byte_at(self.bytes, index)
    }
}

impl TablePlaces for TwoBytes<'_> {
    ghost size = { λ it. 65536 };

    ghost has = { λ it index. index * 2 + 2 ≤ length it.bytes.now };

    ghost place = { λ it index. number_of (value_at 2 index it.bytes.now) };

    #[inline(always)]
    fn place(self, index: usize) -> usize {
        let from = index * 2;
        short_of(&self.bytes[from..from + 2])
    }
}

impl TablePlaces for BytePairs<'_> {
    ghost size = { λ it. 65536 };

    ghost has = { λ it index. (index < length it.uppers.now) × (index < length it.lowers.now) };

    ghost place = { λ it index. number_of (value_at 1 index it.uppers.now) * 256
        + number_of (value_at 1 index it.lowers.now) };

    #[inline(always)]
    fn place(self, index: usize) -> usize {
        byte_at(self.uppers, index) * 256 + byte_at(self.lowers, index)
    }
}

/// A byte of an array.
#[inline(always)]
fn byte_at(bytes: &[u8], index: usize) -> usize
    requires { index < length bytes.now }
    ensures is { result ≡ number_of (value_at 1 index bytes.now) }
    ensures within { result < 256 }
{
    let from = index * 1;
    byte_of(&bytes[from..from + 1])
}

/// The number that a byte is.
#[inline(always)]
pub(crate) fn byte_of(bytes: &[u8]) -> usize
    requires { length bytes.now ≡ 1 }
    ensures is { result ≡ number_of bytes.now }
    ensures within { result < 256 }
{
    usize::from(bytes[0])
}

/// The number that two bytes are.
#[inline(always)]
fn short_of(bytes: &[u8]) -> usize
    requires { length bytes.now ≡ 2 }
    ensures is { result ≡ number_of bytes.now }
    ensures within { result < 65536 }
{
    usize::from(bytes[0]) + 256 * usize::from(bytes[1])
}

/// Writes an entry.
#[inline(always)]
pub fn write_entry(bits: u128, mark: u64, entry: &mut [u8])
    requires bits { bits < 2 ^ 32 }
    requires mark { mark < 2 ^ 32 }
    requires size { length entry.old ≡ 8 }
    ensures { number_of entry.new ≡ bits + 2 ^ 32 * mark }
{
    write_number(bits + MARK * u128::from(mark), entry)
}

/// Copies the results for `count` values from their places in a table, each in `width` bytes, and counts their flags
/// and NaNs. Most widths are 1, 2 or 4, which the loop of each knows as a constant.
pub fn look_up<P: TablePlaces>(
    places: P,
    width: usize,
    count: usize,
    table: &[u8],
    output: &mut [u8],
) -> Tally
    requires has { (index : ℕ) → index < count → P.has places index }
    requires table { AreEntries width (P.size places) table.now }
    requires output { length output.old ≡ count * width }
    ensures { AreLookedUp (P.place places) (P.size places) width count table.now output.new result }
{
    match width {
        1 => look_up_each(places, 1, count, table, output),
        2 => look_up_each(places, 2, count, table, output),
        4 => look_up_each(places, 4, count, table, output),
        _ => look_up_each(places, width, count, table, output),
    }
}

/// `look_up`, for a width that is a constant where this is inlined.
#[inline(always)]
fn look_up_each<P: TablePlaces>(
    places: P,
    width: usize,
    count: usize,
    table: &[u8],
    output: &mut [u8],
) -> Tally
    requires has { (index : ℕ) → index < count → P.has places index }
    requires table { AreEntries width (P.size places) table.now }
    requires output { length output.old ≡ count * width }
    ensures { AreLookedUp (P.place places) (P.size places) width count table.now output.new result }
{
    let mut tally = Tally::NONE;
    for number in 0..count / FEW {
        let first = number * FEW;
        tally = look_up_few(places, width, count, first, FEW, tally, table, output);
    }
    let rest = count % FEW;
    look_up_few(
        places,
        width,
        count,
        count - rest,
        rest,
        tally,
        table,
        output,
    )
}

/// `look_up` for `size` values from the index `first` on, added to the tally of those before: so few that their counts
/// fit in one word.
#[inline(always)]
fn look_up_few<P: TablePlaces>(
    places: P,
    width: usize,
    count: usize,
    first: usize,
    size: usize,
    tally: Tally,
    table: &[u8],
    output: &mut [u8],
) -> Tally
    requires few { size ≤ 31 }
    requires within { first + size ≤ count }
    requires has { (index : ℕ) → index < count → P.has places index }
    requires table { AreEntries width (P.size places) table.now }
    requires output { length output.old ≡ count * width }
    requires before { AreLookedUp (P.place places) (P.size places) width first table.now
        output.old tally }
    ensures { AreLookedUp (P.place places) (P.size places) width (first + size) table.now
        output.new result }
{
    let mut packed = 0_u64;
    for index in first..first + size {
        let to = index * width;
        packed += look_up_one(places.place(index), table, &mut output[to..to + width]);
    }
    tally.with(Tally::unpacked(packed))
}

/// Copies the result in a place, and returns its packed tally.
#[inline(always)]
fn look_up_one(place: usize, table: &[u8], target: &mut [u8]) -> u64
    requires entry { IsEntryOf (length target.old) (entry_of table.now place) }
    requires within { place * 8 + 8 ≤ length table.now }
    ensures result { number_of target.new ≡ entry_of table.now place % 2 ^ 32 }
    ensures mark { result ≡ entry_of table.now place / 2 ^ 32 }
    ensures few { (few : Few) × AreTalliesAtMost 1 few × (result ≡ packed_of few) }
{
    let from = place * ENTRY;
    let entry = number_of(&table[from..from + ENTRY]);
    write_number(entry % MARK, target);
    (entry / MARK) as u64
}
