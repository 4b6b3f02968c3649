//! The exports that apply operations to arrays, declared for C programs in `include/apfloat.h`.

ghost use Rattle.std.specs.Prelude.{◌≡◌, ◌≢◌, ℕ, length};
ghost use Rattle.formats_at_run_time.specs.{FlaggedKinds.flagged_kind_coded, Modes.mode_coded};
ghost use Rattle.arrays_for_c.specs.{ArrayCalls.known_map, ArrayCalls.operation_coded, Arrays.IsMappedArray};

use crate::array_calls::{bytes_in, known_map};
use crate::array_data::ArrayAnswer;
use coded_calls::codes::ANSWERED;

/// Applies an operation to each element of an array, or to the elements of two or three arrays.
#[unsafe(no_mangle)]
pub extern "C" fn apfloat_map_array(
    format: u32,
    mode: u32,
    operation: u32,
    xs: &[u8],
    ys: &[u8],
    zs: &[u8],
    results: &mut [u8],
    answer: &mut ArrayAnswer,
) -> u32
    ensures { let lengths : ℕ × ℕ × ℕ = (length xs.now, length ys.now, length zs.now) in
        let known = known_map (flagged_kind_coded format) (mode_coded mode)
        (operation_coded operation) lengths (length results.old) in
        IsMappedArray known xs.now ys.now zs.now results.old results.new answer.old answer.new
        result }
{
    let table = &mut [];
    mapped(format, mode, operation, xs, ys, zs, results, table, answer)
}

/// `apfloat_map_array` with memory lent for a table of all results. If it has 2^19 bytes, a long array of sums,
/// differences, products, quotients or remainders of values of 8 bits is looked up there. The contents of the memory
/// are unspecified after an answer; an error leaves it as it was.
#[unsafe(no_mangle)]
pub extern "C" fn apfloat_map_array_by_table(
    format: u32,
    mode: u32,
    operation: u32,
    xs: &[u8],
    ys: &[u8],
    zs: &[u8],
    results: &mut [u8],
    table: &mut [u8],
    answer: &mut ArrayAnswer,
) -> u32
    ensures written { let lengths : ℕ × ℕ × ℕ = (length xs.now, length ys.now, length zs.now) in
        let known = known_map (flagged_kind_coded format) (mode_coded mode)
        (operation_coded operation) lengths (length results.old) in
        IsMappedArray known xs.now ys.now zs.now results.old results.new answer.old answer.new
        result }
    ensures lent { result ≢ 0 → table.new ≡ table.old }
{
    mapped(format, mode, operation, xs, ys, zs, results, table, answer)
}

/// Applies an operation, as the codes ask.
fn mapped(
    format: u32,
    mode: u32,
    operation: u32,
    xs: &[u8],
    ys: &[u8],
    zs: &[u8],
    results: &mut [u8],
    table: &mut [u8],
    answer: &mut ArrayAnswer,
) -> u32
    ensures written { let lengths : ℕ × ℕ × ℕ = (length xs.now, length ys.now, length zs.now) in
        let known = known_map (flagged_kind_coded format) (mode_coded mode)
        (operation_coded operation) lengths (length results.old) in
        IsMappedArray known xs.now ys.now zs.now results.old results.new answer.old answer.new
        result }
    ensures lent { result ≢ 0 → table.new ≡ table.old }
{
    let lengths = (xs.len(), ys.len(), zs.len());
    let known = known_map(format, mode, operation, lengths, results.len());
    match known {
        Err(error) => error,
        Ok(map) => {
            let width = bytes_in(map.kind);
            let count = xs.len() / width;
            let front = &mut results[..count * width];
            let counted = map.over_with(xs, ys, zs, count, front, table);
            *answer = ArrayAnswer::of(counted);
            ANSWERED
        }
    }
}
