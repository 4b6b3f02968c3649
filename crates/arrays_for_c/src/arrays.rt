//! The exports that convert arrays, declared for C programs in `include/apfloat.h`.

ghost use Rattle.std.specs.Prelude.{◌≡◌, ◌≢◌, length};
ghost use Rattle.arrays_for_c.specs.ArrayCalls.{array_format_coded, conversion_mode_coded, known_array_conversion};
ghost use Rattle.arrays_for_c.specs.Arrays.{IsConvertedArray};

use crate::array_calls::known_array_conversion;
use crate::array_data::{ArrayAnswer, ElementCounts};
use coded_calls::codes::ANSWERED;

/// Converts each value of an array.
#[unsafe(no_mangle)]
pub extern "C" fn apfloat_convert_array(
    format: u32,
    mode: u32,
    to: u32,
    values: &[u8],
    results: &mut [u8],
    answer: &mut ArrayAnswer,
) -> u32
    ensures { let known = known_array_conversion (array_format_coded format)
        (conversion_mode_coded mode) (array_format_coded to) (length values.now)
        (length results.old) in
        IsConvertedArray known values.now results.old results.new answer.old answer.new result }
{
    convert_array(format, mode, to, values, results, &mut [], answer)
}

/// `apfloat_convert_array` with memory lent for a table of all results. If it has 2^19 bytes, a long array of values of
/// 16 bits is converted to a format of at most 32 by look-ups there. The contents of the memory are unspecified after
/// an answer; an error leaves it as it was.
#[unsafe(no_mangle)]
pub extern "C" fn apfloat_convert_array_by_table(
    format: u32,
    mode: u32,
    to: u32,
    values: &[u8],
    results: &mut [u8],
    table: &mut [u8],
    answer: &mut ArrayAnswer,
) -> u32
    ensures written { let known = known_array_conversion (array_format_coded format)
        (conversion_mode_coded mode) (array_format_coded to) (length values.now)
        (length results.old) in
        IsConvertedArray known values.now results.old results.new answer.old answer.new result }
    ensures lent { result ≢ 0 → table.new ≡ table.old }
{
    convert_array(format, mode, to, values, results, table, answer)
}

/// Converts each value of an array, as the codes ask.
fn convert_array(
    format: u32,
    mode: u32,
    to: u32,
    values: &[u8],
    results: &mut [u8],
    table: &mut [u8],
    answer: &mut ArrayAnswer,
) -> u32
    ensures written { let known = known_array_conversion (array_format_coded format)
        (conversion_mode_coded mode) (array_format_coded to) (length values.now)
        (length results.old) in
        IsConvertedArray known values.now results.old results.new answer.old answer.new result }
    ensures lent { result ≢ 0 → table.new ≡ table.old }
{
    let known = known_array_conversion(format, mode, to, values.len(), results.len());
    match known {
        Err(error) => error,
        Ok(conversion) => {
            let widths = conversion.widths();
            let count = values.len() / widths.source;
            let front = &mut results[..count * widths.target];
            let counts = conversion.convert_with(count, values, front, table);
            *answer = ArrayAnswer::of(ElementCounts {
                counts,
                div_by_zero: 0,
            });
            ANSWERED
        }
    }
}
