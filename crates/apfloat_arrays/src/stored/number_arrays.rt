//! Arrays of values whose numbers become codes from bits to bits; infinities and NaNs take the general way.

ghost use Rattle.std.specs.Prelude.{◌≡◌, ◌*◌, ◌<◌, ◌≤◌, length, IfSome};
ghost use Rattle.rustc_apfloat.specs.Types.{constants_of};
ghost use Rattle.small_formats.specs.Types.{constants_of as storage_constants_of};
ghost use Rattle.apfloat_arrays.specs.stored.Arrays.{IsStoredIn};
ghost use Rattle.apfloat_arrays.specs.stored.NumberArrays.{AreStorable, AreStored, HasNumbers};
ghost use Rattle.apfloat_arrays.specs.stored.NumberCodes.{HasConstants, IsWordSource};

use crate::bytes::{bits_in, has_width, write_number};
use crate::counts::{Counts, Outcome};
use crate::each::{ValueConversion, convert_each};
use crate::stored::array::{StoreCall, store_value};
use crate::stored::e3m4_arrays::store_e3m4;
use crate::stored::formats::StoredFormat;
use crate::stored::number_codes::{digits_below, is_number, is_word_source, store_number};
use crate::widths::Widths;
use fast_bits::words::{WordPlan, word_plan};
use rustc_apfloat::Round;
use rustc_apfloat::ieee::Semantics;
use small_formats::saturation::Overflow;
use small_formats::{E2M1FN, E2M3FN, E3M2FN, StorageFormat};
use std::marker::PhantomData;

/// Converts values into a storage format, each in its place, if their numbers become codes from bits to bits.
#[inline(always)]
pub(crate) fn store_numbers<S: Semantics>(call: StoreCall, output: &mut [u8]) -> Option<Counts>
    requires { AreStorable (constants_of S.Semantics) call output.old }
    ensures { IfSome result (AreStored (constants_of S.Semantics) call.entry output.new) }
{
    match call.target {
        StoredFormat::E2M1FN => store_in::<S, E2M1FN>(call, output),
        StoredFormat::E2M3FN => store_in::<S, E2M3FN>(call, output),
        StoredFormat::E3M2FN => store_in::<S, E3M2FN>(call, output),
        StoredFormat::E3M4 => store_e3m4::<S>(call, output),
        StoredFormat::E8M0FNU | StoredFormat::UE4M3 => None,
    }
}

/// `store_numbers` into the format of the type `F`, which is the target.
#[inline(always)]
fn store_in<S: Semantics, F: StorageFormat>(call: StoreCall, output: &mut [u8]) -> Option<Counts>
    requires format { HasConstants call.target (storage_constants_of F.StorageFormat) }
    requires given { AreStorable (constants_of S.Semantics) call output.old }
    ensures { IfSome result (AreStored (constants_of S.Semantics) call.entry output.new) }
{
    if is_word_source::<S, F>() && has_width::<S>(call.width) {
        Some(store_each::<S, F>(call, output))
    } else {
        None
    }
}

/// Converts each value.
#[inline(never)]
fn store_each<S: Semantics, F: StorageFormat>(call: StoreCall, output: &mut [u8]) -> Counts
    requires format { HasConstants call.target (storage_constants_of F.StorageFormat) }
    requires source { IsWordSource (constants_of S.Semantics)
        (storage_constants_of F.StorageFormat) }
    requires width { 8 * call.width ≡ S.BITS }
    requires given { AreStorable (constants_of S.Semantics) call output.old }
    ensures { AreStored (constants_of S.Semantics) call.entry output.new result }
{
    let numbers = Numbers::<S, F> {
        plan: word_plan(digits_below::<S, F>(), call.round),
        target: call.target,
        overflow: call.overflow,
        source: PhantomData,
        stored: PhantomData,
    };
    let widths = Widths {
        source: S::BITS / 8,
        target: 1,
    };
    convert_each(&numbers, widths, call.count, call.input, output)
}

/// The conversion of values of `S` into the format of the type `F`, which is the target.
#[derive(Drop)]
struct Numbers<S: Semantics, F: StorageFormat> {
    plan: WordPlan,
    target: StoredFormat,
    overflow: Overflow,
    source: PhantomData<S>,
    stored: PhantomData<F>,
}

impl<S: Semantics, F: StorageFormat> ValueConversion for Numbers<S, F> {
    ghost can = { λ it. HasNumbers (constants_of S.Semantics) (storage_constants_of F.StorageFormat)
        it.target it.plan };

    ghost gives = { λ it.
        IsStoredIn it.overflow (constants_of S.Semantics) it.target it.plan.round };

    #[inline(always)]
    fn convert(&self, input: &[u8], output: &mut [u8]) -> Outcome {
        let bits = bits_in::<S>(input);
        if is_number::<S>(bits) {
            let answer = store_number::<S, F>(self.plan, bits);
            write_number(u128::from(answer.value), output);
            Outcome {
                status: answer.status,
                is_nan: false,
            }
        } else {
            store_special::<S>(self.target, self.plan.round, self.overflow, input, output)
        }
    }
}

/// Converts an infinity or a NaN in the general way, out of line.
#[cold]
#[inline(never)]
fn store_special<S: Semantics>(
    target: StoredFormat,
    round: Round,
    overflow: Overflow,
    value: &[u8],
    place: &mut [u8],
) -> Outcome
    requires read { S.PRECISION < S.BITS }
    requires value { length value.now ≤ 16 }
    requires place { length place.old ≡ 1 }
    ensures { IsStoredIn overflow (constants_of S.Semantics) target round value.now place.new
        result }
{
    store_value::<S>(target, round, overflow, value, place)
}
