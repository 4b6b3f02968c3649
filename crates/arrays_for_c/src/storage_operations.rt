//! The export of operations on codes of the storage formats all of whose codes are numbers, declared for C programs in
//! `include/apfloat.h`.

ghost use Rattle.std.specs.Prelude.{◌≡◌, ◌%◌, ◌^◌};
ghost use Rattle.rustc_apfloat.specs.Flags.{Gives};
ghost use Rattle.formats_at_run_time.specs.Modes.{mode_coded};
ghost use Rattle.small_formats.specs.{Arithmetic.IsStored, Codes.datum_of, Storage.format_with, Types.constants_of};
ghost use Rattle.apfloat_arrays.specs.stored.Formats.{stored_format_coded};
ghost use Rattle.arrays_for_c.specs.StorageOperations.{IsOperated, IsOperationReply, known_request, outcome_of};
ghost use Rattle.arrays_for_c.specs.StorageOperations.{storage_operation_coded};

use apfloat_arrays::stored::StoredFormat;
use coded_calls::codes::{ANSWERED, NO_SUCH_OPERATION, UNKNOWN_FORMAT, UNKNOWN_MODE};
use coded_calls::data::Answer;
use formats_at_run_time::mode_coded;
use rustc_apfloat::{Round, Status, StatusAnd};
use small_formats::{E2M1FN, E2M3FN, E3M2FN, StorageFormat, StoredFloat};

/// An operation on codes of a format, whose result is one.
#[derive(Clone, Copy)]
pub enum StorageOperation {
    /// The sum of two.
    Sum,
    /// The first less the second.
    Difference,
    /// The product of two.
    Product,
    /// The first divided by the second.
    Quotient,
    /// The product of the first two plus the third, rounded once.
    FusedSum,
    /// The square root.
    SquareRoot,
    /// The lesser of two (IEEE 754-2019 9.6, minimum).
    Minimum,
    /// The greater of two (9.6, maximum).
    Maximum,
}

/// The operation of this code.
fn storage_operation_coded(code: u32) -> Option<StorageOperation>
    ensures { result ≡ storage_operation_coded code }
{
    match code {
        1 => Some(StorageOperation::Sum),
        2 => Some(StorageOperation::Difference),
        3 => Some(StorageOperation::Product),
        4 => Some(StorageOperation::Quotient),
        7 => Some(StorageOperation::FusedSum),
        8 => Some(StorageOperation::SquareRoot),
        14 => Some(StorageOperation::Minimum),
        15 => Some(StorageOperation::Maximum),
        _ => None,
    }
}

/// The number of the code in the lowest bits.
fn number_in<F: StorageFormat>(bits: u32) -> StoredFloat<F>
    ensures { result ≡ bits % 256 % 2 ^ F.BITS }
{
    StoredFloat::from_bits((bits % 256) as u8)
}

/// What an operation gives.
fn operated<F: StorageFormat>(
    operation: StorageOperation,
    round: Round,
    x: StoredFloat<F>,
    y: StoredFloat<F>,
    z: StoredFloat<F>,
) -> StatusAnd<StoredFloat<F>>
    ensures { let c = constants_of F.StorageFormat in Gives (IsStored c round
        (outcome_of operation (format_with c) (datum_of c x) (datum_of c y) (datum_of c z)))
        result }
{
    match operation {
        StorageOperation::Sum => x.add_r(y, round),
        StorageOperation::Difference => x.sub_r(y, round),
        StorageOperation::Product => x.mul_r(y, round),
        StorageOperation::Quotient => x.div_r(y, round),
        StorageOperation::FusedSum => x.mul_add_r(y, z, round),
        StorageOperation::SquareRoot => x.sqrt_r(round),
        StorageOperation::Minimum => Status::OK.and(x.minimum(y)),
        StorageOperation::Maximum => Status::OK.and(x.maximum(y)),
    }
}

/// What an operation gives on codes.
fn operated_codes<F: StorageFormat>(
    operation: StorageOperation,
    round: Round,
    x: u32,
    y: u32,
    z: u32,
) -> StatusAnd<u8>
    ensures { Gives (IsOperated (constants_of F.StorageFormat) operation round x y z) result }
{
    let answer = operated(
        operation,
        round,
        number_in::<F>(x),
        number_in(y),
        number_in(z),
    );
    answer.status.and(answer.value.to_bits())
}

/// An operation on codes of a storage format, rounded once.
#[unsafe(no_mangle)]
pub extern "C" fn apfloat_storage_operation(
    format: u32,
    mode: u32,
    operation: u32,
    x: u32,
    y: u32,
    z: u32,
    answer: &mut Answer,
) -> u32
    ensures { let known = known_request (stored_format_coded format) (mode_coded mode)
        (storage_operation_coded operation) in
        IsOperationReply known x y z answer.old answer.new result }
{
    let Some(format) = StoredFormat::coded(format) else {
        return UNKNOWN_FORMAT;
    };
    let Some(round) = mode_coded(mode) else {
        return UNKNOWN_MODE;
    };
    let Some(operation) = storage_operation_coded(operation) else {
        return NO_SUCH_OPERATION;
    };
    let made = match format {
        StoredFormat::E2M1FN => operated_codes::<E2M1FN>(operation, round, x, y, z),
        StoredFormat::E2M3FN => operated_codes::<E2M3FN>(operation, round, x, y, z),
        StoredFormat::E3M2FN => operated_codes::<E3M2FN>(operation, round, x, y, z),
        StoredFormat::E3M4 | StoredFormat::E8M0FNU | StoredFormat::UE4M3 => {
            return NO_SUCH_OPERATION;
        }
    };
    *answer = Answer::of(u128::from(made.value), made.status, 0);
    ANSWERED
}
