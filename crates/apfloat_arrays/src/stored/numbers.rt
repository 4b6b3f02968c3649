//! Conversion of one value, by its bits.

ghost use Rattle.std.specs.Prelude.{◌≡◌};
ghost use Rattle.rustc_apfloat.specs.FlaggedTypes.{constants_of as flagged_constants_of};
ghost use Rattle.rustc_apfloat.specs.Types.{constants_of};
ghost use Rattle.formats_at_run_time.specs.FormatKinds.{IfFormat};
ghost use Rattle.apfloat_arrays.specs.stored.{Arrays.IsLoaded, Arrays.IsStoredAs, Numbers.IsConvertedNumber};

use crate::stored::array::{Ends, StorageArray};
use crate::stored::code_tables::load_code;
use crate::stored::formats::StoredFormat;
use crate::{Converted, Outcome};
use formats_at_run_time::{InFlaggedFormat, InFormat};
use rustc_apfloat::ieee::{Flagged, IeeeFloat, Semantics};
use rustc_apfloat::{Float, Round};
use small_formats::saturation::Overflow;

impl StorageArray {
    /// Converts the value of these bits, as `convert` does each value of an array. The bits above those of its format
    /// are ignored.
    pub fn convert_bits(self, bits: u128) -> Converted
        ensures { IsConvertedNumber self.overflow self.round self.ends bits result.bits
            result.outcome }
    {
        let StorageArray {
            ends,
            extended: _,
            round,
            overflow,
        } = self;
        match ends {
            Ends::Into(source, target) => source.run(StoreBits {
                target,
                round,
                overflow,
                bits,
            }),
            Ends::OutOf(source, target) => target.run(LoadByte {
                source,
                round,
                overflow,
                byte: (bits % 256) as u8,
            }),
        }
    }
}

/// The call that converts a value into a storage format, made at the type of its format.
#[derive(Clone, Copy)]
struct StoreBits {
    target: StoredFormat,
    round: Round,
    overflow: Overflow,
    bits: u128,
}

/// The call that converts a code of a storage format, made at the type of the target format.
#[derive(Clone, Copy)]
struct LoadByte {
    source: StoredFormat,
    round: Round,
    overflow: Overflow,
    byte: u8,
}

impl InFormat for StoreBits {
    type Output = Converted;

    ghost gives = { λ it kind made. IfFormat kind
        (λ c. IsStoredAs it.overflow c it.target it.round it.bits made.bits made.outcome) };

    fn in_format<S: Semantics>(self) -> Converted {
        let x = IeeeFloat::<S>::from_bits(self.bits);
        let answer = self.target.store(self.overflow, self.round, x);
        Converted {
            bits: u128::from(answer.value),
            outcome: Outcome {
                status: answer.status,
                is_nan: self.target.is_nan(answer.value),
            },
        }
    }
}

impl InFlaggedFormat for LoadByte {
    type Output = Converted;

    ghost gives = { λ it kind made. IfFormat kind
        (λ d. IsLoaded it.overflow it.source d it.round it.byte made.bits made.outcome) };

    fn in_flagged_format<T: Flagged>(self) -> Converted {
        load_code::<T>(self.source, self.overflow, self.round, self.byte)
    }
}
