//! What a format is, by its code.

ghost use Rattle.std.specs.Prelude.{◌≡◌};
ghost use Rattle.formats_at_run_time.specs.FlaggedKinds.{flagged_kind_coded};
ghost use Rattle.coded_calls.specs.KnownCalls.{text_format};
ghost use Rattle.apfloat_c.specs.Facts.{AreFactsWritten};

use apfloat_arrays::{Extended, width};
use coded_calls::codes::{ANSWERED, NO_SUCH_OPERATION, UNKNOWN_FORMAT};
use coded_calls::facts::{Facts, FactsCall};
use formats_at_run_time::FlaggedKind;

/// What a format is; its rule of flags makes no difference. Pairs of doubles are none.
#[unsafe(no_mangle)]
pub extern "C" fn apfloat_format_facts(format: u32, facts: &mut Facts) -> u32
    ensures { AreFactsWritten (text_format (flagged_kind_coded format)) facts.old facts.new result }
{
    match FlaggedKind::coded(format) {
        None => UNKNOWN_FORMAT,
        Some(FlaggedKind::Pairs) => NO_SUCH_OPERATION,
        Some(FlaggedKind::OfFormat(format)) => {
            let format = format.built_in();
            let bytes = width(format, Extended::Packed) as u32;
            *facts = format.run(FactsCall { bytes });
            ANSWERED
        }
    }
}
