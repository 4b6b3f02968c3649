//! The exports of augmented operations and of payloads of NaNs.

ghost use Rattle.formats_at_run_time.specs.FlaggedKinds.{flagged_kind_coded};
ghost use Rattle.coded_calls.specs.{Answers.whole, Augmented.IsAugmentedCall, Augmented.IsPayloadCall};
ghost use Rattle.coded_calls.specs.Augmented.{augmentation_coded, known_augmentation, known_payload, payload_coded};

use coded_calls::augmented::{reply_augmented, reply_payload};
use coded_calls::data::{Answer, Halves};

/// The augmented sum, difference or product of two values. The rule of flags makes no difference.
#[unsafe(no_mangle)]
pub extern "C" fn apfloat_augmented(
    operation: u32,
    format: u32,
    x: Halves,
    y: Halves,
    tail: &mut Halves,
    answer: &mut Answer,
) -> u32
    ensures { IsAugmentedCall (known_augmentation (flagged_kind_coded format)
        (augmentation_coded operation)) (whole x) (whole y) tail.old tail.new answer.old answer.new
        result }
{
    reply_augmented(operation, format, x, y, tail, answer)
}

/// A payload of a NaN as a value, or the NaN of such a value. No flag is raised.
#[unsafe(no_mangle)]
pub extern "C" fn apfloat_payload(
    operation: u32,
    format: u32,
    x: Halves,
    answer: &mut Answer,
) -> u32
    ensures { IsPayloadCall (known_payload (flagged_kind_coded format) (payload_coded operation))
        (whole x) answer.old answer.new result }
{
    reply_payload(operation, format, x, answer)
}
