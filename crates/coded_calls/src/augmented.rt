//! Augmented operations, whose two results are together the exact one, and payloads of NaNs.

ghost use Rattle.std.specs.Prelude.{◌≡◌, ◌<◌};
ghost use Rattle.formats_at_run_time.specs.{FlaggedKinds.flagged_kind_coded, FormatKinds.IfFormat};
ghost use Rattle.rustc_apfloat.specs.Types.{constants_of};
ghost use Rattle.coded_calls.specs.Answers.{whole};
ghost use Rattle.coded_calls.specs.Augmented.{AreParts, IsAugmentedCall, IsPayloadCall, IsPayloadIn};
ghost use Rattle.coded_calls.specs.Augmented.{augmentation_coded, known_augmentation, known_payload, payload_coded};

use crate::codes::{ANSWERED, NO_SUCH_OPERATION, UNKNOWN_FORMAT};
use crate::data::{Answer, Halves};
use formats_at_run_time::{FlaggedKind, InFormat};
use ieee_operations::augmented::{
    augmented_add, augmented_multiply, augmented_subtract, get_payload, set_payload,
    set_payload_signaling,
};
use rustc_apfloat::ieee::{IeeeFloat, Semantics};
use rustc_apfloat::{Float, Status};

/// The augmented operations (IEEE 754-2019 9.5).
#[derive(Clone, Copy)]
pub enum Augmentation {
    /// The sum.
    Sum,
    /// The difference.
    Difference,
    /// The product.
    Product,
}

/// The operations on payloads of NaNs (IEEE 754-2019 9.7).
#[derive(Clone, Copy)]
pub enum PayloadCall {
    /// The payload as an integral value; -1 of a value that is no NaN.
    Get,
    /// The quiet NaN with a payload.
    Set,
    /// The signaling NaN with a payload.
    SetSignaling,
}

/// The bits of both results of an augmented operation.
#[derive(Clone, Copy)]
pub struct Parts {
    /// The exact result, rounded to nearest, ties toward zero.
    pub head: u128,
    /// What the head leaves.
    pub tail: u128,
    /// The flags that were raised.
    pub status: Status,
}

/// The augmented sum, difference or product of two values. The rule of flags makes no difference.
pub fn reply_augmented(
    operation: u32,
    format: u32,
    x: Halves,
    y: Halves,
    tail: &mut Halves,
    answer: &mut Answer,
) -> u32
    ensures { IsAugmentedCall (known_augmentation (flagged_kind_coded format)
        (augmentation_coded operation)) (whole x) (whole y) tail.old tail.new answer.old answer.new
        result }
{
    let Some(kind) = FlaggedKind::coded(format) else {
        return UNKNOWN_FORMAT;
    };
    let FlaggedKind::OfFormat(format) = kind else {
        return NO_SUCH_OPERATION;
    };
    let Some(operation) = augmentation_coded(operation) else {
        return NO_SUCH_OPERATION;
    };
    let (x, y) = (x.number(), y.number());
    let parts = format.built_in().run(AugmentedCall { operation, x, y });
    *tail = Halves::of(parts.tail);
    *answer = Answer::of(parts.head, parts.status, 0);
    ANSWERED
}

/// A payload of a NaN as a value, or the NaN of such a value. No flag is raised.
pub fn reply_payload(operation: u32, format: u32, x: Halves, answer: &mut Answer) -> u32
    ensures { IsPayloadCall (known_payload (flagged_kind_coded format) (payload_coded operation))
        (whole x) answer.old answer.new result }
{
    let Some(kind) = FlaggedKind::coded(format) else {
        return UNKNOWN_FORMAT;
    };
    let FlaggedKind::OfFormat(format) = kind else {
        return NO_SUCH_OPERATION;
    };
    let Some(operation) = payload_coded(operation) else {
        return NO_SUCH_OPERATION;
    };
    let bits = x.number();
    *answer = Answer::of(
        format.built_in().run(OfPayload { operation, bits }),
        Status::OK,
        0,
    );
    ANSWERED
}

/// The augmented operation with this code, that of its operation on arrays.
fn augmentation_coded(code: u32) -> Option<Augmentation>
    ensures { result ≡ augmentation_coded code }
{
    match code {
        1 => Some(Augmentation::Sum),
        2 => Some(Augmentation::Difference),
        3 => Some(Augmentation::Product),
        _ => None,
    }
}

/// The operation on payloads with this code.
fn payload_coded(code: u32) -> Option<PayloadCall>
    ensures { result ≡ payload_coded code }
{
    match code {
        0 => Some(PayloadCall::Get),
        1 => Some(PayloadCall::Set),
        2 => Some(PayloadCall::SetSignaling),
        _ => None,
    }
}

/// An augmented operation on two values.
#[derive(Clone, Copy)]
struct AugmentedCall {
    operation: Augmentation,
    x: u128,
    y: u128,
}

impl InFormat for AugmentedCall {
    type Output = Parts;

    ghost gives = { λ it kind parts. IfFormat kind (λ c. AreParts c it.operation it.x it.y parts) };

    fn in_format<S: Semantics>(self) -> Parts {
        parts_in::<S>(self.operation, self.x, self.y)
    }
}

/// The results of an augmented operation in a format.
fn parts_in<S: Semantics>(operation: Augmentation, x: u128, y: u128) -> Parts
    requires { S.PRECISION < S.BITS }
    ensures { AreParts (constants_of S.Semantics) operation x y result }
{
    let x = IeeeFloat::<S>::from_bits(x);
    let y = IeeeFloat::<S>::from_bits(y);
    let answer = match operation {
        Augmentation::Sum => augmented_add(x, y),
        Augmentation::Difference => augmented_subtract(x, y),
        Augmentation::Product => augmented_multiply(x, y),
    };
    Parts {
        head: answer.value.head.to_bits(),
        tail: answer.value.tail.to_bits(),
        status: answer.status,
    }
}

/// An operation on payloads.
#[derive(Clone, Copy)]
struct OfPayload {
    operation: PayloadCall,
    bits: u128,
}

impl InFormat for OfPayload {
    type Output = u128;

    ghost gives = { λ it kind bits. IfFormat kind (λ c. IsPayloadIn c it.operation it.bits bits) };

    fn in_format<S: Semantics>(self) -> u128 {
        let x = IeeeFloat::<S>::from_bits(self.bits);
        match self.operation {
            PayloadCall::Get => get_payload(x).to_bits(),
            PayloadCall::Set => set_payload(x).to_bits(),
            PayloadCall::SetSignaling => set_payload_signaling(x).to_bits(),
        }
    }
}
