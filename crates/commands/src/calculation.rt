//! Computes the operation of a command for a kind of values.

ghost use Rattle.std.specs.Prelude.{◌≡◌, ◌≤◌, ◌<◌};
ghost use Rattle.rustc_apfloat.specs.Types.{constants_of};
ghost use Rattle.formats_at_run_time.specs.Relations.{in_format, relations_of};
ghost use Rattle.commands.specs.Commands.{calculation, commanded, provided, type_has, with_operands, with_text};
ghost use Rattle.commands.specs.{Commands.with_three, Commands.with_two, Commands.with_whole_number, Operands.words_of};
ghost use Rattle.commands.specs.Replies.{IsFormatReply, IsLineOf, IsOnly, IsReplyIn, IsReplyTo, digit_count, reply_of};

use crate::operation::Operation;
use crate::reply::Reply;
use crate::words::{bits_of, number_of};
use formats_at_run_time::{Arithmetic, InFormat, InKind, ValueType};
use rustc_apfloat::ieee::{IeeeFloat, Semantics};
use rustc_apfloat::ppc::DoubleDouble;
use rustc_apfloat::{FUSED_LIMIT, Float, Round, StatusAnd};

/// An operation on its operands.
#[derive(Clone, Copy)]
pub struct Calculation<'a> {
    /// The operation.
    pub operation: Operation,
    /// The word of the operation.
    pub name: &'a str,
    /// The rounding mode.
    pub round: Round,
    /// The words of the operands; those that the operation does not take are empty.
    pub operands: Operands<'a>,
}

/// The words of up to three operands; missing ones are empty.
#[derive(Clone, Copy)]
pub struct Operands<'a> {
    /// The first one.
    pub first: &'a str,
    /// The second one.
    pub second: &'a str,
    /// The third one.
    pub third: &'a str,
}

impl<'a> InFormat for Calculation<'a> {
    type Output = Reply<'a>;

    ghost gives = { λ it kind reply. IsOnly
        (IsReplyTo (commanded kind it.round
        (calculation kind it.operation it.name.now (words_of it.operands))))
        (reply_of reply) × (digit_count (reply_of reply) ≤ 32) };

    fn in_format<S: Semantics>(self) -> Reply<'a> {
        match self.operation {
            Operation::FusedSum if S::PRECISION <= FUSED_LIMIT => fused_sum::<S>(
                self.round,
                self.operands.first,
                self.operands.second,
                self.operands.third,
            ),
            _ => in_type::<IeeeFloat<S>>(self),
        }
    }
}

impl<'a> InKind for Calculation<'a> {
    fn in_pairs(self) -> Reply<'a> {
        in_type::<DoubleDouble>(self)
    }
}

/// The reply for a type of values without fused sums.
fn in_type<'a, F: ValueType>(it: Calculation<'a>) -> Reply<'a>
    requires written { F.PRECISION < F.BITS }
    requires narrow { F.BITS ≤ 128 }
    ensures reply { let words = words_of it.entry.operands in
        let wanted = provided (type_has F.MULTIPLIES it.entry.operation) it.entry.name.now
        (with_operands F.BITS it.entry.operation words) in IsOnly
        (IsReplyIn (relations_of F.Float.own F.partial_cmp F.takes_root) F.BITS
        it.entry.round wanted)
        (reply_of result) }
    ensures short { digit_count (reply_of result) ≤ 32 }
{
    let Operands { first, second, .. } = it.operands;
    match it.operation {
        Operation::OfTwo(arithmetic) => {
            if arithmetic.is_supported::<F>() {
                of_two::<F>(arithmetic, it.round, first, second)
            } else {
                Reply::Refused(it.name)
            }
        }
        Operation::FusedSum => Reply::Refused(it.name),
        Operation::WholeNumber => from_whole_number::<F>(it.round, first),
        Operation::Text => from_text::<F>(it.round, first),
    }
}

/// An operation on two values.
fn of_two<'a, F: ValueType>(
    operation: Arithmetic,
    round: Round,
    left: &'a str,
    right: &'a str,
) -> Reply<'a>
    requires written { F.PRECISION < F.BITS }
    requires narrow { F.BITS ≤ 128 }
    ensures reply { let wanted = with_two F.BITS operation left.now right.now in IsOnly
        (IsReplyIn (relations_of F.Float.own F.partial_cmp F.takes_root) F.BITS round wanted)
        (reply_of result) }
    ensures short { digit_count (reply_of result) ≤ 32 }
{
    let Some(x) = bits_of(left, F::BITS) else {
        return Reply::Refused(left);
    };
    let Some(y) = bits_of(right, F::BITS) else {
        return Reply::Refused(right);
    };
    line(operation.answer(F::from_bits(x), F::from_bits(y), round))
}

/// A product plus a third value, rounded once.
fn fused_sum<'a, S: Semantics>(
    round: Round,
    left: &'a str,
    right: &'a str,
    addend: &'a str,
) -> Reply<'a>
    requires written { S.PRECISION < S.BITS }
    requires supported { S.PRECISION ≤ FUSED_LIMIT }
    ensures reply { let c = constants_of S.Semantics in
        let wanted = with_three c.bits left.now right.now addend.now in IsOnly
        (IsFormatReply c round wanted)
        (reply_of result) }
    ensures short { digit_count (reply_of result) ≤ 32 }
{
    let Some(x) = bits_of(left, S::BITS) else {
        return Reply::Refused(left);
    };
    let Some(y) = bits_of(right, S::BITS) else {
        return Reply::Refused(right);
    };
    let Some(z) = bits_of(addend, S::BITS) else {
        return Reply::Refused(addend);
    };
    line(S::from_bits(x).mul_add_r(S::from_bits(y), S::from_bits(z), round))
}

/// The value of an integer, rounded to the type.
fn from_whole_number<'a, F: ValueType>(round: Round, word: &'a str) -> Reply<'a>
    requires written { F.PRECISION < F.BITS }
    requires narrow { F.BITS ≤ 128 }
    ensures reply { IsOnly
        (IsReplyIn (relations_of F.Float.own F.partial_cmp F.takes_root) F.BITS round
        (with_whole_number word.now))
        (reply_of result) }
    ensures short { digit_count (reply_of result) ≤ 32 }
{
    let Some(number) = number_of(word) else {
        return Reply::Refused(word);
    };
    line(F::from_u128_r(number, round))
}

/// The value that a text spells.
fn from_text<'a, F: ValueType>(round: Round, text: &'a str) -> Reply<'a>
    requires written { F.PRECISION < F.BITS }
    requires narrow { F.BITS ≤ 128 }
    ensures reply { IsOnly
        (IsReplyIn (relations_of F.Float.own F.partial_cmp F.takes_root) F.BITS round
        (with_text text.now))
        (reply_of result) }
    ensures short { digit_count (reply_of result) ≤ 32 }
{
    match F::from_str_r(text, round) {
        Ok(answer) => line(answer),
        Err(error) => Reply::Refused(error.0),
    }
}

/// The bits and the flags of a result.
fn line<'a, F: ValueType>(answer: StatusAnd<F>) -> Reply<'a>
    requires written { F.PRECISION < F.BITS }
    requires narrow { F.BITS ≤ 128 }
    ensures line { IsOnly
        (IsLineOf (relations_of F.Float.own F.partial_cmp F.takes_root) F.BITS answer)
        (reply_of result) }
    ensures short { digit_count (reply_of result) ≤ 32 }
{
    Reply::Line(answer.value.to_bits(), F::BITS / 4, answer.status)
}
