//! Makes a call in the format of a code that has a choice of flags, with its rule of flags on a machine. The arms of a
//! match make it, so that the jump by the code goes to the call itself.

ghost use Rattle.std.specs.Prelude.{◌≡◌, ◌/◌, ◌%◌, option_map, Some};
ghost use Rattle.rustc_apfloat.specs.Lawful.{Constants};
ghost use Rattle.formats_at_run_time.specs.declared.flagged.IeeeFormat.{IeeeFormat};
ghost use Rattle.formats_at_run_time.specs.FlaggedKinds.{after_rounding, before_rounding, format_of_ieee};
ghost use Rattle.formats_at_run_time.specs.{BuiltIns.constants_in, ValueKinds.of_format};
ghost use Rattle.coded_calls.specs.MachineCalls.{IsFilledIn, ieee_format_coded, kind_on, kind_without_rule};
ghost use Rattle.coded_calls.specs.MachineCalls.{machine_format_coded, tiny_before_coded};

use crate::machine_call::CodedMachine;
use formats_at_run_time::FillsInFormat;
use rustc_apfloat::ieee::{
    BFloatS, DoubleS, Float8E5M2S, HalfS, IeeeFlags, QuadS, SingleS, TinyBefore, X87DoubleExtendedS,
};

/// Binary128, tininess detected before rounding.
type QuadBefore = IeeeFlags<TinyBefore<QuadS>>;

/// Binary128, tininess detected after rounding.
type QuadAfter = IeeeFlags<QuadS>;

/// The extended format of the x87, tininess detected before rounding.
type X87Before = IeeeFlags<TinyBefore<X87DoubleExtendedS>>;

/// The extended format of the x87, tininess detected after rounding.
type X87After = IeeeFlags<X87DoubleExtendedS>;

/// Whether a result is tiny by its exact magnitude on a machine, by what is above the lower byte of the code of a
/// format, if that is known.
#[inline(always)]
pub fn tiny_before_coded(machine: CodedMachine, rule: u32) -> Option<bool>
    ensures { result ≡ tiny_before_coded machine rule }
{
    match rule {
        0 => Some(machine.tiny_before_rounding()),
        1 => Some(false),
        3 => Some(true),
        _ => None,
    }
}

/// Makes a call in the format of this code, with its rule of flags on a machine, if the code is known and the format
/// has at most 64 bits.
#[inline(always)]
pub fn fill_short_coded<C: FillsInFormat + Copy>(
    code: u32,
    machine: CodedMachine,
    call: C,
    place: &mut C::Place,
) -> Option<C::Output>
    ensures { IsFilledIn (kind_on machine) (C.gives call) (machine_format_coded code) place.old
        place.new result }
{
    match tiny_before_coded(machine, code / 0x100) {
        None => None,
        Some(true) => fill_short_before_rounding(code % 0x100, call, place),
        Some(false) => fill_short_after_rounding(code % 0x100, call, place),
    }
}

/// The same for a format of more than 64 bits. The whole codes are compared, since operands of such a format leave no
/// registers for their parts.
#[inline(always)]
pub fn fill_wide_coded<C: FillsInFormat + Copy>(
    code: u32,
    machine: CodedMachine,
    call: C,
    place: &mut C::Place,
) -> Option<C::Output>
    ensures { IsFilledIn (kind_on machine) (C.gives call) (machine_format_coded code) place.old
        place.new result }
{
    match code {
        4 if machine.tiny_before_rounding() => Some(call.fill_in_format::<QuadBefore>(place)),
        4 => Some(call.fill_in_format::<QuadAfter>(place)),
        9 if machine.tiny_before_rounding() => Some(call.fill_in_format::<X87Before>(place)),
        9 => Some(call.fill_in_format::<X87After>(place)),
        260 => Some(call.fill_in_format::<QuadAfter>(place)),
        265 => Some(call.fill_in_format::<X87After>(place)),
        772 => Some(call.fill_in_format::<QuadBefore>(place)),
        777 => Some(call.fill_in_format::<X87Before>(place)),
        _ => None,
    }
}

/// Makes a call in the format of this code without its rule of flags, if the code is known.
#[inline(always)]
pub fn fill_coded_without_rule<C: FillsInFormat + Copy>(
    code: u32,
    call: C,
    place: &mut C::Place,
) -> Option<C::Output>
    ensures { IsFilledIn kind_without_rule (C.gives call) (machine_format_coded code) place.old
        place.new result }
{
    match code / 0x100 {
        0 | 1 | 3 => fill_without_rule(code % 0x100, call, place),
        _ => None,
    }
}

/// Makes a call in the format of this byte, if it has at most 64 bits, tininess detected before rounding.
#[inline(always)]
fn fill_short_before_rounding<C: FillsInFormat + Copy>(
    byte: u32,
    call: C,
    place: &mut C::Place,
) -> Option<C::Output>
    ensures { IsFilledIn (λ format. of_format (before_rounding format)) (C.gives call)
        (ieee_format_coded byte) place.old place.new result }
{
    match byte {
        1 => Some(call.fill_in_format::<IeeeFlags<TinyBefore<HalfS>>>(place)),
        2 => Some(call.fill_in_format::<IeeeFlags<TinyBefore<SingleS>>>(place)),
        3 => Some(call.fill_in_format::<IeeeFlags<TinyBefore<DoubleS>>>(place)),
        5 => Some(call.fill_in_format::<IeeeFlags<TinyBefore<BFloatS>>>(place)),
        6 => Some(call.fill_in_format::<IeeeFlags<TinyBefore<Float8E5M2S>>>(place)),
        _ => None,
    }
}

/// Makes a call in the format of this byte, if it has at most 64 bits, tininess detected after rounding.
#[inline(always)]
fn fill_short_after_rounding<C: FillsInFormat + Copy>(
    byte: u32,
    call: C,
    place: &mut C::Place,
) -> Option<C::Output>
    ensures { IsFilledIn (λ format. of_format (after_rounding format)) (C.gives call)
        (ieee_format_coded byte) place.old place.new result }
{
    match byte {
        1 => Some(call.fill_in_format::<IeeeFlags<HalfS>>(place)),
        2 => Some(call.fill_in_format::<IeeeFlags<SingleS>>(place)),
        3 => Some(call.fill_in_format::<IeeeFlags<DoubleS>>(place)),
        5 => Some(call.fill_in_format::<IeeeFlags<BFloatS>>(place)),
        6 => Some(call.fill_in_format::<IeeeFlags<Float8E5M2S>>(place)),
        _ => None,
    }
}

/// Makes a call in the format of this byte, without a rule of flags.
#[inline(always)]
fn fill_without_rule<C: FillsInFormat + Copy>(
    byte: u32,
    call: C,
    place: &mut C::Place,
) -> Option<C::Output>
    ensures { IsFilledIn (λ format. of_format (constants_in (format_of_ieee format)))
        (C.gives call) (ieee_format_coded byte) place.old place.new result }
{
    match byte {
        1 => Some(call.fill_in_format::<HalfS>(place)),
        2 => Some(call.fill_in_format::<SingleS>(place)),
        3 => Some(call.fill_in_format::<DoubleS>(place)),
        4 => Some(call.fill_in_format::<QuadS>(place)),
        5 => Some(call.fill_in_format::<BFloatS>(place)),
        6 => Some(call.fill_in_format::<Float8E5M2S>(place)),
        9 => Some(call.fill_in_format::<X87DoubleExtendedS>(place)),
        _ => None,
    }
}
