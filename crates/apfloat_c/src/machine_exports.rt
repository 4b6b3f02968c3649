//! The exports of what machines deliver.

ghost use Rattle.formats_at_run_time.specs.{FlaggedKinds.flagged_kind_coded, Modes.mode_coded};
ghost use Rattle.coded_calls.specs.Answers.{whole};
ghost use Rattle.coded_calls.specs.Instructions.{IsInstructionReply, known_instruction, operands_of, rounding_coded};
ghost use Rattle.coded_calls.specs.MachineCalls.{IsMachineReply, known_machine_call, machine_call, machine_coded};

use coded_calls::data::{Answer, Halves};
use coded_calls::instructions::instructed;
use coded_calls::machine_operations::on_machine;

/// What a machine delivers for an operation on values of a format, NaNs and flags included (`docs/MACHINES.md`). `to`
/// is the format of a conversion, the width of an integer, or the rule of a minimum or a maximum.
#[unsafe(no_mangle)]
pub extern "C" fn apfloat_machine(
    machine: u32,
    operation: u32,
    format: u32,
    mode: u32,
    to: u32,
    x: Halves,
    y: Halves,
    z: Halves,
    answer: &mut Answer,
) -> u32
    ensures { let call = machine_call operation to (whole x) (whole y) (whole z) in
        IsMachineReply (known_machine_call (flagged_kind_coded format) (mode_coded mode) call
        (machine_coded machine)) answer.old answer.new result }
{
    on_machine(machine, operation, format, mode, to, x, y, z, answer)
}

/// The same for an interpreter of instructions: rounded in a mode or to odd, with what a control word asks for.
#[unsafe(no_mangle)]
pub extern "C" fn apfloat_instruction(
    machine: u32,
    operation: u32,
    format: u32,
    mode: u32,
    control: u32,
    to: u32,
    x: Halves,
    y: Halves,
    z: Halves,
    answer: &mut Answer,
) -> u32
    ensures { let known = known_instruction (flagged_kind_coded format) (rounding_coded mode)
        (machine_coded machine) control in
        let of = operands_of operation (whole x) (whole y) (whole z) in
        IsInstructionReply known operation to of answer.old answer.new result }
{
    instructed(
        machine, operation, format, mode, control, to, x, y, z, answer,
    )
}
