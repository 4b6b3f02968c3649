//! Theorems about the definitions that the calls cite, as contracts of functions with empty bodies.

ghost use Rattle.apfloat_model.specs.{formats.Format.Format, formats.Datum.Datum, declared.status.StatusAnd.StatusAnd};
ghost use Rattle.apfloat_machines.specs.declared.{flushing.Flush.Flush, machine.Machine.Machine};
ghost use Rattle.apfloat_machines.specs.FlushedMachines.{FlushedMachinesHaveOneAnswer, IsFlushedAndSettledFused};
ghost use Rattle.apfloat_machines.specs.{FlushedOperations.FlushedHaveOneAnswer, Operations.IsSettledFused};
ghost use Rattle.apfloat_machines.specs.RaisedFlags.{MachineFlagsGoTogether, FlushedFlagsGoTogether};
ghost use Rattle.apfloat_machines.specs.Theorems.{HaveOneAnswer, FusedSumsHaveOneAnswer, ConversionsHaveOneAnswer};
ghost use Rattle.apfloat_machines.specs.Theorems.{WholeNumbersHaveOneAnswer};
ghost use Rattle.apfloat_machines.specs.Wrapping.{MovedAreExact, WrappedHaveOneAnswer};

/// A sum, a difference, a product, a quotient, a remainder, a root and a rounding to an integral value of a machine
/// have one value and one status.
pub fn operations_have_one_answer()
    ensures { (f : Format) → (machine : Machine) → HaveOneAnswer f machine }
{}

/// A fused sum of a machine has one value and one status.
pub fn fused_sums_have_one_answer()
    ensures { FusedSumsHaveOneAnswer }
{}

/// A conversion of a machine has one value and one status.
pub fn conversions_have_one_answer()
    ensures { ConversionsHaveOneAnswer }
{}

/// A conversion of a machine to an integer has one integer and one status.
pub fn whole_numbers_have_one_answer()
    ensures { WholeNumbersHaveOneAnswer }
{}

/// A sum, a difference, a product, a quotient, a fused sum and a conversion of a machine that flushes tiny results have
/// one value and one status.
pub fn flushed_operations_have_one_answer()
    ensures { (f : Format) → (flush : Flush) → FlushedHaveOneAnswer f flush }
{}

/// What `settled_fused` makes of a fused sum that `flushed` has made is that of the machine with flushing.
pub fn flushed_fused_sums_are_settled()
    ensures { (f : Format) (machine : Machine) (x y z : Datum) (answer result : StatusAnd Datum)
        → IsSettledFused f machine x y z answer result
        → IsFlushedAndSettledFused f machine x y z answer result }
{}

/// The same operations with the machine's NaNs have one value and one status.
pub fn flushed_machine_operations_have_one_answer()
    ensures { (f : Format) (machine : Machine) (flush : Flush)
        → FlushedMachinesHaveOneAnswer f machine flush }
{}

/// Each operation of a machine raises OVERFLOW and UNDERFLOW only together with INEXACT, and so does each one that
/// flushes tiny results with the flags of `Flush::X86`. `Flush::Arm` raises UNDERFLOW alone.
pub fn flags_go_together()
    ensures plain { (f : Format) (machine : Machine) → MachineFlagsGoTogether f machine }
    ensures flushed { (f : Format) (machine : Machine) → FlushedFlagsGoTogether f machine }
{}

/// `wrapped` has one value and one status. A number that both formats have when it is divided or multiplied by the
/// power of two is delivered exactly.
pub fn wrapped_answers_are_exact()
    ensures once { WrappedHaveOneAnswer }
    ensures exact { MovedAreExact }
{}
