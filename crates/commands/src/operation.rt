//! The operations of commands.

ghost use Rattle.std.specs.Prelude.{◌≡◌};
ghost use Rattle.commands.specs.Commands.{operand_count};

use formats_at_run_time::Arithmetic;

/// An operation.
#[derive(Clone, Copy)]
pub enum Operation {
    /// An operation on two values.
    OfTwo(Arithmetic),
    /// On three values: the product of the first two plus the third.
    FusedSum,
    /// The value of an integer, rounded to the format.
    WholeNumber,
    /// The value of a text.
    Text,
}

impl Operation {
    /// How many operands the operation takes.
    pub fn operand_count(self) -> usize
        ensures { result ≡ operand_count self }
    {
        match self {
            Operation::OfTwo(_) => 2,
            Operation::FusedSum => 3,
            Operation::WholeNumber => 1,
            Operation::Text => 1,
        }
    }
}
