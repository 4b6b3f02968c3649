//! Arrays whose values are converted one after another.

ghost use Rattle.std.specs.Prelude.{◌≡◌, ℕ, ◌*◌, List, length};
ghost use Rattle.apfloat_arrays.specs.Blocks.{IsBlock};
ghost use Rattle.apfloat_arrays.specs.declared.counts.Outcome.{Outcome as Result};

use crate::bytes::value_at;
use crate::counts::{Counts, Outcome};
use crate::widths::Widths;

/// What becomes of each value.
pub(crate) trait ValueConversion {
    // Whether it takes values of so many bytes to so many.
    ghost can: { Self → ℕ → ℕ → Type 0 };

    // Whether these bytes become those, with that outcome.
    ghost gives: { Self → List ℕ → List ℕ → Result → Type 0 };

    /// Converts a value.
    fn convert(&self, input: &[u8], output: &mut [u8]) -> Outcome
        requires { can self.now (length input.now) (length output.old) }
        ensures { gives self.now input.now output.new result };
}

/// Converts `count` values, each in its place.
#[inline(always)]
pub(crate) fn convert_each<C: ValueConversion>(
    conversion: &C,
    widths: Widths,
    count: usize,
    input: &[u8],
    output: &mut [u8],
) -> Counts
    requires can { C.can conversion.now widths.source widths.target }
    requires input { length input.now ≡ count * widths.source }
    requires output { length output.old ≡ count * widths.target }
    ensures { IsBlock (C.gives conversion.now) widths.source widths.target count input.now
        output.new result }
{
    let mut counts = Counts::NONE;
    for index in 0..count {
        let source = value_at(input, index, widths.source);
        let to = index * widths.target;
        let target = &mut output[to..to + widths.target];
        counts.count(conversion.convert(source, target));
    }
    counts
}
