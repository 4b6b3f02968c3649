//! Theorems about the definitions that the calls cite, as contracts of functions with empty bodies.

ghost use Rattle.apfloat_model.specs.formats.Format.{Format};
ghost use Rattle.apfloat_arithmetic.specs.other_formats.RaisedFlags.{FormatOfFlagsGoTogether};
ghost use Rattle.apfloat_arithmetic.specs.other_formats.Theorems.{HasOneSum, HasOneDifference, HasOneProduct};
ghost use Rattle.apfloat_arithmetic.specs.other_formats.Theorems.{HasOneQuotient, HasOneFusedSum, HasOneRoot};

/// Each operation has at most one value and one status, for all formats, modes and operands.
pub fn operations_have_one_answer()
    ensures sum { HasOneSum }
    ensures difference { HasOneDifference }
    ensures product { HasOneProduct }
    ensures quotient { HasOneQuotient }
    ensures fused_sum { HasOneFusedSum }
    ensures root { HasOneRoot }
{}

/// Each operation raises OVERFLOW and UNDERFLOW only together with INEXACT.
pub fn flags_go_together()
    ensures { (g : Format) → FormatOfFlagsGoTogether g }
{}
