//! Plans by which singles are converted in blocks.

ghost use Rattle.std.specs.Prelude.{◌≡◌, ℕ, ℤ, ◌*◌, ◌%◌, ◌^◌, ◌<◌, List, length, false, IsTrue};
ghost use Rattle.apfloat_model.specs.bits.Layout.{Layout};
ghost use Rattle.fast_bits.specs.lanes.Targets.{IsSingleFormat, IsTarget};
ghost use Rattle.rustc_apfloat.specs.declared.Round.{Round as Mode};
ghost use Rattle.rustc_apfloat.specs.Lawful.{Constants, format_with, layout_with};
ghost use Rattle.rustc_apfloat.specs.FlaggedTypes.{constants_of, format_of, layout_of};
ghost use Rattle.small_formats.specs.declared.saturation.saturation.Overflow.{Overflow};
ghost use Rattle.apfloat_arrays.specs.{Blocks.value_at, Rows.AreFiniteHalves, Rows.AreTaken, Rows.number_from};
ghost use Rattle.apfloat_arrays.specs.{Singles.outcome_of, Singles.saturates, Values.IsAnswerAt};

use fast_bits::lanes::Lane;
use rustc_apfloat::Round;
use rustc_apfloat::ieee::Flagged;

/// A plan by which singles are converted.
pub trait SinglesPlan: Copy {
    // To which formats with `IsTarget` there is such a plan: by the layout, the digits and the least exponent.
    ghost can: { Layout → ℕ → ℤ → Type 0 };

    // Whether it is the plan of conversions to that format, in that mode.
    ghost is_for: { Self → Overflow → Constants → Mode → Type 0 };

    // How many bits its results have.
    ghost bits: { Self → ℕ };

    // Whether what is past the largest value is what becomes of such numbers.
    ghost leads: { Self → Type 0 };

    // Whether it takes these two halves of a word.
    ghost takes: { ℕ → ℕ → ℕ → Type 0 };

    /// The plan of conversions to `T`.
    fn plan_to<T: Flagged>(saturating: bool, round: Round) -> Self
        requires target { IsTarget (format_of T.Flagged) (layout_of T.Flagged) T.MIN_EXP T.MAX_EXP }
        requires can { can (layout_of T.Flagged) T.PRECISION T.MIN_EXP }
        ensures { (overflow : Overflow) → saturating ≡ saturates overflow
            → is_for result overflow (constants_of T.Flagged) round };

    /// Whether infinities and NaNs can take the same steps as numbers.
    fn leads_past(self) -> bool
        ensures { IsTrue result → leads self };

    /// Converts a single, given the halves of its word that the plan takes. With `specials` it may be an infinity or a
    /// NaN.
    fn convert(self, specials: bool, upper: u16, lower: u16) -> Lane
        requires number { specials ≡ false → upper % 2 ^ 15 < 255 * 2 ^ 7 }
        requires past { IsTrue specials → leads self }
        ensures below { result.bits < 2 ^ bits self }
        ensures converted { (overflow : Overflow) (c d : Constants) (mode : Mode) (word : ℕ)
            → IsSingleFormat (format_with c) (layout_with c) → is_for self overflow d mode
            → takes upper lower word
            → IsAnswerAt overflow c d mode word result.bits (outcome_of result) };

    // Its results have as many bits as those of the format.
    ghost fits: { (plan : Self) (overflow : Overflow) (d : Constants) (mode : Mode)
        → is_for plan overflow d mode → bits plan ≡ d.bits };
}

/// A plan by which blocks of `N` singles are converted.
pub trait BlockPlan<const N: usize>: SinglesPlan {
    /// Reads the halves that the plan takes of the words of a block.
    fn read_halves(bytes: &[u8], uppers: &mut [u16; N], lowers: &mut [u16; N])
        requires { length bytes.now ≡ N * 4 }
        ensures { AreTaken Self.takes N uppers.new lowers.new
            (λ index. value_at 4 index bytes.now) };

    /// Puts zeros in place of infinities and NaNs. Returns whether there are none, as in most blocks.
    fn leave_numbers(uppers: &mut [u16; N], lowers: &mut [u16; N]) -> bool
        ensures finite { AreFiniteHalves N uppers.new }
        ensures kept { (input : List ℕ)
            → AreTaken Self.takes N uppers.old lowers.old (λ index. value_at 4 index input)
            → AreTaken Self.takes N uppers.new lowers.new (number_from 0 input) }
        ensures all { IsTrue result → (input : List ℕ)
            → AreTaken Self.takes N uppers.old lowers.old (λ index. value_at 4 index input)
            → (index : ℕ) → index < N → number_from 0 input index ≡ value_at 4 index input };
}
