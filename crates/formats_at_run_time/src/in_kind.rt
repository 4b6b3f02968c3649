//! Calls at the type of a kind of values.

ghost use Rattle.std.specs.Prelude.{⊤, ℕ, ◌<◌, List};
ghost use Rattle.rustc_apfloat.specs.Types.{constants_of};
ghost use Rattle.formats_at_run_time.specs.ValueKinds.{Kind, of_format, of_pairs};

use rustc_apfloat::ieee::Semantics;

/// A call that can be made in every format with bits.
pub trait InFormat {
    /// What the call returns.
    type Output;

    // For which kinds of values the call may be made; by default for all.
    ghost can: { Self → Kind → Type 0 } = { λ _ _. ⊤ };

    // What the call returns for a kind of values; by default anything.
    ghost gives: { Self → Kind → Self.Output → Type 0 } = { λ _ _ _. ⊤ };

    /// Makes the call in the format `S`.
    fn in_format<S: Semantics>(self) -> Self::Output
        requires written { S.PRECISION < S.BITS }
        requires can { can self (of_format (constants_of S.Semantics)) }
        ensures { gives self (of_format (constants_of S.Semantics)) result };
}

/// A call that can be made for every kind of values.
pub trait InKind: InFormat {
    /// Makes the call for pairs of doubles.
    fn in_pairs(self) -> Self::Output
        requires { Self.can self of_pairs }
        ensures { Self.gives self of_pairs result };
}

/// A call that can be made in every format with bits, for values that it reads, and writes to bytes lent to it.
pub trait ReadsInFormat {
    /// What the call returns.
    type Output;

    // For which kinds of values, and on which bytes, the call may be made; by default for all, on any.
    ghost can: { Self → Kind → List ℕ → Type 0 } = { λ _ _ _. ⊤ };

    // What the call returns for a kind of values, and what becomes of the bytes; by default anything.
    ghost gives: { Self → Kind → List ℕ → List ℕ → Self.Output → Type 0 } = { λ _ _ _ _ _. ⊤ };

    /// Makes the call in the format `S`.
    fn read_in_format<S: Semantics>(self, bytes: &mut [u8]) -> Self::Output
        requires read { S.PRECISION < S.BITS }
        requires can { can self (of_format (constants_of S.Semantics)) bytes.old }
        ensures { gives self (of_format (constants_of S.Semantics)) bytes.old bytes.new result };
}
