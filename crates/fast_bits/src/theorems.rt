//! Theorems about the definitions that the calls cite, as contracts of functions with empty bodies.

ghost use Rattle.fast_bits.specs.Once.{AreEncodedOnce};

/// A sum, a difference, a product, a root and an integral value from bits to bits have one answer each: the same bits,
/// with the same flags.
pub fn encoded_answers_are_unique()
    ensures { AreEncodedOnce }
{}
