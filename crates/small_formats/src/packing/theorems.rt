//! Theorems about the definitions that the calls cite, as contracts of functions with empty bodies.

ghost use Rattle.small_formats.specs.packing.Laws.{ArePackedOnce};

/// Codes are packed into one list of bytes, and no other codes into the same bytes.
pub fn packed_codes_have_one_answer()
    ensures { ArePackedOnce }
{}
