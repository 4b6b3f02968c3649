//! The constants that define a format of IEEE P3109.

ghost use Rattle.std.specs.Prelude.{ℕ, Bool, refl, true, false};
ghost use Rattle.p3109_formats.specs.LawTest.{projection_from_test};
ghost use Rattle.p3109_formats.specs.Projections.{IsProjection, projection_with};

/// A format of IEEE P3109: a width and a precision, with or without a sign, with or without infinities.
///
/// It has one zero and one NaN. The bits of a code are, from the top, the sign if there is one, the biased exponent,
/// and `PRECISION - 1` bits of the significand. Half of the exponents are below 1, so 1 is in the middle of the codes
/// without a sign. A type gives each constant twice, for code and for contracts, and proves that they are consistent
/// (`lawful`); if they are literals, the proof is `projection_from_test _ refl`.
pub trait Projection: Copy {
    /// The width of a code in bits, 3 to 15.
    const BITS: usize;

    /// The number of binary digits in a significand, at least 1, including the implied integer bit. At least one bit is
    /// left for the exponent.
    const PRECISION: usize;

    /// Whether there is a sign. Then the NaN is the code that would be -0; otherwise it is the last code.
    const SIGNED: bool;

    /// Whether there are infinities: the last code, of each sign, that is no NaN.
    const EXTENDED: bool;

    ghost BITS: { ℕ };

    ghost PRECISION: { ℕ };

    ghost SIGNED: { Bool };

    ghost EXTENDED: { Bool };

    // The constants obey the rules above. If they are literals, the proof is `projection_from_test _ refl`, with
    // `projection_from_test` of `p3109_formats.specs.LawTest`.
    ghost lawful: { IsProjection (projection_with BITS PRECISION SIGNED EXTENDED) };
}

/// `binary8p3se`: up to 49152, in steps of at least 2^-17.
#[derive(Clone, Copy)]
pub struct Binary8P3;

impl Projection for Binary8P3 {
    const BITS: usize = 8;

    const PRECISION: usize = 3;

    const SIGNED: bool = true;

    const EXTENDED: bool = true;

    ghost BITS = { 8 };

    ghost PRECISION = { 3 };

    ghost SIGNED = { true };

    ghost EXTENDED = { true };

    ghost lawful = { projection_from_test _ refl };
}

/// `binary8p4se`: up to 224, in steps of at least 2^-10.
#[derive(Clone, Copy)]
pub struct Binary8P4;

impl Projection for Binary8P4 {
    const BITS: usize = 8;

    const PRECISION: usize = 4;

    const SIGNED: bool = true;

    const EXTENDED: bool = true;

    ghost BITS = { 8 };

    ghost PRECISION = { 4 };

    ghost SIGNED = { true };

    ghost EXTENDED = { true };

    ghost lawful = { projection_from_test _ refl };
}

/// `binary8p5se`: up to 15, in steps of at least 2^-7.
#[derive(Clone, Copy)]
pub struct Binary8P5;

impl Projection for Binary8P5 {
    const BITS: usize = 8;

    const PRECISION: usize = 5;

    const SIGNED: bool = true;

    const EXTENDED: bool = true;

    ghost BITS = { 8 };

    ghost PRECISION = { 5 };

    ghost SIGNED = { true };

    ghost EXTENDED = { true };

    ghost lawful = { projection_from_test _ refl };
}

/// `binary8p1uf`: powers of two from 2^-127 to 2^126, zero and a NaN, without a sign.
#[derive(Clone, Copy)]
pub struct Binary8P1UF;

impl Projection for Binary8P1UF {
    const BITS: usize = 8;

    const PRECISION: usize = 1;

    const SIGNED: bool = false;

    const EXTENDED: bool = false;

    ghost BITS = { 8 };

    ghost PRECISION = { 1 };

    ghost SIGNED = { false };

    ghost EXTENDED = { false };

    ghost lawful = { projection_from_test _ refl };
}
