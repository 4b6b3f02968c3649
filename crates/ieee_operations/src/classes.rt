//! The general operations on one value that `Float` lacks (IEEE 754-2019 5.7.2).

ghost use Rattle.std.specs.Prelude.{◌≡◌, ◌<◌, ◌↔◌, true, IsTrue, if◌then◌else◌};
ghost use Rattle.apfloat_model.specs.bits.Layout.{IsEncodedBy, datum_of};
ghost use Rattle.apfloat_ieee.specs.FlaggedTypes.{format_of, layout_of};
ghost use Rattle.ieee_operations.specs.Classes.{class_of};

use apfloat_base::{Category, Float};
use apfloat_ieee::{Flagged, IeeeFloat};

/// The class of a value (5.7.2, class).
#[derive(Clone, Copy, PartialEq, Eq, Debug)]
pub enum Class {
    /// A signaling NaN of either sign.
    SignalingNan,
    /// A quiet NaN of either sign.
    QuietNan,
    /// Negative infinity.
    NegativeInfinity,
    /// A negative number of at least the magnitude of the smallest normal one.
    NegativeNormal,
    /// A negative number below the smallest normal one in magnitude.
    NegativeSubnormal,
    /// -0.
    NegativeZero,
    /// +0.
    PositiveZero,
    /// A positive number below the smallest normal one.
    PositiveSubnormal,
    /// A positive number, the smallest normal one or above.
    PositiveNormal,
    /// Positive infinity.
    PositiveInfinity,
}

/// The class of a value (5.7.2, class). No flag is raised, not even for a signaling NaN.
pub fn class_of<S: Flagged>(x: IeeeFloat<S>) -> Class
    ensures { result ≡ class_of (format_of S.Flagged) x }
{
    let negative = x.is_negative();
    match x.category() {
        Category::NaN => if x.is_signaling() {
            Class::SignalingNan
        } else {
            Class::QuietNan
        },
        Category::Infinity => signed(negative, Class::NegativeInfinity, Class::PositiveInfinity),
        Category::Zero => signed(negative, Class::NegativeZero, Class::PositiveZero),
        Category::Normal => {
            if x.is_denormal() {
                signed(negative, Class::NegativeSubnormal, Class::PositiveSubnormal)
            } else {
                signed(negative, Class::NegativeNormal, Class::PositiveNormal)
            }
        }
    }
}

fn signed(negative: bool, below: Class, above: Class) -> Class
    ensures { result ≡ (if negative then below else above) }
{
    if negative { below } else { above }
}

/// The radix of the value's format (5.7.2, radix), which is 2.
pub fn radix<S: Flagged>(_x: IeeeFloat<S>) -> u32
    ensures { result ≡ 2 }
{
    2
}

/// Whether the value is canonical (5.7.2, isCanonical), which every value is: `to_bits` writes the canonical encoding,
/// whatever bits the value was read from. `is_canonical_encoding` is about bits.
pub fn is_canonical<S: Flagged>(_x: IeeeFloat<S>) -> bool
    ensures { result ≡ true }
{
    true
}

/// Whether the bits are the canonical encoding of the value that `from_bits` reads from them, with no bit at or above
/// `BITS` (5.7.2, isCanonical). Only formats with an explicit integer bit have others below 2^BITS: pseudo-denormals,
/// and unnormals, numbers whose integer bit is 0 above the least exponent. At the greatest exponent each pattern with
/// that bit 0, the pseudo-infinity too, is read as a NaN of its own and written as it was, so it counts as canonical.
pub fn is_canonical_encoding<S: Flagged>(bits: u128) -> bool
    requires { S.PRECISION < S.BITS }
    ensures { IsTrue result
        ↔ IsEncodedBy (format_of S.Flagged) (layout_of S.Flagged) bits
        (datum_of (format_of S.Flagged) (layout_of S.Flagged) bits) }
{
    IeeeFloat::<S>::from_bits(bits).to_bits() == bits
}
