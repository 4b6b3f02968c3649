//! The calls that raise no flag, by which their contracts name them.

/// A call that rounds nothing and raises no flag; values are given by their bits.
#[derive(Clone, Copy)]
pub enum FlaglessCall {
    /// The value with the opposite sign.
    Negation(u128),
    /// The value without its sign.
    AbsoluteValue(u128),
    /// The first value with the sign of the second.
    SignCopy(u128, u128),
    /// The lesser of two values; if one is a NaN, the other.
    LesserNumber(u128, u128),
    /// The greater of two values; if one is a NaN, the other.
    GreaterNumber(u128, u128),
    /// The lesser of two values; if one is a NaN, that NaN.
    Minimum(u128, u128),
    /// The greater of two values; if one is a NaN, that NaN.
    Maximum(u128, u128),
    /// The quiet NaN with this payload, negative if asked.
    QuietNan(bool, u128),
    /// The signaling NaN with this payload, negative if asked.
    SignalingNan(bool, u128),
    /// Whether the value has a minus sign.
    SignTest(u128),
}
