//! The built-in binary floating-point formats, together with the functions on values of any format.
//!
//! A format is a type that implements `Semantics`; `IeeeFloat<S>` is a value of the format `S`, and
//! `IeeeFloat<IeeeFlags<S>>` one whose operations raise the flags of IEEE 754-2019.

mod formats;

pub use crate::{Flagged, IeeeFlags, IeeeFloat, NonfiniteBehavior, Semantics, TinyBefore, deliver};
pub use apfloat_model::Loss;
pub use formats::{
    BFloat, BFloatS, Double, DoubleS, Float8E4M3, Float8E4M3B11FNUZ, Float8E4M3B11FNUZS,
    Float8E4M3FN, Float8E4M3FNS, Float8E4M3FNUZ, Float8E4M3FNUZS, Float8E4M3S, Float8E5M2,
    Float8E5M2FNUZ, Float8E5M2FNUZS, Float8E5M2S, FloatTF32, FloatTF32S, Half, HalfS, Quad, QuadS,
    Single, SingleS, X87DoubleExtended, X87DoubleExtendedS,
};
