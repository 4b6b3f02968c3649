//! The built-in formats, and the functions on values of any format.
//!
//! The names are listed: exporting a whole crate under another name has the prover check each constant and method of
//! its types once more.

pub use apfloat_ieee::built_in_formats::{
    BFloat, BFloatS, Double, DoubleS, Flagged, Float8E4M3, Float8E4M3B11FNUZ, Float8E4M3B11FNUZS,
    Float8E4M3FN, Float8E4M3FNS, Float8E4M3FNUZ, Float8E4M3FNUZS, Float8E4M3S, Float8E5M2,
    Float8E5M2FNUZ, Float8E5M2FNUZS, Float8E5M2S, FloatTF32, FloatTF32S, Half, HalfS, IeeeFlags,
    IeeeFloat, Loss, NonfiniteBehavior, Quad, QuadS, Semantics, Single, SingleS, TinyBefore,
    X87DoubleExtended, X87DoubleExtendedS, deliver,
};
