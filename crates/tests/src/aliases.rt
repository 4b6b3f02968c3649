//! The aliases of the formats: a sum in each, from bits to bits, is that of the format with the constants that the
//! specification gives under its name. So an alias of another format would not be proved.

ghost use Rattle.rustc_apfloat.specs.Formats.{bfloat_constants, double_constants, e4m3_constants};
ghost use Rattle.rustc_apfloat.specs.Formats.{e4m3b11fnuz_constants, e4m3fn_constants, e4m3fnuz_constants};
ghost use Rattle.rustc_apfloat.specs.Formats.{e5m2_constants, e5m2fnuz_constants, half_constants, quad_constants};
ghost use Rattle.rustc_apfloat.specs.Formats.{single_constants, tf32_constants, x87_constants};
ghost use Rattle.tests.specs.Aliases.{IsSumOfBits};

use rustc_apfloat::ieee::{
    BFloat, Double, Float8E4M3, Float8E4M3B11FNUZ, Float8E4M3FN, Float8E4M3FNUZ, Float8E5M2,
    Float8E5M2FNUZ, FloatTF32, Half, Quad, Single, X87DoubleExtended,
};
use rustc_apfloat::{Float, Round, StatusAnd};

/// A sum in `Half`.
pub fn half_sum(x: u128, y: u128, mode: Round) -> StatusAnd<u128>
    ensures { IsSumOfBits half_constants mode x y result }
{
    let sum = Half::from_bits(x).add_r(Half::from_bits(y), mode);
    sum.status.and(sum.value.to_bits())
}

/// A sum in `Single`.
pub fn single_sum(x: u128, y: u128, mode: Round) -> StatusAnd<u128>
    ensures { IsSumOfBits single_constants mode x y result }
{
    let sum = Single::from_bits(x).add_r(Single::from_bits(y), mode);
    sum.status.and(sum.value.to_bits())
}

/// A sum in `Double`.
pub fn double_sum(x: u128, y: u128, mode: Round) -> StatusAnd<u128>
    ensures { IsSumOfBits double_constants mode x y result }
{
    let sum = Double::from_bits(x).add_r(Double::from_bits(y), mode);
    sum.status.and(sum.value.to_bits())
}

/// A sum in `Quad`.
pub fn quad_sum(x: u128, y: u128, mode: Round) -> StatusAnd<u128>
    ensures { IsSumOfBits quad_constants mode x y result }
{
    let sum = Quad::from_bits(x).add_r(Quad::from_bits(y), mode);
    sum.status.and(sum.value.to_bits())
}

/// A sum in `BFloat`.
pub fn bfloat_sum(x: u128, y: u128, mode: Round) -> StatusAnd<u128>
    ensures { IsSumOfBits bfloat_constants mode x y result }
{
    let sum = BFloat::from_bits(x).add_r(BFloat::from_bits(y), mode);
    sum.status.and(sum.value.to_bits())
}

/// A sum in `Float8E5M2`.
pub fn float8_e5m2_sum(x: u128, y: u128, mode: Round) -> StatusAnd<u128>
    ensures { IsSumOfBits e5m2_constants mode x y result }
{
    let sum = Float8E5M2::from_bits(x).add_r(Float8E5M2::from_bits(y), mode);
    sum.status.and(sum.value.to_bits())
}

/// A sum in `Float8E4M3FN`.
pub fn float8_e4m3fn_sum(x: u128, y: u128, mode: Round) -> StatusAnd<u128>
    ensures { IsSumOfBits e4m3fn_constants mode x y result }
{
    let sum = Float8E4M3FN::from_bits(x).add_r(Float8E4M3FN::from_bits(y), mode);
    sum.status.and(sum.value.to_bits())
}

/// A sum in `Float8E4M3FNUZ`.
pub fn float8_e4m3fnuz_sum(x: u128, y: u128, mode: Round) -> StatusAnd<u128>
    ensures { IsSumOfBits e4m3fnuz_constants mode x y result }
{
    let sum = Float8E4M3FNUZ::from_bits(x).add_r(Float8E4M3FNUZ::from_bits(y), mode);
    sum.status.and(sum.value.to_bits())
}

/// A sum in `Float8E4M3`.
pub fn float8_e4m3_sum(x: u128, y: u128, mode: Round) -> StatusAnd<u128>
    ensures { IsSumOfBits e4m3_constants mode x y result }
{
    let sum = Float8E4M3::from_bits(x).add_r(Float8E4M3::from_bits(y), mode);
    sum.status.and(sum.value.to_bits())
}

/// A sum in `Float8E5M2FNUZ`.
pub fn float8_e5m2fnuz_sum(x: u128, y: u128, mode: Round) -> StatusAnd<u128>
    ensures { IsSumOfBits e5m2fnuz_constants mode x y result }
{
    let sum = Float8E5M2FNUZ::from_bits(x).add_r(Float8E5M2FNUZ::from_bits(y), mode);
    sum.status.and(sum.value.to_bits())
}

/// A sum in `Float8E4M3B11FNUZ`.
pub fn float8_e4m3b11fnuz_sum(x: u128, y: u128, mode: Round) -> StatusAnd<u128>
    ensures { IsSumOfBits e4m3b11fnuz_constants mode x y result }
{
    let sum = Float8E4M3B11FNUZ::from_bits(x).add_r(Float8E4M3B11FNUZ::from_bits(y), mode);
    sum.status.and(sum.value.to_bits())
}

/// A sum in `FloatTF32`.
pub fn float_tf32_sum(x: u128, y: u128, mode: Round) -> StatusAnd<u128>
    ensures { IsSumOfBits tf32_constants mode x y result }
{
    let sum = FloatTF32::from_bits(x).add_r(FloatTF32::from_bits(y), mode);
    sum.status.and(sum.value.to_bits())
}

/// A sum in `X87DoubleExtended`.
pub fn x87_double_extended_sum(x: u128, y: u128, mode: Round) -> StatusAnd<u128>
    ensures { IsSumOfBits x87_constants mode x y result }
{
    let sum = X87DoubleExtended::from_bits(x).add_r(X87DoubleExtended::from_bits(y), mode);
    sum.status.and(sum.value.to_bits())
}
