//! The laws of the public calls, for every format: each function calls the library, and its contract states the law for
//! the results. A function has a precondition on the format only where a call has it.

ghost use Rattle.std.specs.Prelude.{◌≡◌, ◌^◌, ◌<◌, ◌≤◌, IsTrue, true, false, ◌-ℤ◌, ◌≤ℤ◌};
ghost use Rattle.apfloat_model.specs.declared.kinds.NonfiniteBehavior.TheVariants.{IEEE754};
ghost use Rattle.rustc_apfloat.specs.{Flags.bits_of, Negation.negated, Products.product_limit, Order.number};
ghost use Rattle.rustc_apfloat.specs.{Order.AtMost, Rounding.ok_bits, FlaggedTypes.format_of};
ghost use Rattle.rustc_apfloat.specs.Classes.{is_finite, is_finite_non_zero};
ghost use Rattle.tests.specs.LawPremises.{AreNear, IsInBoth};

use rustc_apfloat::ieee::{Flagged, IeeeFloat};
use rustc_apfloat::{Float, FloatConvert, Round, StatusAnd};

/// The difference of two values. It is exact in each mode for positive numbers of which neither is more than twice the
/// other (Sterbenz's lemma).
pub fn near_difference<S: Flagged>(
    x: IeeeFloat<S>,
    y: IeeeFloat<S>,
    mode: Round,
) -> StatusAnd<IeeeFloat<S>>
    ensures exact { AreNear x y → number result.value ≡ number x -ℤ number y }
    ensures ok { AreNear x y → bits_of result.status ≡ ok_bits }
{
    x.sub_r(y, mode)
}

/// `x + z` and `y + z`: for numbers in order, in a format with infinities, the sums are in order too.
pub fn sums_in_order<S: Flagged>(
    x: IeeeFloat<S>,
    y: IeeeFloat<S>,
    z: IeeeFloat<S>,
    mode: Round,
) -> (IeeeFloat<S>, IeeeFloat<S>)
    ensures { S.NONFINITE_BEHAVIOR ≡ IEEE754 → IsTrue (is_finite x) → IsTrue (is_finite y)
        → IsTrue (is_finite z) → number x ≤ℤ number y → AtMost result.0 result.1 }
{
    (x.add_r(z, mode).value, y.add_r(z, mode).value)
}

/// A product, and the product of the negated left factor in the opposite mode, which is the negated product with the
/// same flags.
pub fn opposite_products<S: Flagged>(
    x: IeeeFloat<S>,
    y: IeeeFloat<S>,
    mode: Round,
) -> (StatusAnd<IeeeFloat<S>>, StatusAnd<IeeeFloat<S>>)
    requires { S.PRECISION ≤ product_limit }
    ensures value { IsTrue (is_finite_non_zero x) → IsTrue (is_finite_non_zero y)
        → result.1.value ≡ negated S.NONFINITE_BEHAVIOR result.0.value }
    ensures status { IsTrue (is_finite_non_zero x) → IsTrue (is_finite_non_zero y)
        → bits_of result.1.status ≡ bits_of result.0.status }
{
    (x.mul_r(y, mode), (-x).mul_r(y, -mode))
}

/// The value converted to the format `T` and back, and whether either conversion lost information. A number of both
/// formats is unchanged.
pub fn there_and_back<S: Flagged, T: Flagged>(x: IeeeFloat<S>, mode: Round) -> (IeeeFloat<S>, bool)
    ensures value { IsInBoth (format_of S.Flagged) (format_of T.Flagged) x → result.0 ≡ x }
    ensures loss { IsInBoth (format_of S.Flagged) (format_of T.Flagged) x → result.1 ≡ false }
{
    // `category` ensures that a value belongs to its format.
    let _ = x.category();
    let mut lost_there = false;
    let mut lost_back = false;
    let there: StatusAnd<IeeeFloat<T>> = x.convert_r(mode, &mut lost_there);
    let back: StatusAnd<IeeeFloat<S>> = there.value.convert_r(mode, &mut lost_back);
    (back.value, lost_there || lost_back)
}

/// The next value up, and then the next down: in a format with infinities, a nonzero number is unchanged.
pub fn up_and_down<S: Flagged>(x: IeeeFloat<S>) -> IeeeFloat<S>
    ensures { S.NONFINITE_BEHAVIOR ≡ IEEE754 → is_finite_non_zero x ≡ true → result ≡ x }
{
    x.next_up().value.next_down().value
}

/// A value written as bits and read back.
pub fn through_bits<S: Flagged>(x: IeeeFloat<S>) -> IeeeFloat<S>
    requires { S.PRECISION < S.BITS }
    ensures { result ≡ x }
{
    IeeeFloat::from_bits(x.to_bits())
}

/// A bit pattern read as a value and written back. With an implied integer bit, it is unchanged.
pub fn through_value<S: Flagged>(bits: u128) -> u128
    requires { S.PRECISION < S.BITS }
    ensures { S.EXPLICIT_INTEGER_BIT ≡ false → bits < 2 ^ S.BITS → result ≡ bits }
{
    IeeeFloat::<S>::from_bits(bits).to_bits()
}
