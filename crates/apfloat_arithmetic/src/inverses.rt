//! Exact inverses.

ghost use Rattle.std.specs.Prelude.{◌≡◌, Some, true, false};
ghost use Rattle.std.specs.Option.{option_map};
ghost use Rattle.apfloat_model.specs.arithmetic.Exponents.{IsExactInverse};
ghost use Rattle.apfloat_rounding.specs.{Shapes.format_at, Stored.IsStored, Stored.IsNormal, Stored.datum_at};
ghost use Rattle.apfloat_arithmetic.specs.ExactInverseParts.{IsInvertible};

use apfloat_model::Category;
use apfloat_rounding::shape::Shape;
use apfloat_rounding::unpacked::Unpacked;

/// Whether a number is a power of two, and neither it nor its inverse is denormal or too large for the format.
#[inline(always)]
fn is_invertible(shape: Shape, x: Unpacked) -> bool
    requires { IsNormal shape x }
    ensures yes { result ≡ true → IsInvertible shape x }
    ensures no { result ≡ false → IsInvertible shape x → ⊥ }
{
    if x.significand != shape.integer_bit() || x.exponent < shape.min_exp {
        return false;
    }
    shape.min_exp <= -x.exponent && -x.exponent <= shape.max_exp
}

/// The inverse of a power of two, if the format has both and neither is denormal.
#[inline(always)]
pub fn exact_inverse(shape: Shape, x: Unpacked) -> Option<Unpacked>
    requires { IsStored shape x }
    ensures stored { (inverse : Unpacked) → result ≡ Some inverse → IsStored shape inverse }
    ensures inverse { IsExactInverse (format_at shape) (datum_at shape x)
        (option_map (datum_at shape) result) }
{
    match x.category {
        Category::Normal => {
            if is_invertible(shape, x) {
                Some(Unpacked {
                    significand: x.significand,
                    exponent: -x.exponent,
                    category: Category::Normal,
                    negative: x.negative,
                })
            } else {
                None
            }
        }
        Category::Zero => None,
        Category::Infinity => None,
        Category::NaN => None,
    }
}
