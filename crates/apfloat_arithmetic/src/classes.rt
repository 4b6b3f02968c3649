//! Classes of values (IEEE 754-2019 5.7.2).

ghost use Rattle.std.specs.Prelude.{◌≡◌, true, false};
ghost use Rattle.apfloat_model.specs.order.Classes.{is_denormal};
ghost use Rattle.apfloat_rounding.specs.{Shapes.format_at, Stored.IsStored, Stored.datum_at};

use apfloat_model::Category;
use apfloat_rounding::shape::Shape;
use apfloat_rounding::unpacked::Unpacked;

/// Whether both values are finite and nonzero. One test without a branch in between decides this: a branch on a
/// category would be merged with the branches that follow it into a jump that the processor predicts badly.
#[inline(always)]
pub(crate) fn are_normal(x: Unpacked, y: Unpacked) -> bool
    ensures yes { result ≡ true → (x.category ≡ Category.Normal) × (y.category ≡ Category.Normal) }
    ensures no { result ≡ false → x.category ≡ Category.Normal → y.category ≡ Category.Normal → ⊥ }
{
    (x.category == Category::Normal) & (y.category == Category::Normal)
}

/// Whether all three values are finite and nonzero.
#[inline(always)]
pub(crate) fn are_all_normal(x: Unpacked, y: Unpacked, z: Unpacked) -> bool
    ensures yes { result ≡ true → (x.category ≡ Category.Normal) × (y.category ≡ Category.Normal)
        × (z.category ≡ Category.Normal) }
    ensures no { result ≡ false → x.category ≡ Category.Normal → y.category ≡ Category.Normal
        → z.category ≡ Category.Normal → ⊥ }
{
    are_normal(x, y) & (z.category == Category::Normal)
}

/// Whether the value is a nonzero number of lesser magnitude than the smallest normalized one.
#[inline(always)]
pub fn is_denormal(shape: Shape, x: Unpacked) -> bool
    requires { IsStored shape x }
    ensures { result ≡ is_denormal (format_at shape) (datum_at shape x) }
{
    // All other values have the exponent 0.
    x.exponent < shape.min_exp
}
