//! Special operands: the result of each operation if not all its operands are nonzero numbers (IEEE 754-2019 6.1 to
//! 6.3, 7.2 and 7.3). Each function has a row for every category of the left operand, and in it one for every category
//! of the right one. The mode matters for the sign of a sum of zeros, and if a fused sum reduces to a product.

ghost use Rattle.std.specs.Prelude.{◌≡◌, ℕ, ◌*◌, ◌<◌, ◌⊎◌, true, Bool};
ghost use Rattle.apfloat_model.specs.declared.kinds.{Category.Category, Round.Round};
ghost use Rattle.apfloat_model.specs.formats.Datum.{finite, infinite};
ghost use Rattle.apfloat_model.specs.arithmetic.{Exact.product_sign, Sums.IsSum, Products.IsProduct};
ghost use Rattle.apfloat_model.specs.arithmetic.{Quotients.IsQuotient, FusedSums.IsFusedSum};
ghost use Rattle.apfloat_model.specs.arithmetic.{FusedSums.IsSumWithProduct, Roots.IsRoot, Remainders.IsRemainder};
ghost use Rattle.apfloat_rounding.specs.Shapes.{format_at};
ghost use Rattle.apfloat_rounding.specs.Stored.{IsStored, datum_at, number_of, GivesAt};
ghost use Rattle.apfloat_arithmetic.specs.{NumberResults.AreNormal, SpecialOperands.AreSpecial};
ghost use Rattle.apfloat_arithmetic.specs.SpecialOperands.{AreSpecialTerms, HasSpecialFactor, HasSpecials, IsResult};

use crate::exact::{divided_by_zero, exact_infinity, exact_zero};
use crate::products::product_sign;
use crate::sums::sign_of_zero;
use crate::wide_products::multiply_numbers_at_every_precision;
use apfloat_model::{Category, Round, Status, StatusAnd};
use apfloat_rounding::nans::{invalid, propagated, propagated_left};
use apfloat_rounding::shape::Shape;
use apfloat_rounding::unpacked::{Unpacked, remade, zero_of};

/// An operation with its operands.
#[derive(Clone, Copy)]
pub(crate) enum Operation {
    /// The sum of two values.
    Sum(Unpacked, Unpacked, Round),
    /// The product of two values.
    Product(Unpacked, Unpacked),
    /// The first value divided by the second.
    Quotient(Unpacked, Unpacked),
    /// The product of the first two values plus the third.
    FusedSum(Unpacked, Unpacked, Unpacked, Round),
    /// The square root of a value.
    Root(Unpacked),
    /// The remainder of the first value by the second, whichever way the quotient is rounded to an integer.
    Remainder(Unpacked, Unpacked),
}

/// The sum of an infinity and any value.
fn add_to_infinity(shape: Shape, x: Unpacked, y: Unpacked) -> StatusAnd<Unpacked>
    requires infinite { x.category ≡ Category.Infinity }
    requires x_stored { IsStored shape x }
    requires y_stored { IsStored shape y }
    ensures stored { IsStored shape result.value }
    ensures delivered { (mode : Round)
        → GivesAt shape (IsSum (format_at shape) mode (infinite x.negative) (datum_at shape y))
        result }
{
    match y.category {
        Category::NaN => propagated(shape, y),
        Category::Infinity => {
            if x.negative == y.negative {
                Status::OK.and(x)
            } else {
                invalid(shape)
            }
        }
        Category::Normal => Status::OK.and(x),
        Category::Zero => Status::OK.and(x),
    }
}

/// The sum of a zero and any value.
fn add_to_zero(shape: Shape, x: Unpacked, y: Unpacked, round: Round) -> StatusAnd<Unpacked>
    requires { IsStored shape y }
    ensures stored { IsStored shape result.value }
    ensures delivered { GivesAt shape
        (IsSum (format_at shape) round (finite x.negative 0) (datum_at shape y)) result }
{
    match y.category {
        Category::NaN => propagated(shape, y),
        Category::Infinity => Status::OK.and(y),
        Category::Normal => Status::OK.and(y),
        Category::Zero => {
            let negative = sign_of_zero(round, x.negative, y.negative);
            Status::OK.and(zero_of(shape, negative))
        }
    }
}

/// The sum of a nonzero number and a special value.
fn add_to_number(shape: Shape, x: Unpacked, y: Unpacked, round: Round) -> StatusAnd<Unpacked>
    requires normal { x.category ≡ Category.Normal }
    requires special { y.category ≡ Category.Normal → ⊥ }
    requires x_stored { IsStored shape x }
    requires y_stored { IsStored shape y }
    ensures stored { IsStored shape result.value }
    ensures delivered { GivesAt shape (IsSum (format_at shape) round
        (number_of shape x) (datum_at shape y)) result }
{
    match y.category {
        Category::Normal => unreachable!(),
        Category::Zero => Status::OK.and(x),
        Category::Infinity => Status::OK.and(y),
        Category::NaN => propagated(shape, y),
    }
}

/// A sum with special operands (6.1, 6.3).
fn add_specials(shape: Shape, x: Unpacked, y: Unpacked, round: Round) -> StatusAnd<Unpacked>
    requires { AreSpecial shape x y }
    ensures stored { IsStored shape result.value }
    ensures delivered { GivesAt shape
        (IsSum (format_at shape) round (datum_at shape x) (datum_at shape y)) result }
{
    match x.category {
        Category::Normal => add_to_number(shape, x, y, round),
        Category::Zero => add_to_zero(shape, x, y, round),
        Category::Infinity => add_to_infinity(shape, x, y),
        Category::NaN => propagated_left(shape, x, y),
    }
}

/// A product with special operands.
fn multiply_specials(shape: Shape, x: Unpacked, y: Unpacked) -> StatusAnd<Unpacked>
    requires { AreSpecial shape x y }
    ensures stored { IsStored shape result.value }
    ensures delivered { (mode : Round) → GivesAt shape
        (IsProduct (format_at shape) mode (datum_at shape x) (datum_at shape y)) result }
{
    let negative = product_sign(x.negative, y.negative);
    match x.category {
        Category::Normal => match y.category {
            Category::Normal => unreachable!(),
            Category::Zero => exact_zero(shape, negative),
            Category::Infinity => exact_infinity(shape, negative),
            Category::NaN => propagated(shape, y),
        },
        Category::Zero => match y.category {
            Category::Normal => exact_zero(shape, negative),
            Category::Zero => exact_zero(shape, negative),
            Category::Infinity => invalid(shape),
            Category::NaN => propagated(shape, y),
        },
        Category::Infinity => match y.category {
            Category::Normal => exact_infinity(shape, negative),
            Category::Zero => invalid(shape),
            Category::Infinity => exact_infinity(shape, negative),
            Category::NaN => propagated(shape, y),
        },
        Category::NaN => propagated_left(shape, x, y),
    }
}

/// A quotient with special operands.
fn divide_specials(shape: Shape, x: Unpacked, y: Unpacked) -> StatusAnd<Unpacked>
    requires { AreSpecial shape x y }
    ensures stored { IsStored shape result.value }
    ensures delivered { (mode : Round) → GivesAt shape
        (IsQuotient (format_at shape) mode (datum_at shape x) (datum_at shape y)) result }
{
    let negative = product_sign(x.negative, y.negative);
    match x.category {
        Category::Normal => match y.category {
            Category::Normal => unreachable!(),
            Category::Zero => divided_by_zero(shape, negative),
            Category::Infinity => exact_zero(shape, negative),
            Category::NaN => propagated(shape, y),
        },
        Category::Zero => match y.category {
            Category::Normal => exact_zero(shape, negative),
            Category::Zero => invalid(shape),
            Category::Infinity => exact_zero(shape, negative),
            Category::NaN => propagated(shape, y),
        },
        Category::Infinity => match y.category {
            Category::Normal => exact_infinity(shape, negative),
            Category::Zero => exact_infinity(shape, negative),
            Category::Infinity => invalid(shape),
            Category::NaN => propagated(shape, y),
        },
        Category::NaN => propagated_left(shape, x, y),
    }
}

/// A zero product plus a third value.
fn add_to_zero_product(
    shape: Shape,
    negative: bool,
    z: Unpacked,
    round: Round,
) -> StatusAnd<Unpacked>
    requires { IsStored shape z }
    ensures stored { IsStored shape result.value }
    ensures delivered { (b c : Bool) (l m : ℕ) → product_sign b c ≡ negative → l * m ≡ 0
        → GivesAt shape (IsFusedSum (format_at shape) round (finite b l) (finite c m)
        (datum_at shape z)) result }
{
    match z.category {
        Category::Normal => Status::OK.and(z),
        Category::Zero => exact_zero(shape, sign_of_zero(round, negative, z.negative)),
        Category::Infinity => Status::OK.and(z),
        Category::NaN => propagated(shape, z),
    }
}

/// The product of two nonzero numbers, plus a special value: a zero adds nothing.
fn add_to_number_product(
    shape: Shape,
    x: Unpacked,
    y: Unpacked,
    z: Unpacked,
    round: Round,
) -> StatusAnd<Unpacked>
    requires normal { AreNormal shape x y }
    requires addend { IsStored shape z }
    requires special { z.category ≡ Category.Normal → ⊥ }
    ensures stored { IsStored shape result.value }
    ensures delivered { GivesAt shape (IsFusedSum (format_at shape) round
        (number_of shape x) (number_of shape y) (datum_at shape z)) result }
{
    match z.category {
        Category::Normal => unreachable!(),
        Category::Zero => multiply_numbers_at_every_precision(shape, x, y, round),
        Category::Infinity => Status::OK.and(z),
        Category::NaN => propagated(shape, z),
    }
}

/// A product with an infinity or a NaN among its factors, plus a third value: if the product raises a flag, it is the
/// result.
fn add_to_special_product(
    shape: Shape,
    x: Unpacked,
    y: Unpacked,
    z: Unpacked,
    round: Round,
) -> StatusAnd<Unpacked>
    requires { HasSpecialFactor shape x y z }
    ensures stored { IsStored shape result.value }
    ensures delivered { GivesAt shape (IsSumWithProduct (format_at shape) round (datum_at shape x)
        (datum_at shape y) (datum_at shape z)) result }
{
    let product = multiply_specials(shape, x, y);
    if product.status == Status::OK {
        add_specials(shape, product.value, z, round)
    } else {
        product
    }
}

/// A fused sum with special operands.
fn multiply_add_specials(
    shape: Shape,
    x: Unpacked,
    y: Unpacked,
    z: Unpacked,
    round: Round,
) -> StatusAnd<Unpacked>
    requires { AreSpecialTerms shape x y z }
    ensures stored { IsStored shape result.value }
    ensures delivered { GivesAt shape (IsFusedSum (format_at shape) round (datum_at shape x)
        (datum_at shape y) (datum_at shape z)) result }
{
    let negative = product_sign(x.negative, y.negative);
    match x.category {
        Category::Normal => match y.category {
            Category::Normal => add_to_number_product(shape, x, y, z, round),
            Category::Zero => add_to_zero_product(shape, negative, z, round),
            Category::Infinity => add_to_special_product(shape, x, y, z, round),
            Category::NaN => add_to_special_product(shape, x, y, z, round),
        },
        Category::Zero => match y.category {
            Category::Normal => add_to_zero_product(shape, negative, z, round),
            Category::Zero => add_to_zero_product(shape, negative, z, round),
            Category::Infinity => add_to_special_product(shape, x, y, z, round),
            Category::NaN => add_to_special_product(shape, x, y, z, round),
        },
        Category::Infinity => add_to_special_product(shape, x, y, z, round),
        Category::NaN => add_to_special_product(shape, x, y, z, round),
    }
}

/// The root of a special operand: any value but a positive number.
fn root_specials(shape: Shape, x: Unpacked) -> StatusAnd<Unpacked>
    requires stored { IsStored shape x }
    requires special { x.category ≡ Category.Normal → x.negative ≡ true }
    ensures stored { IsStored shape result.value }
    ensures delivered { (mode : Round)
        → GivesAt shape (IsRoot (format_at shape) mode (datum_at shape x)) result }
{
    match x.category {
        Category::Normal => invalid(shape),
        Category::Zero => Status::OK.and(x),
        Category::Infinity => {
            if x.negative {
                invalid(shape)
            } else {
                Status::OK.and(x)
            }
        }
        Category::NaN => propagated(shape, x),
    }
}

/// The remainder of a finite operand, if it is zero or the divisor is not a nonzero number.
fn remainder_of_finite(shape: Shape, x: Unpacked, y: Unpacked) -> StatusAnd<Unpacked>
    requires operands { AreSpecial shape x y }
    requires finite { (x.category ≡ Category.Zero) ⊎ (x.category ≡ Category.Normal) }
    ensures stored { IsStored shape result.value }
    ensures delivered { (quotient : ℕ → ℕ → ℕ) → ((n : ℕ) → 0 < n → quotient 0 n ≡ 0)
        → GivesAt shape (IsRemainder (format_at shape) quotient (datum_at shape x)
        (datum_at shape y)) result }
{
    match y.category {
        Category::NaN => propagated(shape, y),
        Category::Zero => invalid(shape),
        Category::Infinity => Status::OK.and(x),
        Category::Normal => Status::OK.and(x),
    }
}

/// A remainder with special operands: the rounding of the quotient does not matter.
fn remainder_specials(shape: Shape, x: Unpacked, y: Unpacked) -> StatusAnd<Unpacked>
    requires { AreSpecial shape x y }
    ensures stored { IsStored shape result.value }
    ensures delivered { (quotient : ℕ → ℕ → ℕ) → ((n : ℕ) → 0 < n → quotient 0 n ≡ 0)
        → GivesAt shape (IsRemainder (format_at shape) quotient (datum_at shape x)
        (datum_at shape y)) result }
{
    match x.category {
        Category::NaN => propagated_left(shape, x, y),
        Category::Infinity => match y.category {
            Category::NaN => propagated(shape, y),
            Category::Infinity => invalid(shape),
            Category::Zero => invalid(shape),
            Category::Normal => invalid(shape),
        },
        Category::Zero => remainder_of_finite(shape, x, y),
        Category::Normal => remainder_of_finite(shape, x, y),
    }
}

/// The result of an operation with special operands. Kept out of line, so that only the path for numbers is inlined.
#[cold]
#[inline(never)]
fn result_of(shape: Shape, operation: Operation) -> StatusAnd<Unpacked>
    requires { HasSpecials shape operation }
    ensures stored { IsStored shape result.value }
    ensures delivered { GivesAt shape (IsResult shape operation) result }
{
    match operation {
        Operation::Sum(x, y, round) => add_specials(shape, x, y, round),
        Operation::Product(x, y) => multiply_specials(shape, x, y),
        Operation::Quotient(x, y) => divide_specials(shape, x, y),
        Operation::FusedSum(x, y, z, round) => multiply_add_specials(shape, x, y, z, round),
        Operation::Root(x) => root_specials(shape, x),
        Operation::Remainder(x, y) => remainder_specials(shape, x, y),
    }
}

/// The result of an operation with special operands, rebuilt from its fields. The shape whose address is passed on is
/// created here: created in the function that computes with numbers, it would be initialized for those too.
#[inline(always)]
pub(crate) fn special(shape: Shape, operation: Operation) -> StatusAnd<Unpacked>
    requires { HasSpecials shape operation }
    ensures stored { IsStored shape result.value }
    ensures delivered { GivesAt shape (IsResult shape operation) result }
{
    remade(result_of(shape.remade(), operation))
}
