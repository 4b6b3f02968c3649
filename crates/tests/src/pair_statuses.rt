//! The calls of pairs of doubles, too, raise OVERFLOW and UNDERFLOW only together with INEXACT, as in `statuses`.

ghost use Rattle.std.specs.Prelude.{◌≤◌, Bool};
ghost use Rattle.rustc_apfloat.specs.{Flags.Gives, Flags.bits_of, PairCalls.IsPairFromSigned};
ghost use Rattle.rustc_apfloat.specs.PairCalls.{IsPairFromUnsigned, IsPairNearestRemainder, IsPairNextDown};
ghost use Rattle.rustc_apfloat.specs.PairCalls.{IsPairNextUp, IsPairQuotient, IsPairRead, IsPairRoundToIntegral};
ghost use Rattle.rustc_apfloat.specs.PairCalls.{IsPairToSigned, IsPairToUnsigned, IsPairTruncatedRemainder};
ghost use Rattle.rustc_apfloat.specs.{PairProducts.IsPairProduct, PairRoots.IsPairRoot, PairSums.IsPairDifference};
ghost use Rattle.rustc_apfloat.specs.{PairSums.IsPairSum, RaisedFlags.FlagsGoTogether};
ghost use Rattle.tests.specs.Statuses.{HasFlagsTogether};

use rustc_apfloat::ppc::DoubleDouble;
use rustc_apfloat::{Float, ParseError, Round, StatusAnd};

/// Sums, differences and products of pairs of doubles. The status is the union of those of the steps.
pub fn chains(
    x: DoubleDouble,
    y: DoubleDouble,
    mode: Round,
) -> (
    StatusAnd<DoubleDouble>,
    StatusAnd<DoubleDouble>,
    StatusAnd<DoubleDouble>,
)
    ensures adds { Gives (IsPairSum mode x y) result.0 }
    ensures subtracts { Gives (IsPairDifference mode x y) result.1 }
    ensures multiplies { Gives (IsPairProduct mode x y) result.2 }
    ensures sum { FlagsGoTogether (bits_of result.0.status) }
    ensures difference { FlagsGoTogether (bits_of result.1.status) }
    ensures product { FlagsGoTogether (bits_of result.2.status) }
{
    (x.add_r(y, mode), x.sub_r(y, mode), x.mul_r(y, mode))
}

/// Quotients and remainders of pairs of doubles. The status is that of the wide format.
pub fn quotient_and_remainders(
    x: DoubleDouble,
    y: DoubleDouble,
    mode: Round,
) -> (
    StatusAnd<DoubleDouble>,
    StatusAnd<DoubleDouble>,
    StatusAnd<DoubleDouble>,
)
    ensures divides { Gives (IsPairQuotient mode x y) result.0 }
    ensures leaves { Gives (IsPairTruncatedRemainder x y) result.1 }
    ensures leaves_nearest { Gives (IsPairNearestRemainder x y) result.2 }
    ensures quotient { FlagsGoTogether (bits_of result.0.status) }
    ensures truncated { FlagsGoTogether (bits_of result.1.status) }
    ensures nearest { FlagsGoTogether (bits_of result.2.status) }
{
    (x.div_r(y, mode), x.c_fmod(y), x.ieee_rem(y))
}

/// The square root of a pair of doubles. The status is that of the wide format.
pub fn root(x: DoubleDouble, mode: Round) -> StatusAnd<DoubleDouble>
    ensures takes_root { Gives (IsPairRoot mode x) result }
    ensures flags { FlagsGoTogether (bits_of result.status) }
{
    x.sqrt_r(mode)
}

/// The next pairs up and down, and the pair rounded to an integral value.
pub fn neighbours_and_integral(
    x: DoubleDouble,
    mode: Round,
) -> (
    StatusAnd<DoubleDouble>,
    StatusAnd<DoubleDouble>,
    StatusAnd<DoubleDouble>,
)
    ensures steps_up { Gives (IsPairNextUp x) result.0 }
    ensures steps_down { Gives (IsPairNextDown x) result.1 }
    ensures rounds { Gives (IsPairRoundToIntegral mode x) result.2 }
    ensures up { FlagsGoTogether (bits_of result.0.status) }
    ensures down { FlagsGoTogether (bits_of result.1.status) }
    ensures integral { FlagsGoTogether (bits_of result.2.status) }
{
    (x.next_up(), x.next_down(), x.round_to_integral(mode))
}

/// The pairs converted from an unsigned and from a signed integer.
pub fn of_integers(
    unsigned: u128,
    signed: i128,
    mode: Round,
) -> (StatusAnd<DoubleDouble>, StatusAnd<DoubleDouble>)
    ensures converts_unsigned { Gives (IsPairFromUnsigned mode unsigned) result.0 }
    ensures converts_signed { Gives (IsPairFromSigned mode signed) result.1 }
    ensures unsigned { FlagsGoTogether (bits_of result.0.status) }
    ensures signed { FlagsGoTogether (bits_of result.1.status) }
{
    (
        DoubleDouble::from_u128_r(unsigned, mode),
        DoubleDouble::from_i128_r(signed, mode),
    )
}

/// The pair as an unsigned and as a signed integer of `width` bits.
pub fn to_integers(x: DoubleDouble, width: usize, mode: Round) -> (StatusAnd<u128>, StatusAnd<i128>)
    requires low { 2 ≤ width }
    requires high { width ≤ 128 }
    ensures converts_unsigned { (exact : Bool) × IsPairToUnsigned mode width x
        result.0.value (bits_of result.0.status) exact }
    ensures converts_signed { (exact : Bool) × IsPairToSigned mode width x
        result.1.value (bits_of result.1.status) exact }
    ensures unsigned { FlagsGoTogether (bits_of result.0.status) }
    ensures signed { FlagsGoTogether (bits_of result.1.status) }
{
    let mut is_exact = false;
    let unsigned = x.to_u128_r(width, mode, &mut is_exact);
    (unsigned, x.to_i128_r(width, mode, &mut is_exact))
}

/// The pair that a text spells, or a refusal.
pub fn reading(text: &str, mode: Round) -> Result<StatusAnd<DoubleDouble>, ParseError>
    ensures reads { IsPairRead mode text.now result }
    ensures flags { HasFlagsTogether result }
{
    DoubleDouble::from_str_r(text, mode)
}
