//! Singles that become codes of `E3M4`, a block at a time. It has the constants of a target of singles, though no type
//! of formats: its greatest exponent is less than their law asks for.

ghost use Rattle.std.specs.Prelude.{◌≡◌, ◌≤◌, IfSome};
ghost use Rattle.rustc_apfloat.specs.Types.{constants_of};
ghost use Rattle.apfloat_arrays.specs.declared.stored.formats.StoredFormat.TheVariants.{E3M4};
ghost use Rattle.apfloat_arrays.specs.Singles.{IsPlanFor};
ghost use Rattle.apfloat_arrays.specs.stored.NumberArrays.{AreSinglesInto, AreStorable, AreStored, e3m4_constants};

use crate::counts::Counts;
use crate::single_plans::BlockPlan;
use crate::single_targets::{is_single, saturates};
use crate::singles::{all_counts, convert_halves};
use crate::specials::{BLOCK, are_finite};
use crate::stored::array::{StoreCall, store_slowly};
use fast_bits::lanes::{ShortPlan, Target, short_format_plan};
use rustc_apfloat::Round;
use rustc_apfloat::ieee::{NonfiniteBehavior, Semantics};
use small_formats::saturation::Overflow;

/// How many bytes a code takes.
const CODE: usize = 1;

/// Converts values into `E3M4`, each in its place, if they are singles, and as many as a block has.
#[inline(always)]
pub(crate) fn store_e3m4<S: Semantics>(call: StoreCall, output: &mut [u8]) -> Option<Counts>
    requires target { call.target ≡ E3M4 }
    requires given { AreStorable (constants_of S.Semantics) call output.old }
    ensures { IfSome result (AreStored (constants_of S.Semantics) call.entry output.new) }
{
    if is_single::<S>() && call.width == 4 && call.count >= BLOCK {
        Some(store_singles::<S>(call, output))
    } else {
        None
    }
}

/// Converts singles, each in its place.
#[inline(never)]
fn store_singles<S: Semantics>(call: StoreCall, output: &mut [u8]) -> Counts
    requires singles { AreSinglesInto (constants_of S.Semantics) call.width call.target }
    requires given { AreStorable (constants_of S.Semantics) call output.old }
    ensures { AreStored (constants_of S.Semantics) call.entry output.new result }
{
    let plan = plan_by(call.overflow, call.round);
    let mut counts = Counts::NONE;
    let mut uppers = [0; BLOCK];
    let mut lowers = [0; BLOCK];
    for index in 0..call.count / BLOCK + 1 {
        let first = index * BLOCK;
        let more = BLOCK.min(call.count - first);
        let last = first + more;
        let part = StoreCall {
            count: more,
            input: &call.input[first * call.width..last * call.width],
            ..call
        };
        let codes = &mut output[first * CODE..last * CODE];
        counts.add(store_part::<ShortPlan, S>(plan, part, &mut uppers, &mut lowers, codes));
    }
    counts
}

/// Converts a block by the plan. Fewer values, and a block with infinities or NaNs where these do not take the same
/// steps as numbers, are converted in the general way.
#[inline(always)]
fn store_part<P: BlockPlan<BLOCK>, S: Semantics>(
    plan: P,
    call: StoreCall,
    uppers: &mut [u16; BLOCK],
    lowers: &mut [u16; BLOCK],
    output: &mut [u8],
) -> Counts
    requires plan { P.is_for plan call.overflow e3m4_constants call.round }
    requires singles { AreSinglesInto (constants_of S.Semantics) call.width call.target }
    requires given { AreStorable (constants_of S.Semantics) call output.old }
    ensures { AreStored (constants_of S.Semantics) call.entry output.new result }
{
    if call.count != BLOCK {
        return store_slowly::<S>(call, output);
    }
    P::read_halves(call.input, uppers, lowers);
    let (leads, finite) = (plan.leads_past(), are_finite(uppers));
    if leads | finite {
        let few = convert_halves(plan, !finite, CODE, uppers, lowers, output);
        all_counts(few, BLOCK)
    } else {
        store_slowly::<S>(call, output)
    }
}

/// What is done with each upper half of a single.
#[inline(always)]
fn plan_by(overflow: Overflow, round: Round) -> ShortPlan
    ensures { IsPlanFor overflow e3m4_constants round result.target result.saturates result.round }
{
    let target = Target {
        bits: 8,
        exp_bits: 3,
        precision: 5,
        min_exp: -2,
        max_exp: 3,
        nonfinite: NonfiniteBehavior::IEEE754,
        tiny_before_rounding: false,
        ieee_flags: false,
    };
    short_format_plan(target, saturates(overflow), round)
}
