//! Singles converted to formats of few digits, by steps that are the same for each number.
//!
//! A number's significand is rounded to odd to a few digits more than the target has, and moved to its place: with the
//! place added, the digits above the last sixteen are the number's encoding in the target. One sum below them rounds
//! it. Nothing depends on a test whose outcome changes what is computed next, so that a compiler can work on several
//! numbers at once. All is computed in words of sixteen bits, of which twice as many fit into a vector as of those of
//! singles: from both halves of a single, or, for formats of at most eight bits, from its upper half alone.

mod constants;
mod few_counts;
mod halves;
mod lanes;
mod plans;
mod scaled;
mod short_lanes;
mod sides;
mod special_lanes;
mod targets;

pub use constants::{Addend, Side, Target};
pub use few_counts::{FewCounts, with_lane};
pub use halves::{is_finite_half, upper_half};
pub use lanes::{Lane, convert_single, is_finite};
pub use plans::{Plan, ShortPlan};
pub use short_lanes::convert_half;
pub use sides::{delivers_past, plan_of, short_format_plan};
