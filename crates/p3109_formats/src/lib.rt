//! Formats of IEEE P3109: values of 3 to 15 bits that are stored and converted. Arithmetic on them is that of another
//! format, into which they are converted.
//!
//! A format is a type with four constants (`projection`), and `Projected<F>` a value of it: its code, its order and its
//! neighbours (`projected`). A `Descriptor` has the constants as a value, for formats chosen at run time.
//! `from_value` and `to_value` convert. A number is rounded by the picks of `small_formats`, and nothing is rounded
//! here.
//!
//! `published` states what P3109 says of the named ones.
#![tactic(auto)]

mod descriptor;
mod from_value;
mod projected;
mod projection;
mod published;
mod random;
mod rules;
mod theorems;
mod to_value;

pub use descriptor::Descriptor;
pub use projected::Projected;
pub use projection::{Binary8P1UF, Binary8P3, Binary8P4, Binary8P5, Projection};
pub use published::projections_are_those_of_p3109;
pub use rules::{ProjectionRound, ProjectionRule, Saturation};
pub use theorems::{
    next_values_are_nearest, one_is_in_the_middle, picks_of_codes_are_picks,
    projections_by_mode_are_projections, projections_by_mode_have_one_answer,
    projections_have_one_answer, random_codes_are_counted, rounded_parts_are_counted,
};
