//! Arithmetic on integers of one machine word, of 128 bits and of 256 bits, significands among them, and the loss when
//! their low digits are cut off. It knows nothing of formats, statuses or rounding modes.
//!
//! A significand `s` with a unit and a `Loss` represents each magnitude that is `s` units plus a rest below one unit
//! that the `Loss` describes (`StandsFor` in `apfloat_model/specs/rounding/Standing.antt`).
//!
//! Products and sums that are too long for a `u128` take two (`Wide`), and are rounded to odd when they are cut to one.
#![tactic(auto)]

mod exponents;
pub mod guessed_quotient;
pub mod loss;
pub mod product;
pub mod quotient;
pub mod reciprocal;
pub mod rest;
pub mod roots;
pub mod shift;
pub mod sum;
pub mod terms;
pub mod u128_quotient;
pub mod u128_sum;
pub mod wide;
pub mod wide_product;
pub mod wide_shift;
pub mod wide_sum;
pub mod word_quotient;
pub mod word_sum;

pub use guessed_quotient::{divide_by_guess, guess_quotient};
pub use loss::{is_exact, loss_of_rest};
pub use product::full_product;
pub use quotient::{Quotient, divide};
pub use rest::{MovedRest, u128_moved_rest, word_moved_rest};
pub use roots::{Root, root_of};
pub use shift::{
    Shifted, digits, is_odd_above, low_digits, power_of_two, shift_right, steps_between,
};
pub use sum::{Total, add_terms};
pub use terms::{Term, WideTerm};
pub use u128_quotient::divide_u128;
pub use u128_sum::{U128_LIMIT, U128Total, add_u128_terms};
pub use wide::Wide;
pub use wide_product::full_wide_product;
pub use wide_shift::{is_within, narrowed, widened};
pub use wide_sum::{add_wide_terms, doubled};
pub use word_quotient::divide_word;
pub use word_sum::{WORD_LIMIT, WordTotal, add_word_terms};
