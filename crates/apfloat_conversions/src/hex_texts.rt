//! Reading texts: hexadecimal numbers of any length, infinities and NaNs, as unpacked values of a format.
//!
//! Nothing here is generic. A text is read once from the left, in time linear in its length and without allocation. The
//! leading bits of a significand are kept, with a loss that says how the remaining digits compare with half of the last
//! kept bit, so that the number is rounded once. `apfloat_ieee` supplies the constants of a type.

mod characters;
mod digits;
mod exponent;
mod literal;
mod mark;
mod number;
mod payload;
mod reading;
mod significand;
mod special;

pub use characters::is_decimal;
pub use digits::number_of_digits;
pub use exponent::signed_number;
pub use mark::split_mark;
pub use reading::read;
