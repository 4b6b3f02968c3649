//! The digits of a value, in a buffer that the caller lends: any number of decimal digits (`decimal`), hexadecimal
//! digits (`hexadecimal`), and the decimals of double-doubles (`of_double_doubles`), each rounded once.
#![tactic(auto)]

pub mod decimal;
pub mod hexadecimal;
pub mod of_double_doubles;
