//! Tests of the layers below the public calls, and of what rows cannot say; callers that use contracts alone; and a
//! plain, slow rounding that tests compare the library with.
//!
//! They are in a separate crate, since testing a crate proves the whole crate again.
#![tactic(auto)]

pub mod agreements;
pub mod aliases;
#[cfg(test)]
mod asserts;
pub mod call_statuses;
pub mod decimals;
pub mod laws;
#[cfg(test)]
mod longest_line;
pub mod pair_statuses;
pub mod pairs;
pub mod plain;
#[cfg(test)]
mod program;
#[cfg(test)]
mod statuses;
#[cfg(test)]
mod sums;
#[cfg(test)]
mod sweeps;
#[cfg(test)]
mod texts;
pub mod two_modes;
#[cfg(test)]
mod unpacked;
pub mod wide;
