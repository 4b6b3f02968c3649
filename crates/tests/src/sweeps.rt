//! Tests that need several crates, with the formats, the laws and the plain slow program.

#[cfg(test)]
mod agreements;
#[cfg(test)]
mod bits;
#[cfg(test)]
mod calls;
#[cfg(test)]
mod comparison;
#[cfg(test)]
mod constants;
#[cfg(test)]
mod example;
#[cfg(test)]
mod flags_at_ends;
#[cfg(test)]
mod fractions;
#[cfg(test)]
mod integral;
#[cfg(test)]
mod laws_at_limits;
#[cfg(test)]
mod limits;
#[cfg(test)]
mod long_texts;
#[cfg(test)]
mod neighbours;
#[cfg(test)]
mod operations;
#[cfg(test)]
mod operators;
#[cfg(test)]
mod pairs;
#[cfg(test)]
mod patterns;
#[cfg(test)]
mod small;
#[cfg(test)]
mod tables;
#[cfg(test)]
mod wider;
#[cfg(test)]
mod widest;
