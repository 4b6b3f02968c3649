//! The library for C programs, as far as it has arrays, blocks, reductions, and values in storage formats.
//!
//! They are declared in `include/apfloat.h`, as the calls of `apfloat_c` are, with which they form one library. Each is
//! total: it requires nothing of the contents of its arguments.
#![tactic(auto)]

mod array_calls;
mod array_data;
mod arrays;
mod blocks;
mod elements;
mod maps;
mod normal_elements;
mod one_answer;
mod operation_tables;
mod reductions;
mod storage_modes;
mod storage_operations;
mod storage_values;
