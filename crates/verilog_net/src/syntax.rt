//! Whether tokens are of the grammar (IEEE 1364-2005), and else where their first syntax error is.

pub mod bits_grammar;
pub mod contexts;
pub mod grammar;
pub mod kind_numbers;
pub mod name_sets;
pub mod recognition;
