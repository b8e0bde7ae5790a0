//! The bytes of a netlist as tokens (IEEE 1364-2005, lexical conventions).

pub mod bytes;
pub mod gaps;
pub mod lexed;
pub mod netlist_text;
pub mod numbers;
pub mod runs;
pub mod tokens;
pub mod words;
