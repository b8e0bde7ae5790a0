//! The run of a script: its variables, its levels, and its commands one after the other.

pub mod command_reader;
pub mod evaluation;
pub mod progress;
pub mod scripts;
pub mod variables;
