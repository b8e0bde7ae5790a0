//! The built-in commands, and what a run does that runs nothing further.

pub mod branches;
pub mod built_ins;
pub mod faults;
pub mod indexes;
pub mod list_values;
pub mod names;
pub mod run_steps;
pub mod texts;
