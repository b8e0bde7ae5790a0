//! What the tool prints and answers: the report of `edges`, fault lines, and the answers of a run.
//!
//! The definitions of what is below stand in shelves of their own, by subject. A reader who believes the files of their
//! `specs/` believes the tool: each defines one subject, in the field's words.
#![tactic(auto)]

mod answers;
mod command_lines;

pub use answers::Status;
pub use command_lines::{CommandLine, Output};
