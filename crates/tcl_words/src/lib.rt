//! Commands of a script, split into words, and lists (Tcl).
//!
//! It gives the layer above `next_command` and `split` for commands, `list_items` and `list_text` for lists, by the
//! grammars of `tcl_model`, and the laws that each grammar has one outcome and that a list that was made reads back.
//! It leaves to others what a word's variables and scripts stand for.
#![tactic(auto)]

mod between;
mod enclosed;
mod gathered;
mod item_gaps;
mod item_pieces;
mod laws;
mod list_laws;
mod list_making;
mod lists;
mod operand;
mod pieces;
mod reader;
mod runs;
mod scan;
mod spelled;
mod substitutions;

pub use laws::{first_is_one, split_is_one};
pub use list_laws::{list_is_one, made_list_reads_back};
pub use list_making::list_text;
pub use lists::list_items;
pub use operand::{braced_operand, quoted_operand, script_operand, variable_operand};
pub use reader::{next_command, split};
pub use scan::{continues, is_space, stands_at};
pub use source_types::{Command, Next, Part, Word};
pub use spelled::Spelled;
