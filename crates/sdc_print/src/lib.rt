//! Printing: the constraint file (SDC 2.1) that a design and a mode are written as.
//!
//! It gives the layer above `print`, the bytes of the file, `printed_length`, their number without making them, and
//! `length_with_group`, that of a front and one line of exclusive clocks. All run the same code, into a `Sink` that
//! keeps the bytes or counts them. How each line looks is defined in `mode_model`. It leaves reading the file back to
//! the crates that read, and writing it to the caller.
#![tactic(auto)]

mod clock_printing;
mod file_law;
mod group_printing;
mod line_laws;
mod printing;
mod sinks;
mod word_printing;

pub use file_law::printed_files_read_back;
pub use line_laws::lines_are_commands;
pub use printing::{length_with_group, print, printed_length};
