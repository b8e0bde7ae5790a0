//! The run of a script (Tcl) over any host.
//!
//! It gives the layer above `eval`, which runs a script by the definitions of `tcl_model`, and the trait `Commands`, by
//! which a host answers every command that is not built in. It leaves to others what a host's commands do.
#![tactic(auto)]

mod commands;
mod expressions;
mod hosts;
mod laws;
mod running;
#[cfg(test)]
mod tests;

pub use hosts::Commands;
pub use laws::{expression_is_one, parse_is_one, runs_have_one_outcome};
pub use running::evaluation::eval;
