//! Texts of tokens and the first syntax error in one, for any grammar that is given by a table (LL(1)).
//!
//! A grammar is a `Grammar`: which symbols stand after a token that a symbol begins with, and which symbols may be
//! nothing. It gives the layer above `first_error`, which says whether tokens are a text of the grammar and
//! else where their first syntax error is. It leaves to the grammars what their symbols and tokens are, and to the
//! readers above what
//! a text means.
#![tactic(auto)]

mod grammar;
mod laws;
mod recogniser;
mod stack;

pub use grammar::{Grammar, SyntaxError};
pub use laws::{error_is_one, machine_finds_the_error};
pub use recogniser::first_error;
