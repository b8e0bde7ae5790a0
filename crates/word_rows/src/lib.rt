//! Tests of commands, words and lists from outside: small texts with their parts, as a reader of the Tcl rules splits
//! them by hand. The clauses of `next_command`, `split`, `list_items` and `list_text` say of any text what comes of it;
//! the rows show that they say what is meant, and that a call succeeds where there is memory.
#![tactic(auto)]

#[cfg(test)]
mod commands;
#[cfg(test)]
mod faults;
#[cfg(test)]
mod gaps;
#[cfg(test)]
mod lists;
#[cfg(test)]
mod words;
