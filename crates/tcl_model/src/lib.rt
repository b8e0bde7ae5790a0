//! What a script means (Tcl): words, lists, expressions, built-in commands, and the run of a script.
//!
//! It gives the definitions that the readers of words and the run of scripts cite. It has no behaviour.
#![tactic(auto)]
