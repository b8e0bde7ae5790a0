//! Texts: bytes, lines, blanks, brackets and names, as all grammars above have them.
//!
//! It gives the definitions and the facts of lists, bytes and rows that each grammar leans on. It has no behaviour.
#![tactic(auto)]
