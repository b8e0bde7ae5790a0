//! What the bytes of a structural netlist mean (IEEE 1364-2005).
//!
//! It gives tokens, grammar, statements and nets, up to the meaning of the whole text. It has no behaviour.
#![tactic(auto)]
