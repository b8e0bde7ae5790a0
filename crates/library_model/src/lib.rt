//! What the bytes of a library mean (Liberty).
//!
//! It gives tokens, grammar, statements, cells, arcs and faults, up to the meaning of the whole text. It has no behaviour.
#![tactic(auto)]
