//! What the text of a cell's function means (Liberty, function).
//!
//! It gives the grammar of functions, their meaning and their value. It has no behaviour.
#![tactic(auto)]
