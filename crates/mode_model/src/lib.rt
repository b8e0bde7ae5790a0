//! What a mode file means, and how a mode is printed (SDC 2.1).
//!
//! It gives commands, the mode that a file says, and the printed file. It has no behaviour.
#![tactic(auto)]
