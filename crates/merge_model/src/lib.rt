//! The merge of several modes: clock identity, requirements, need, excess, and the merged mode.
//!
//! It gives this project's own rules of merging. It has no behaviour.
#![tactic(auto)]
