//! The findings of one mode, and the limits at an endpoint.
//!
//! It gives what `check` and `explain` answer, and why they refuse. It has no behaviour.
#![tactic(auto)]
