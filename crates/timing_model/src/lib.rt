//! Timing: from the graph of a design to the limits of its paths, and the classes of paths.
//!
//! It gives the definitions that graph, constants, arrivals, exceptions, classes and keys are proved against. It has no behaviour.
#![tactic(auto)]
