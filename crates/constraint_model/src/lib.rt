//! Modes: what a constraint file gives, and which modes are well-formed over a design (SDC 2.1).
//!
//! It gives waveforms, exclusive pairs, kept commands, modes apart from lines, and the limits of a run. It has no behaviour.
#![tactic(auto)]
