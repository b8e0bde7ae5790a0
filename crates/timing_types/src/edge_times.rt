//! Clock edges in time, and how two of them lie to each other.

use pin_types::Edge;
use sdc_base::{Duplicate, NoMemory, Text};
use std::alloc::Global;

/// The setup and the hold relation of a launch edge and a capture edge, in whole femtoseconds.
///
/// The rule is this project's own: `setup` is the least positive difference by which an edge of the capture clock
/// follows one of the launch clock, and `hold` the greatest difference that is not above 0.
/// `specs/Relation.antt` says so in full.
#[derive(Debug, Clone, Copy, PartialEq, Eq)]
pub struct Relation {
    /// How far the next capture edge is after a launch edge at the closest: above 0.
    pub setup: i64,
    /// How far a capture edge that is not after a launch edge is from it at the closest: 0 or less.
    pub hold: i64,
}

impl Duplicate for Relation {
    fn copy(&self, _alloc: Global) -> Result<Relation, NoMemory> {
        Ok(*self)
    }
}

/// An edge of a clock in time: the clock's name, which edge it is, when it comes first, and the clock's period,
/// in whole femtoseconds.
#[derive(Drop)]
pub struct TimedEdge {
    pub clock: Text,
    pub edge: Edge,
    pub time: i64,
    pub period: i64,
}
