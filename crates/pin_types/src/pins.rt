//! Pins, transitions, and the nodes and clock edges that are made of them. This project's own numbering.

use sdc_base::{Duplicate, NoMemory};
use std::alloc::Global;

/// A port bit or a cell pin, by its place in the design.
#[derive(Clone, Copy, Debug, PartialEq, Eq, PartialOrd, Ord)]
pub struct Pin(pub u32);

impl Duplicate for Pin {
    fn copy(&self, _alloc: Global) -> Result<Pin, NoMemory> {
        Ok(*self)
    }
}

/// A transition of a signal.
#[derive(Clone, Copy, Debug, PartialEq, Eq, PartialOrd, Ord)]
pub enum Edge {
    Rise,
    Fall,
}

impl Duplicate for Edge {
    fn copy(&self, _alloc: Global) -> Result<Edge, NoMemory> {
        Ok(*self)
    }
}

/// The side of a check: the greatest delay of a path (setup) or the least (hold).
#[derive(Clone, Copy, Debug, PartialEq, Eq, PartialOrd, Ord)]
pub enum Side {
    Setup,
    Hold,
}

impl Duplicate for Side {
    fn copy(&self, _alloc: Global) -> Result<Side, NoMemory> {
        Ok(*self)
    }
}

/// A pin with a transition.
#[derive(Clone, Copy, Debug, PartialEq, Eq, PartialOrd, Ord)]
pub struct Node {
    pub pin: Pin,
    pub edge: Edge,
}

impl Duplicate for Node {
    fn copy(&self, _alloc: Global) -> Result<Node, NoMemory> {
        Ok(*self)
    }
}

/// An edge of a clock, the clock by its place in the mode.
#[derive(Clone, Copy, Debug, PartialEq, Eq, PartialOrd, Ord)]
pub struct ClockEdge {
    pub clock: u32,
    pub edge: Edge,
}

impl Duplicate for ClockEdge {
    fn copy(&self, _alloc: Global) -> Result<ClockEdge, NoMemory> {
        Ok(*self)
    }
}
