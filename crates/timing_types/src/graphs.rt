//! The timing graph of a design: nodes, joined by arcs, and the checks at its pins.
//! `specs/TimingGraph.antt` says which arcs and checks a design has. This project's own.

use pin_types::{Node, Pin, Side};
use sdc_base::{Duplicate, List, NoMemory};
use std::alloc::Global;

/// What an arc is: a net from its driver to a load, a path through a cell, or the step from a register's clock
/// pin to an output.
#[derive(Clone, Copy)]
pub enum ArcKind {
    Net,
    Cell,
    Launch,
}

impl Duplicate for ArcKind {
    fn copy(&self, _alloc: Global) -> Result<ArcKind, NoMemory> {
        Ok(*self)
    }
}

/// An arc of a graph, from a node to a node.
#[derive(Clone, Copy)]
pub struct Arc {
    pub from: Node,
    pub to: Node,
    pub kind: ArcKind,
}

impl Duplicate for Arc {
    fn copy(&self, _alloc: Global) -> Result<Arc, NoMemory> {
        Ok(*self)
    }
}

/// A check of a pin against a node of a clock pin.
#[derive(Clone, Copy)]
pub struct Check {
    /// The pin that is checked.
    pub end: Pin,
    pub clock: Node,
    pub side: Side,
}

impl Duplicate for Check {
    fn copy(&self, _alloc: Global) -> Result<Check, NoMemory> {
        Ok(*self)
    }
}

/// A timing graph.
#[derive(Drop)]
pub struct Graph {
    /// How many pins there are; each has two nodes.
    pub pins: u32,
    /// The arcs by `from`, then `to`, each once.
    pub arcs: List<Arc>,
    pub checks: List<Check>,
}

impl Duplicate for Graph {
    fn copy(&self, alloc: Global) -> Result<Graph, NoMemory> {
        let arcs = self.arcs.copy(alloc)?;
        let checks = self.checks.copy(alloc)?;
        Ok(Graph {
            pins: self.pins,
            arcs,
            checks,
        })
    }
}
