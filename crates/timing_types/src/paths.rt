//! Timing paths, and what exceptions and limits look at of one (SDC 2.1). This project's own forms.

use pin_types::{ClockEdge, Node};
use sdc_base::{Bits, Duplicate, List, NoMemory};
use std::alloc::Global;

/// A path with the clock edges that launch and capture it. `specs/TimingPath.antt` says which node lists are paths.
#[derive(Drop)]
pub struct Path {
    /// The nodes, the last one first: a path goes on in front, and is least where its list is, read from its end.
    pub nodes: List<Node>,
    pub launch: ClockEdge,
    pub capture: ClockEdge,
}

impl Duplicate for Path {
    fn copy(&self, alloc: Global) -> Result<Path, NoMemory> {
        let nodes = self.nodes.copy(alloc)?;
        Ok(Path {
            nodes,
            launch: self.launch,
            capture: self.capture,
        })
    }
}

/// What an exception looks at of a path: its ends, and which exceptions' through lists it meets.
#[derive(Drop)]
pub struct PathFacts {
    pub start: Node,
    pub last: Node,
    pub launch: ClockEdge,
    pub capture: ClockEdge,
    /// One truth value an exception: whether all its through lists are met, in order, at strictly later nodes.
    pub met: Bits,
}

impl Duplicate for PathFacts {
    fn copy(&self, alloc: Global) -> Result<PathFacts, NoMemory> {
        let met = self.met.copy(alloc)?;
        Ok(PathFacts {
            start: self.start,
            last: self.last,
            launch: self.launch,
            capture: self.capture,
            met,
        })
    }
}

/// The periods of a path's two clocks, in femtoseconds.
#[derive(Clone, Copy)]
pub struct Periods {
    pub launch: i64,
    pub capture: i64,
}

impl Duplicate for Periods {
    fn copy(&self, _alloc: Global) -> Result<Periods, NoMemory> {
        Ok(*self)
    }
}
