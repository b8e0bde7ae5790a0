//! Classes of paths: what all paths through a design have in common that limits look at. This project's own.

use crate::constraints::Exception;
use crate::graphs::Graph;
use pin_types::{ClockEdge, Node, both};
use sdc_base::{Bits, Duplicate, List, NoMemory};
use std::alloc::Global;

/// A start of paths with a clock edge that launches there.
#[derive(Clone, Copy)]
pub struct Launched {
    pub start: Node,
    pub launch: ClockEdge,
}

impl Duplicate for Launched {
    fn copy(&self, _alloc: Global) -> Result<Launched, NoMemory> {
        Ok(*self)
    }
}

/// How far a path has come in the through lists of an exception.
#[derive(Clone, Copy)]
pub struct Met {
    /// The place of the exception in its pool.
    pub exception: u32,
    /// How many of its lists are met in order: at least one.
    pub lists: u8,
}

impl Duplicate for Met {
    fn copy(&self, _alloc: Global) -> Result<Met, NoMemory> {
        Ok(*self)
    }
}

/// A class of paths from a start to a node.
#[derive(Drop)]
pub struct Class {
    pub launch: ClockEdge,
    pub start: Node,
    /// Bit m says whether all arcs so far are alive in mode m.
    pub modes: u16,
    /// By exception, those with through lists whose `from` holds and of which a list is met.
    pub progress: List<Met>,
}

impl Duplicate for Class {
    fn copy(&self, alloc: Global) -> Result<Class, NoMemory> {
        let progress = self.progress.copy(alloc)?;
        Ok(Class {
            launch: self.launch,
            start: self.start,
            modes: self.modes,
            progress,
        })
    }
}

/// The classes of all paths to each node, the nodes by number, each class once.
#[derive(Drop)]
pub struct ClassSets {
    pub at: List<List<Class>>,
}

impl Duplicate for ClassSets {
    fn copy(&self, alloc: Global) -> Result<ClassSets, NoMemory> {
        let at = self.at.copy(alloc)?;
        Ok(ClassSets { at })
    }
}

/// What classes are found over: a graph in topological order, with the arcs that are alive in the run and in each
/// mode, the starts of paths, and the exceptions of all modes.
#[derive(Drop)]
pub struct Pool {
    pub graph: Graph,
    pub order: List<Node>,
    /// One truth value an arc.
    pub alive: Bits,
    /// One truth value an arc, by mode: at most 16 modes.
    pub modes: List<Bits>,
    pub starts: List<Launched>,
    pub exceptions: List<Exception>,
}

impl Duplicate for Pool {
    fn copy(&self, alloc: Global) -> Result<Pool, NoMemory> {
        let (graph, order) = both(alloc, &self.graph, &self.order)?;
        let (alive, modes) = both(alloc, &self.alive, &self.modes)?;
        let (starts, exceptions) = both(alloc, &self.starts, &self.exceptions)?;
        Ok(Pool {
            graph,
            order,
            alive,
            modes,
            starts,
            exceptions,
        })
    }
}

/// More classes than this were found.
#[derive(Clone, Copy)]
pub struct Budget {
    pub limit: u64,
}

impl Duplicate for Budget {
    fn copy(&self, _alloc: Global) -> Result<Budget, NoMemory> {
        Ok(*self)
    }
}
