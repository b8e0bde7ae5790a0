//! The limits of paths, by where they begin and end. This project's own.

use pin_types::{ClockEdge, Node, Pin, Side};
use sdc_base::{Duplicate, List, NoMemory};
use std::alloc::Global;

/// What the paths of one class have in each view: a limit in femtoseconds where the view times them, and the place
/// of the exception that holds there.
#[derive(Drop)]
pub struct ClassResult {
    /// The place of the class at the key's last node.
    pub class: u64,
    pub limits: List<Option<i64>>,
    pub winners: List<Option<u32>>,
}

impl Duplicate for ClassResult {
    fn copy(&self, alloc: Global) -> Result<ClassResult, NoMemory> {
        let limits = self.limits.copy(alloc)?;
        let winners = self.winners.copy(alloc)?;
        Ok(ClassResult {
            class: self.class,
            limits,
            winners,
        })
    }
}

/// A key: paths with one start, one last node, one pair of clock edges and one side. The start is a port's node, or
/// the rising node of a register's pin, which then stands for both.
#[derive(Drop)]
pub struct KeyResult {
    pub start: Node,
    pub last: Node,
    pub launch: ClockEdge,
    pub capture: ClockEdge,
    pub side: Side,
    pub results: List<ClassResult>,
}

impl Duplicate for KeyResult {
    fn copy(&self, alloc: Global) -> Result<KeyResult, NoMemory> {
        let results = self.results.copy(alloc)?;
        Ok(KeyResult {
            start: self.start,
            last: self.last,
            launch: self.launch,
            capture: self.capture,
            side: self.side,
            results,
        })
    }
}

/// The keys with one end, one pair of clock edges and one side, by their places.
#[derive(Drop)]
pub struct RelationResult {
    pub end: Pin,
    pub launch: ClockEdge,
    pub capture: ClockEdge,
    pub side: Side,
    pub keys: List<u64>,
}

impl Duplicate for RelationResult {
    fn copy(&self, alloc: Global) -> Result<RelationResult, NoMemory> {
        let keys = self.keys.copy(alloc)?;
        Ok(RelationResult {
            end: self.end,
            launch: self.launch,
            capture: self.capture,
            side: self.side,
            keys,
        })
    }
}
