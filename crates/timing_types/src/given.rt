//! Path exceptions as their commands give them (SDC 2.1), before they are split by side and by pins and clocks.

use crate::constraints::{ExCommand, Exception};
use crate::objects::Object;
use pin_types::Edge;
use sdc_base::{Duplicate, List, NoMemory};
use std::alloc::Global;

/// The sides that a command names.
#[derive(Clone, Copy)]
pub enum Sides {
    Unsaid,
    Setup,
    Hold,
    Both,
}

impl Duplicate for Sides {
    fn copy(&self, _alloc: Global) -> Result<Sides, NoMemory> {
        Ok(*self)
    }
}

/// The objects of an option, with a transition where the option names one.
#[derive(Drop)]
pub struct GivenPoints {
    pub edge: Option<Edge>,
    pub objects: List<Object>,
}

impl Duplicate for GivenPoints {
    fn copy(&self, alloc: Global) -> Result<GivenPoints, NoMemory> {
        let objects = self.objects.copy(alloc)?;
        Ok(GivenPoints {
            edge: self.edge,
            objects,
        })
    }
}

/// One command.
#[derive(Drop)]
pub struct Given {
    pub line: u32,
    pub command: ExCommand,
    pub sides: Sides,
    /// Femtoseconds of a delay, the number of a multicycle, 0 of a false path.
    pub value: i64,
    /// Whether a multicycle counts launch periods, where that is said.
    pub by_launch: Option<bool>,
    /// The transition of the last node, where one is given.
    pub last: Option<Edge>,
    pub from: Option<GivenPoints>,
    pub through: List<GivenPoints>,
    pub to: Option<GivenPoints>,
}

impl Duplicate for Given {
    fn copy(&self, alloc: Global) -> Result<Given, NoMemory> {
        let from = self.from.copy(alloc)?;
        let through = self.through.copy(alloc)?;
        let to = self.to.copy(alloc)?;
        Ok(Given {
            line: self.line,
            command: self.command,
            sides: self.sides,
            value: self.value,
            by_launch: self.by_launch,
            last: self.last,
            from,
            through,
            to,
        })
    }
}

/// The exceptions of one command, and whether it names an object that is no start or no end of paths.
#[derive(Drop)]
pub struct Normal {
    pub exceptions: List<Exception>,
    pub not_an_end: bool,
}

impl Duplicate for Normal {
    fn copy(&self, alloc: Global) -> Result<Normal, NoMemory> {
        let exceptions = self.exceptions.copy(alloc)?;
        Ok(Normal {
            exceptions,
            not_an_end: self.not_an_end,
        })
    }
}
