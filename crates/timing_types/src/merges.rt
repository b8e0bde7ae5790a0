//! The merged mode of several modes, with all that a report says of it. This project's own.

use crate::analyses::Cycle;
use crate::modes::Mode;
use crate::views::ClockMap;
use pin_types::{ClockEdge, ModeKind, Node, Pin, Side, both};
use sdc_base::{At, Duplicate, List, NoMemory, Text};
use std::alloc::Global;

/// A relation at an endpoint that the merged mode times without need or too strictly, on a path from the launch
/// to the endpoint. Limits are femtoseconds; none is a relation that no mode times.
#[derive(Drop)]
pub struct Listed {
    pub end: Pin,
    pub launch: ClockEdge,
    pub capture: ClockEdge,
    pub side: Side,
    pub path: List<Node>,
    pub merged: i64,
    pub required: Option<i64>,
}

impl Duplicate for Listed {
    fn copy(&self, alloc: Global) -> Result<Listed, NoMemory> {
        let path = self.path.copy(alloc)?;
        Ok(Listed {
            end: self.end,
            launch: self.launch,
            capture: self.capture,
            side: self.side,
            path,
            merged: self.merged,
            required: self.required,
        })
    }
}

/// A command of a mode, by the mode's place and the command's line, that the merged mode does not have.
#[derive(Drop)]
pub struct Left {
    pub mode: u32,
    pub line: u32,
    pub command: Text,
}

impl Duplicate for Left {
    fn copy(&self, alloc: Global) -> Result<Left, NoMemory> {
        let command = self.command.copy(alloc)?;
        Ok(Left {
            mode: self.mode,
            line: self.line,
            command,
        })
    }
}

/// The merged mode, its clocks with the modes' clocks that they are, the relations that it times without need or
/// too strictly, and the commands that it does not have.
#[derive(Drop)]
pub struct Merged {
    pub mode: Mode,
    pub clocks: ClockMap,
    pub listed: List<Listed>,
    pub left: List<Left>,
}

impl Duplicate for Merged {
    fn copy(&self, alloc: Global) -> Result<Merged, NoMemory> {
        let (mode, clocks) = both(alloc, &self.mode, &self.clocks)?;
        let (listed, left) = both(alloc, &self.listed, &self.left)?;
        Ok(Merged {
            mode,
            clocks,
            listed,
            left,
        })
    }
}

/// Why modes have no merged mode. `specs/Stops.antt` says when each comes.
#[derive(Drop)]
pub enum MergeStop {
    /// The mode of this place has no analysis over the design.
    Mode(u32, At<ModeKind>),
    /// The pin is a clock source in one mode, and a clock of another mode, in which it is none, arrives at it.
    Conflict {
        pin: Pin,
        source_mode: u32,
        passing_mode: u32,
    },
    /// The arcs that are alive in the merged mode have a loop.
    Loop(Cycle),
    /// There are more classes than this.
    Budget(u64),
}

impl Duplicate for MergeStop {
    fn copy(&self, alloc: Global) -> Result<MergeStop, NoMemory> {
        match self {
            MergeStop::Mode(mode, fault) => Ok(MergeStop::Mode(*mode, *fault)),
            MergeStop::Conflict {
                pin,
                source_mode,
                passing_mode,
            } => Ok(MergeStop::Conflict {
                pin: *pin,
                source_mode: *source_mode,
                passing_mode: *passing_mode,
            }),
            MergeStop::Loop(cycle) => {
                let cycle = cycle.copy(alloc)?;
                Ok(MergeStop::Loop(cycle))
            }
            MergeStop::Budget(budget) => Ok(MergeStop::Budget(*budget)),
        }
    }
}
