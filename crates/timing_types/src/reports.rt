//! What checking and explaining one mode give. This project's own.

use crate::analyses::Cycle;
use pin_types::{ClockEdge, ModeKind, Node, Pin, Side};
use sdc_base::{At, Duplicate, List, NoMemory};
use std::alloc::Global;

/// What a mode was found to lack.
#[derive(Clone, Copy)]
pub enum FindingKind {
    /// A command names no object.
    NoEffect,
    /// A command names an object that no path begins or ends at.
    NotAnEnd,
    /// A delay of a port names no clock.
    NoClock,
    /// An exception that matches no path.
    Unmatched,
    /// An exception that wins on no path.
    Shadowed,
    /// A clock pin of a register where no clock edge arrives.
    Unclocked,
    /// An input port without an input delay.
    InputWithoutDelay,
    /// An output port without an output delay.
    OutputWithoutDelay,
}

impl Duplicate for FindingKind {
    fn copy(&self, _alloc: Global) -> Result<FindingKind, NoMemory> {
        Ok(*self)
    }
}

/// A finding, at the line of a command or at a pin.
#[derive(Clone, Copy)]
pub struct Finding {
    pub kind: FindingKind,
    pub line: Option<u32>,
    pub pin: Option<Pin>,
}

impl Duplicate for Finding {
    fn copy(&self, _alloc: Global) -> Result<Finding, NoMemory> {
        Ok(*self)
    }
}

/// The strictest limit at an endpoint under two clock edges, with the path that has it.
#[derive(Drop)]
pub struct RelationReport {
    pub launch: ClockEdge,
    pub capture: ClockEdge,
    pub side: Side,
    /// Femtoseconds; none where no path is timed.
    pub limit: Option<i64>,
    /// The line of the exception that holds on the path, or 0.
    pub line: u32,
    /// From the start to the end.
    pub path: List<Node>,
}

impl Duplicate for RelationReport {
    fn copy(&self, alloc: Global) -> Result<RelationReport, NoMemory> {
        let path = self.path.copy(alloc)?;
        Ok(RelationReport {
            launch: self.launch,
            capture: self.capture,
            side: self.side,
            limit: self.limit,
            line: self.line,
            path,
        })
    }
}

/// All relations at an endpoint.
#[derive(Drop)]
pub struct Explained {
    pub end: Pin,
    pub relations: List<RelationReport>,
}

impl Duplicate for Explained {
    fn copy(&self, alloc: Global) -> Result<Explained, NoMemory> {
        let relations = self.relations.copy(alloc)?;
        Ok(Explained {
            end: self.end,
            relations,
        })
    }
}

/// Why a mode cannot be checked.
#[derive(Drop)]
pub enum CheckStop {
    Mode(At<ModeKind>),
    Loop(Cycle),
    /// More classes than this.
    Budget(u64),
}

/// Why an endpoint cannot be explained.
#[derive(Drop)]
pub enum ExplainStop {
    /// The name is no checked pin and no output port.
    NoEndpoint,
    Check(CheckStop),
}

impl Duplicate for CheckStop {
    fn copy(&self, alloc: Global) -> Result<CheckStop, NoMemory> {
        match self {
            CheckStop::Mode(fault) => Ok(CheckStop::Mode(*fault)),
            CheckStop::Loop(cycle) => {
                let cycle = cycle.copy(alloc)?;
                Ok(CheckStop::Loop(cycle))
            }
            CheckStop::Budget(budget) => Ok(CheckStop::Budget(*budget)),
        }
    }
}

impl Duplicate for ExplainStop {
    fn copy(&self, alloc: Global) -> Result<ExplainStop, NoMemory> {
        match self {
            ExplainStop::NoEndpoint => Ok(ExplainStop::NoEndpoint),
            ExplainStop::Check(stop) => {
                let stop = stop.copy(alloc)?;
                Ok(ExplainStop::Check(stop))
            }
        }
    }
}
