//! What a mode says of pins, ports and paths (SDC 2.1), all times in whole femtoseconds.

use pin_types::{ClockEdge, Edge, Pin, Side, both};
use sdc_base::{Duplicate, List, NoMemory};
use std::alloc::Global;

/// A pin that is set to a value (`set_case_analysis`).
#[derive(Clone, Copy)]
pub struct CaseSet {
    pub line: u32,
    pub pin: Pin,
    pub value: bool,
}

impl Duplicate for CaseSet {
    fn copy(&self, _alloc: Global) -> Result<CaseSet, NoMemory> {
        Ok(*self)
    }
}

/// A pin, or a pair of pins of one cell, whose arcs are disabled (`set_disable_timing`).
#[derive(Clone, Copy)]
pub enum Disable {
    Pin { line: u32, pin: Pin },
    Between { line: u32, from: Pin, to: Pin },
}

impl Duplicate for Disable {
    fn copy(&self, _alloc: Global) -> Result<Disable, NoMemory> {
        Ok(*self)
    }
}

/// The delays outside a port to one clock edge, each where it is set (`set_input_delay`, `set_output_delay`).
#[derive(Clone, Copy)]
pub struct IoDelay {
    pub port: Pin,
    pub clock: ClockEdge,
    pub max_rise: Option<i64>,
    pub max_fall: Option<i64>,
    pub min_rise: Option<i64>,
    pub min_fall: Option<i64>,
}

impl Duplicate for IoDelay {
    fn copy(&self, _alloc: Global) -> Result<IoDelay, NoMemory> {
        Ok(*self)
    }
}

/// What an exception does to the paths that it matches.
#[derive(Clone, Copy)]
pub enum ExCommand {
    FalsePath,
    Delay,
    Multicycle,
}

impl Duplicate for ExCommand {
    fn copy(&self, _alloc: Global) -> Result<ExCommand, NoMemory> {
        Ok(*self)
    }
}

/// Where a path begins or ends: pins, with a transition, or clocks, with an edge.
#[derive(Drop)]
pub enum Points {
    Pins(Option<Edge>, List<Pin>),
    Clocks(Option<Edge>, List<u32>),
}

impl Duplicate for Points {
    fn copy(&self, alloc: Global) -> Result<Points, NoMemory> {
        match self {
            Points::Pins(edge, pins) => {
                let edge = edge.copy(alloc)?;
                let pins = pins.copy(alloc)?;
                Ok(Points::Pins(edge, pins))
            }
            Points::Clocks(edge, clocks) => {
                let edge = edge.copy(alloc)?;
                let clocks = clocks.copy(alloc)?;
                Ok(Points::Clocks(edge, clocks))
            }
        }
    }
}

/// Pins of which a path meets one, with a transition where one is given.
#[derive(Drop)]
pub struct Through {
    pub edge: Option<Edge>,
    pub pins: List<Pin>,
}

impl Duplicate for Through {
    fn copy(&self, alloc: Global) -> Result<Through, NoMemory> {
        let pins = self.pins.copy(alloc)?;
        Ok(Through {
            edge: self.edge,
            pins,
        })
    }
}

/// An exception of one side, as splitting gives it.
#[derive(Drop)]
pub struct Exception {
    /// The line of the command that it comes from.
    pub line: u32,
    pub command: ExCommand,
    pub side: Side,
    /// Femtoseconds of a delay, the number of a multicycle, 0 of a false path.
    pub value: i64,
    /// Whether a multicycle counts periods of the launch clock.
    pub by_launch: bool,
    /// The transition of the last node, where one is given.
    pub last: Option<Edge>,
    pub from: Option<Points>,
    pub through: List<Through>,
    pub to: Option<Points>,
}

impl Duplicate for Exception {
    fn copy(&self, alloc: Global) -> Result<Exception, NoMemory> {
        let through = self.through.copy(alloc)?;
        let (from, to) = both(alloc, &self.from, &self.to)?;
        Ok(Exception {
            line: self.line,
            command: self.command,
            side: self.side,
            value: self.value,
            by_launch: self.by_launch,
            last: self.last,
            from,
            through,
            to,
        })
    }
}
