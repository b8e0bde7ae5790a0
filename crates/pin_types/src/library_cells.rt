//! Cells of a library (Liberty): their pins, with the functions of the outputs, their timing arcs and checks.

use crate::copies::both;
use crate::functions::Expr;
use crate::pins::{Edge, Side};
use sdc_base::{Duplicate, List, NoMemory, Text};
use std::alloc::Global;

/// The direction of a library pin (Liberty, `direction`).
#[derive(Clone, Copy, Debug)]
pub enum Direction {
    Input,
    Output,
    /// Any other word, as `inout` or `internal`, or no direction at all.
    Other,
}

impl Duplicate for Direction {
    fn copy(&self, _alloc: Global) -> Result<Direction, NoMemory> {
        Ok(*self)
    }
}

/// A pin of a library cell, with its function where it has one.
#[derive(Drop)]
pub struct LibPin {
    pub name: Text,
    pub direction: Direction,
    pub function: Option<Expr>,
}

impl Duplicate for LibPin {
    fn copy(&self, alloc: Global) -> Result<LibPin, NoMemory> {
        let name = self.name.copy(alloc)?;
        let function = self.function.copy(alloc)?;
        Ok(LibPin {
            name,
            direction: self.direction,
            function,
        })
    }
}

/// A timing arc of a library cell: its pins by their places, the pairs of transitions that it has, and whether
/// it launches from a register's clock pin.
#[derive(Clone, Copy)]
pub struct LibArc {
    pub from: u16,
    pub to: u16,
    pub rise_rise: bool,
    pub rise_fall: bool,
    pub fall_rise: bool,
    pub fall_fall: bool,
    pub launch: bool,
}

impl Duplicate for LibArc {
    fn copy(&self, _alloc: Global) -> Result<LibArc, NoMemory> {
        Ok(*self)
    }
}

/// A check of a library cell: of a pin against an edge of a clock pin.
#[derive(Clone, Copy)]
pub struct LibCheck {
    pub pin: u16,
    pub clock: u16,
    pub clock_edge: Edge,
    pub side: Side,
}

impl Duplicate for LibCheck {
    fn copy(&self, _alloc: Global) -> Result<LibCheck, NoMemory> {
        Ok(*self)
    }
}

/// A library cell.
#[derive(Drop)]
pub struct LibCell {
    pub name: Text,
    pub pins: List<LibPin>,
    pub arcs: List<LibArc>,
    pub checks: List<LibCheck>,
    /// Whether the cell has a form that is left out here. It then keeps its name alone, and no design uses it.
    pub refused: bool,
}

impl Duplicate for LibCell {
    fn copy(&self, alloc: Global) -> Result<LibCell, NoMemory> {
        let (name, pins) = both(alloc, &self.name, &self.pins)?;
        let (arcs, checks) = both(alloc, &self.arcs, &self.checks)?;
        Ok(LibCell {
            name,
            pins,
            arcs,
            checks,
            refused: self.refused,
        })
    }
}
