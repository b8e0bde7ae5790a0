//! A design: what a flattened netlist says of its pins, cells and nets, by their places. This project's own numbering.

use pin_types::{LibCell, Pin, both};
use sdc_base::{Duplicate, List, NoMemory, Text};
use std::alloc::Global;

/// What a pin of a design is: a port bit of the top module, or a pin of a cell, by its direction.
#[derive(Clone, Copy)]
pub enum Role {
    InPort,
    OutPort,
    CellIn,
    CellOut,
    CellOther,
}

impl Duplicate for Role {
    fn copy(&self, _alloc: Global) -> Result<Role, NoMemory> {
        Ok(*self)
    }
}

/// What drives a pin or a net: nothing, a constant, or a pin.
#[derive(Clone, Copy)]
pub enum Source {
    Nothing,
    Zero,
    One,
    Pin(Pin),
}

impl Duplicate for Source {
    fn copy(&self, _alloc: Global) -> Result<Source, NoMemory> {
        Ok(*self)
    }
}

/// A pin of a design.
#[derive(Drop)]
pub struct PinInfo {
    pub name: Text,
    pub role: Role,
    /// The cell of a cell pin, by its place.
    pub cell: Option<u32>,
    /// The place of the pin among those of its library cell.
    pub lib_pin: u16,
    pub driver: Source,
}

impl Duplicate for PinInfo {
    fn copy(&self, alloc: Global) -> Result<PinInfo, NoMemory> {
        let name = self.name.copy(alloc)?;
        Ok(PinInfo {
            name,
            role: self.role,
            cell: self.cell,
            lib_pin: self.lib_pin,
            driver: self.driver,
        })
    }
}

/// A cell of a design: its library cell by its place, and its pins, which stand one after the other.
#[derive(Drop)]
pub struct CellInfo {
    pub name: Text,
    pub kind: u32,
    pub first: Pin,
    pub count: u16,
}

impl Duplicate for CellInfo {
    fn copy(&self, alloc: Global) -> Result<CellInfo, NoMemory> {
        let name = self.name.copy(alloc)?;
        Ok(CellInfo {
            name,
            kind: self.kind,
            first: self.first,
            count: self.count,
        })
    }
}

/// A net of a design.
#[derive(Drop)]
pub struct NetInfo {
    pub name: Text,
    pub source: Source,
}

impl Duplicate for NetInfo {
    fn copy(&self, alloc: Global) -> Result<NetInfo, NoMemory> {
        let name = self.name.copy(alloc)?;
        Ok(NetInfo {
            name,
            source: self.source,
        })
    }
}

/// A flattened design. Pins, cells, nets and library cells are named by their places in these lists.
#[derive(Drop)]
pub struct Design {
    /// The name of the top module.
    pub top: Text,
    /// The time unit of the library in femtoseconds.
    pub unit: i64,
    pub pins: List<PinInfo>,
    pub cells: List<CellInfo>,
    pub nets: List<NetInfo>,
    pub kinds: List<LibCell>,
}

impl Duplicate for Design {
    fn copy(&self, alloc: Global) -> Result<Design, NoMemory> {
        let top = self.top.copy(alloc)?;
        let (pins, cells) = both(alloc, &self.pins, &self.cells)?;
        let (nets, kinds) = both(alloc, &self.nets, &self.kinds)?;
        Ok(Design {
            top,
            unit: self.unit,
            pins,
            cells,
            nets,
            kinds,
        })
    }
}
