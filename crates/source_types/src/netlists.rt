//! Modules of a netlist (IEEE 1364-2005), in the part of the language that is read here.

use pin_types::{Direction, both};
use sdc_base::{Duplicate, List, NoMemory, Text};
use std::alloc::Global;

/// The range of a vector, as it is written: from the left bit to the right one.
#[derive(Clone, Copy)]
pub struct Range {
    pub left: u32,
    pub right: u32,
}

impl Duplicate for Range {
    fn copy(&self, _alloc: Global) -> Result<Range, NoMemory> {
        Ok(*self)
    }
}

/// A port of a module.
#[derive(Drop)]
pub struct Port {
    pub name: Text,
    pub direction: Direction,
    pub range: Option<Range>,
}

impl Duplicate for Port {
    fn copy(&self, alloc: Global) -> Result<Port, NoMemory> {
        let name = self.name.copy(alloc)?;
        Ok(Port {
            name,
            direction: self.direction,
            range: self.range,
        })
    }
}

/// A net of a module, with the value that it is tied to where it is a supply.
#[derive(Drop)]
pub struct Wire {
    pub name: Text,
    pub range: Option<Range>,
    pub tie: Option<bool>,
}

impl Duplicate for Wire {
    fn copy(&self, alloc: Global) -> Result<Wire, NoMemory> {
        let name = self.name.copy(alloc)?;
        Ok(Wire {
            name,
            range: self.range,
            tie: self.tie,
        })
    }
}

/// A bit of a connection: of a net, or a constant, which has no value where it is `x` or `z`.
#[derive(Drop)]
pub enum Bit {
    Net { name: Text, index: Option<u32> },
    Constant(Option<bool>),
}

/// A named connection of an instance, its bits from the leftmost on.
#[derive(Drop)]
pub struct Link {
    pub port: Text,
    pub bits: List<Bit>,
}

impl Duplicate for Link {
    fn copy(&self, alloc: Global) -> Result<Link, NoMemory> {
        let port = self.port.copy(alloc)?;
        let bits = self.bits.copy(alloc)?;
        Ok(Link { port, bits })
    }
}

/// The connections of an instance, by order or by name. A connection without bits is empty.
#[derive(Drop)]
pub enum Links {
    Ordered(List<List<Bit>>),
    Named(List<Link>),
}

/// An instance of a module or a library cell.
#[derive(Drop)]
pub struct Instance {
    pub line: u32,
    pub kind: Text,
    pub name: Text,
    pub links: Links,
}

impl Duplicate for Instance {
    fn copy(&self, alloc: Global) -> Result<Instance, NoMemory> {
        let kind = self.kind.copy(alloc)?;
        let name = self.name.copy(alloc)?;
        let links = self.links.copy(alloc)?;
        Ok(Instance {
            line: self.line,
            kind,
            name,
            links,
        })
    }
}

/// An `assign`: the bits on its left are driven by those on its right.
#[derive(Drop)]
pub struct Assign {
    pub left: List<Bit>,
    pub right: List<Bit>,
}

impl Duplicate for Assign {
    fn copy(&self, alloc: Global) -> Result<Assign, NoMemory> {
        let left = self.left.copy(alloc)?;
        let right = self.right.copy(alloc)?;
        Ok(Assign { left, right })
    }
}

/// A module. Its nets begin with its ports, in order.
#[derive(Drop)]
pub struct Module {
    pub name: Text,
    pub line: u32,
    pub ports: List<Port>,
    pub nets: List<Wire>,
    pub instances: List<Instance>,
    pub assigns: List<Assign>,
}

impl Duplicate for Module {
    fn copy(&self, alloc: Global) -> Result<Module, NoMemory> {
        let name = self.name.copy(alloc)?;
        let (ports, nets) = both(alloc, &self.ports, &self.nets)?;
        let (instances, assigns) = both(alloc, &self.instances, &self.assigns)?;
        Ok(Module {
            name,
            line: self.line,
            ports,
            nets,
            instances,
            assigns,
        })
    }
}

impl Duplicate for Bit {
    fn copy(&self, alloc: Global) -> Result<Bit, NoMemory> {
        match self {
            Bit::Net { name, index } => {
                let name = name.copy(alloc)?;
                let index = index.copy(alloc)?;
                Ok(Bit::Net { name, index })
            }
            Bit::Constant(value) => {
                let value = value.copy(alloc)?;
                Ok(Bit::Constant(value))
            }
        }
    }
}

impl Duplicate for Links {
    fn copy(&self, alloc: Global) -> Result<Links, NoMemory> {
        match self {
            Links::Ordered(connections) => {
                let connections = connections.copy(alloc)?;
                Ok(Links::Ordered(connections))
            }
            Links::Named(links) => {
                let links = links.copy(alloc)?;
                Ok(Links::Named(links))
            }
        }
    }
}
