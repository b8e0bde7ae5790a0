//! The kinds of fault of a netlist and of a design.

use sdc_base::{Duplicate, NoMemory};
use std::alloc::Global;
use thiserror::Error;

/// Faults of a netlist (IEEE 1364-2005).
#[derive(Clone, Copy, Debug, PartialEq, Eq, Error)]
pub enum VerilogKind {
    #[error("the file is no UTF-8 text")]
    NotText,
    #[error("no netlist has this form")]
    VerilogForm,
    #[error("a port has two directions")]
    InoutPort,
    #[error("two declarations have one name")]
    DoubleName,
    #[error("two sides have different widths")]
    WidthMismatch,
    #[error("a name is no net of its module")]
    UnknownNet,
}

impl Duplicate for VerilogKind {
    fn copy(&self, _alloc: Global) -> Result<VerilogKind, NoMemory> {
        Ok(*self)
    }
}

/// Faults of a design: of a netlist over a library.
#[derive(Clone, Copy, Debug, PartialEq, Eq, Error)]
pub enum DesignKind {
    #[error("a name is no module and no library cell")]
    UnknownModule,
    #[error("a module stands in itself")]
    ModuleCycle,
    #[error("a library cell has a form that is left out")]
    UnsupportedCell,
    #[error("a connection has another width than its port")]
    WidthMismatch,
    #[error("two objects have one name")]
    DoubleName,
    #[error("a name cannot be printed and read again")]
    BadName,
    #[error("a net has two drivers")]
    TwoDrivers,
    #[error("a net drives itself by assigns alone")]
    AssignCycle,
    #[error("more pins, instances or nets than are taken")]
    TooMany,
}

impl Duplicate for DesignKind {
    fn copy(&self, _alloc: Global) -> Result<DesignKind, NoMemory> {
        Ok(*self)
    }
}
