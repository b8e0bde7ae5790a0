//! What instances connect: the ports of a module and the pins of a library cell, by name and by place.

ghost use Rattle.std.specs.Prelude.{◌≡◌, IfOk, List, map, replicate};
ghost use Rattle.std.specs.List.{AllZip};
ghost use Rattle.flat_model.specs.Connections.{Terminal, pins_of, ports_of};
ghost use Rattle.netlist_model.specs.Ranges.{width};
ghost use Rattle.flat_design.specs.Tables.{IsTerminals};

use crate::names::named::table;
use crate::ranges::width;
use indexmap::IndexMap;
use pin_types::LibCell;
use sdc_base::{List, NoMemory};
use source_types::{Module, Port};
use std::alloc::Global;

/// The terminals of a module or a library cell: their places by name, and their widths by place.
#[derive(Drop)]
pub(crate) struct Terminals<'a> {
    pub(crate) places: IndexMap<&'a str, usize>,
    pub(crate) widths: List<u64>,
}

/// What has terminals.
pub(crate) trait HasTerminals {
    ghost terminals: { Self → List Terminal };

    /// The terminals.
    fn terminals(&self, alloc: Global) -> Result<Terminals<'_>, NoMemory>
        ensures { IfOk result (λ found. IsTerminals (terminals self.now) found) };
}

impl HasTerminals for Module {
    ghost terminals = { ports_of };

    fn terminals(&self, alloc: Global) -> Result<Terminals<'_>, NoMemory> {
        let ports = self.ports.as_slice();
        let places = table(alloc, ports)?;
        let widths = port_widths(alloc, ports)?;
        Ok(Terminals { places, widths })
    }
}

impl HasTerminals for LibCell {
    ghost terminals = { pins_of };

    fn terminals(&self, alloc: Global) -> Result<Terminals<'_>, NoMemory> {
        let pins = self.pins.as_slice();
        let places = table(alloc, pins)?;
        let widths = ones(alloc, pins.len())?;
        Ok(Terminals { places, widths })
    }
}

/// The widths of ports.
fn port_widths(alloc: Global, ports: &[Port]) -> Result<List<u64>, NoMemory>
    ensures { IfOk result (λ widths. widths ≡ map (λ port. width port.range) ports.now) }
{
    let mut widths = List::new(alloc);
    for port in ports {
        widths.push(width(port.range))?;
    }
    Ok(widths)
}

/// The widths of as many pins.
fn ones(alloc: Global, count: usize) -> Result<List<u64>, NoMemory>
    ensures { IfOk result (λ widths. widths ≡ replicate count 1) }
{
    Ok(List::from(vec![in alloc; 1; count]?))
}

/// The terminals of each thing.
pub(crate) fn all_terminals<T: HasTerminals>(
    alloc: Global,
    things: &[T],
) -> Result<Vec<Terminals<'_>>, NoMemory>
    ensures { IfOk result (λ all. AllZip (λ thing found. IsTerminals (T.terminals thing) found) things.now all.items) }
{
    let mut all = Vec::new(alloc);
    for thing in things {
        all.push(thing.terminals(alloc)?)?;
    }
    Ok(all)
}
