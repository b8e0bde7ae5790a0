//! The names of the pins of a design: those of the port bits of its top, then those of each cell.

ghost use Rattle.std.specs.Prelude.{◌≡◌, ◌++◌, ◌<◌, IfOk, OnOk, Some, length, map, slice_get};
ghost use Rattle.flat_model.specs.FlatFaults.{flat_pin_name};
ghost use Rattle.flat_model.specs.Instances.{PlacedCell};
ghost use Rattle.flat_design.specs.Hierarchy.{IsHierarchy, cell_name, cells_in, pin_names_in, pins_of_design, port_names};

use crate::elaborate::hierarchy::Hierarchy;
use crate::items::item_at;
use crate::names::full_names::pin_name;
use crate::names::object_names::add_bit_names;
use pin_types::{LibCell, LibPin};
use sdc_base::{List, NoMemory, Text};
use source_types::Port;
use std::alloc::Global;

/// The names of all pins, the cells being given by their names.
pub(crate) fn pin_names(
    alloc: Global,
    design: &Hierarchy<'_>,
    cell_names: &[Text],
) -> Result<List<Text>, NoMemory>
    requires is { IsHierarchy design.now }
    requires cells { cell_names.now ≡ map cell_name (cells_in design.now) }
    ensures { IfOk result (λ names. names ≡ map flat_pin_name (pins_of_design design.now)) }
{
    let mut names = port_names(alloc, design.top.ports.as_slice())?;
    for place in 0..cell_names.len() {
        let cell = item_at(cell_names, place);
        let kind = kind_at(design, place);
        add_pin_names(alloc, &mut names, cell.as_str(), kind.pins.as_slice())?;
    }
    Ok(names)
}

/// The library cell of the cell at a place.
pub(crate) fn kind_at<'a>(design: &Hierarchy<'a>, place: usize) -> &'a LibCell
    requires is { IsHierarchy design.now }
    requires within { place < length design.now.elaboration.cells }
    ensures { (cell : PlacedCell) → slice_get (cells_in design.now) place ≡ Some cell → result.now ≡ cell.kind }
{
    let row = item_at(design.elaboration.cells.as_slice(), place);
    item_at(design.library.cells.as_slice(), row.kind)
}

/// The names of the bits of ports.
fn port_names(alloc: Global, ports: &[Port]) -> Result<List<Text>, NoMemory>
    ensures { IfOk result (λ names. names ≡ port_names ports.now) }
{
    let mut names = List::new(alloc);
    for port in ports {
        add_bit_names(alloc, &mut names, "", port.name.as_str(), port.range)?;
    }
    Ok(names)
}

/// Adds the names of the pins of a cell.
fn add_pin_names(
    alloc: Global,
    names: &mut List<Text>,
    cell: &str,
    pins: &[LibPin],
) -> Result<(), NoMemory>
    ensures { OnOk result (names.new ≡ names.old ++ pin_names_in cell.now pins.now) }
{
    for pin in pins {
        let name = pin_name(alloc, cell, pin.name.as_str())?;
        names.push(name)?;
    }
    Ok(())
}
