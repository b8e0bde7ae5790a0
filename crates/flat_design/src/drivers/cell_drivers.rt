//! What the output pins of cells drive.

ghost use Rattle.std.specs.Prelude.{◌<◌, ◌≡◌, OnOk, Some, length, slice_get};
ghost use Rattle.std.specs.List.{All, AllZip, filter_map};
ghost use Rattle.flat_model.specs.Connections.{pins_of};
ghost use Rattle.flat_model.specs.FlatNets.{cell_drivers, output_drivers};
ghost use Rattle.flat_model.specs.Instances.{PlacedCell};
ghost use Rattle.flat_design.specs.declared.elaborate.elaboration.CellRow.{CellRow};
ghost use Rattle.flat_design.specs.Connected.{shown};
ghost use Rattle.flat_design.specs.Drivers.{Adds, HasBit, pin_drive};
ghost use Rattle.flat_design.specs.Hierarchy.{IsHierarchy, cells_in};
ghost use Rattle.flat_design.specs.NetNumbers.{IsNetTable};
ghost use Rattle.flat_design.specs.Tables.{IsTerminals};

use crate::drivers::connected::{connected_at, link_table};
use crate::drivers::driver_edges::{Driver, DriverEdge, add_row, driven_net, row_of};
use crate::drivers::net_numbers::NetTable;
use crate::elaborate::hierarchy::{Hierarchy, instance_at};
use crate::elaborate::terminals::Terminals;
use crate::items::item_at;
use crate::names::pin_names::kind_at;
use pin_types::{Direction, LibPin};
use sdc_base::{List, NoMemory};
use source_types::Bit;
use std::alloc::Global;

/// Adds what the output pin at a place of the cell at a place drives, by the bits that it is connected to.
fn add_output(
    rows: &mut List<DriverEdge>,
    design: &Hierarchy<'_>,
    tables: &[NetTable<'_>],
    cell: usize,
    at: usize,
    connection: &[Bit],
) -> Result<(), NoMemory>
    requires is { IsHierarchy design.now }
    requires tables { AllZip (λ m found. IsNetTable m.nets found) design.now.modules.now tables.now }
    requires cell { cell < length design.now.elaboration.cells }
    requires pin { (found : PlacedCell) → slice_get (cells_in design.now) cell ≡ Some found → at < length found.kind.pins }
    requires bits { (row : CellRow) → slice_get design.now.elaboration.cells cell ≡ Some row → All (HasBit design.now row.at.scope) connection.now }
    ensures { (found : PlacedCell) → slice_get (cells_in design.now) cell ≡ Some found
        → OnOk result (Adds design.now (filter_map (pin_drive found at) connection.now) rows.old rows.new) }
{
    let row = item_at(design.elaboration.cells.as_slice(), cell);
    let number = row.first_pin + at as u64;
    for place in 0..connection.len() {
        let bit = item_at(connection, place);
        let to = driven_net(design, tables, row.at.scope, bit);
        let one = row_of(to, Some(Driver::Pin(number)));
        add_row(rows, one)?;
    }
    Ok(())
}

/// Adds what the pin at a place of the cell at a place drives, where it is an output with a connection.
fn add_pin(
    rows: &mut List<DriverEdge>,
    design: &Hierarchy<'_>,
    tables: &[NetTable<'_>],
    cell: usize,
    at: usize,
    pin: &LibPin,
    connection: Option<&List<Bit>>,
) -> Result<(), NoMemory>
    requires is { IsHierarchy design.now }
    requires tables { AllZip (λ m found. IsNetTable m.nets found) design.now.modules.now tables.now }
    requires cell { cell < length design.now.elaboration.cells }
    requires pin { (found : PlacedCell) → slice_get (cells_in design.now) cell ≡ Some found → at < length found.kind.pins }
    requires bits { (row : CellRow) → slice_get design.now.elaboration.cells cell ≡ Some row → All (HasBit design.now row.at.scope) (shown connection) }
    ensures { (found : PlacedCell) → slice_get (cells_in design.now) cell ≡ Some found
        → OnOk result (Adds design.now (output_drivers found ((at, pin.now), shown connection.entry)) rows.old rows.new) }
{
    match pin.direction {
        Direction::Input => Ok(()),
        Direction::Other => Ok(()),
        Direction::Output => match connection {
            None => Ok(()),
            Some(bits) => add_output(rows, design, tables, cell, at, bits.as_slice()),
        },
    }
}

/// Adds what the cell at a place drives. Pins are given by tables of all library cells.
pub(crate) fn add_cell(
    alloc: Global,
    rows: &mut List<DriverEdge>,
    design: &Hierarchy<'_>,
    tables: &[NetTable<'_>],
    pins: &[Terminals<'_>],
    cell: usize,
) -> Result<(), NoMemory>
    requires is { IsHierarchy design.now }
    requires tables { AllZip (λ m found. IsNetTable m.nets found) design.now.modules.now tables.now }
    requires pins { AllZip (λ kind found. IsTerminals (pins_of kind) found) design.now.library.now.cells pins.now }
    requires cell { cell < length design.now.elaboration.cells }
    ensures { (found : PlacedCell) → slice_get (cells_in design.now) cell ≡ Some found
        → OnOk result (Adds design.now (cell_drivers found) rows.old rows.new) }
{
    let row = item_at(design.elaboration.cells.as_slice(), cell);
    let kind = kind_at(design, cell);
    let known = item_at(pins, row.kind);
    let instance = instance_at(design, row.at);
    let places = link_table(alloc, &instance.links)?;
    for place in 0..kind.pins.len() {
        let pin = item_at(kind.pins.as_slice(), place);
        let name = pin.name.as_str();
        let bits = connected_at(&known.places, &instance.links, &places, place, name);
        add_pin(rows, design, tables, cell, place, pin, bits)?;
    }
    Ok(())
}
