//! The pins of a design's cells, without their names.

ghost use Rattle.std.specs.Prelude.{◌≡◌, ◌<◌, ◌≤◌, ◌⊎◌, IfOk, OnErr, OnOk, Some, length, slice_get};
ghost use Rattle.std.specs.List.{All, AllZip, enumerate_from, flat_map};
ghost use Rattle.pin_types.specs.declared.library_cells.LibPin.{LibPin};
ghost use Rattle.flat_model.specs.Connections.{pins_of};
ghost use Rattle.flat_model.specs.FlatDesign.{cell_pin, cell_pins};
ghost use Rattle.flat_model.specs.Instances.{PlacedCell};
ghost use Rattle.flat_design.specs.declared.elaborate.elaboration.CellRow.{CellRow};
ghost use Rattle.flat_design.specs.Connected.{shown};
ghost use Rattle.flat_design.specs.Drivers.{HasBit};
ghost use Rattle.flat_design.specs.Hierarchy.{IsHierarchy, cells_in};
ghost use Rattle.flat_design.specs.NetNumbers.{IsNetTable};
ghost use Rattle.flat_design.specs.PinRows.{AddsPins, AreEnds, IsPinRow};
ghost use Rattle.flat_design.specs.Tables.{IsTerminals};

use crate::assemble::pin_drivers::pin_driver;
use crate::assemble::pin_rows::{PinRow, role_in_cell};
use crate::drivers::cell_connections::{cell_links, connection_at};
use crate::drivers::net_numbers::NetTable;
use crate::elaborate::hierarchy::Hierarchy;
use crate::elaborate::terminals::Terminals;
use crate::items::item_at;
use crate::names::pin_names::kind_at;
use sdc_base::{List, NoMemory};
use source_types::Bit;
use std::alloc::Global;
use timing_types::Source;

/// The row of the pin at a place of the cell at a place, by its connection. No memory is taken: the one error, want of
/// memory, is the answer where a number is too large for a design.
fn pin_row(
    design: &Hierarchy<'_>,
    tables: &[NetTable<'_>],
    ends: &[Source],
    cell: usize,
    at: usize,
    connection: Option<&List<Bit>>,
) -> Result<PinRow, NoMemory>
    requires is { IsHierarchy design.now }
    requires tables { AllZip (λ m found. IsNetTable m.nets found) design.now.modules.now tables.now }
    requires ends { AreEnds design.now ends.now }
    requires cell { cell < length design.now.elaboration.cells }
    requires pin { (found : PlacedCell) → slice_get (cells_in design.now) cell ≡ Some found → at < length found.kind.pins }
    requires bits { (row : CellRow) → slice_get design.now.elaboration.cells cell ≡ Some row → All (HasBit design.now row.at.scope) (shown connection) }
    ensures is { (found : PlacedCell) (pin : LibPin) → slice_get (cells_in design.now) cell ≡ Some found
        → slice_get found.kind.pins at ≡ Some pin
        → IfOk result (IsPinRow design.now (cell_pin cell found ((at, pin), shown connection.entry))) }
    ensures limit { OnErr result ((4294967296 ≤ cell) ⊎ (65536 ≤ at)) }
{
    let row = item_at(design.elaboration.cells.as_slice(), cell);
    let kind = kind_at(design, cell);
    let pin = item_at(kind.pins.as_slice(), at);
    let Ok(number) = u32::try_from(cell) else {
        return Err(NoMemory);
    };
    let Ok(lib_pin) = u16::try_from(at) else {
        return Err(NoMemory);
    };
    let role = role_in_cell(pin.direction);
    let driver = pin_driver(
        design,
        tables,
        ends,
        row.at.scope,
        pin.direction,
        connection,
    );
    Ok(PinRow {
        role,
        cell: Some(number),
        lib_pin,
        driver,
    })
}

/// Adds the pins of the cell at a place. Pins are given by tables of all library cells.
fn add_cell_pins(
    alloc: Global,
    rows: &mut List<PinRow>,
    design: &Hierarchy<'_>,
    tables: &[NetTable<'_>],
    ends: &[Source],
    pins: &[Terminals<'_>],
    cell: usize,
) -> Result<(), NoMemory>
    requires is { IsHierarchy design.now }
    requires tables { AllZip (λ m found. IsNetTable m.nets found) design.now.modules.now tables.now }
    requires ends { AreEnds design.now ends.now }
    requires pins { AllZip (λ kind found. IsTerminals (pins_of kind) found) design.now.library.now.cells pins.now }
    requires cell { cell < length design.now.elaboration.cells }
    ensures { (found : PlacedCell) → slice_get (cells_in design.now) cell ≡ Some found
        → OnOk result (AddsPins design.now (cell_pins (cell, found)) rows.old rows.new) }
{
    let kind = kind_at(design, cell);
    let links = cell_links(alloc, design, cell)?;
    for place in 0..kind.pins.len() {
        let connection = connection_at(design, pins, &links, cell, place);
        let row = pin_row(design, tables, ends, cell, place, connection)?;
        rows.push(row)?;
    }
    Ok(())
}

/// Adds the pins of all cells. Pins are given by tables of all library cells.
pub(crate) fn add_cells(
    alloc: Global,
    rows: &mut List<PinRow>,
    design: &Hierarchy<'_>,
    tables: &[NetTable<'_>],
    ends: &[Source],
    pins: &[Terminals<'_>],
) -> Result<(), NoMemory>
    requires is { IsHierarchy design.now }
    requires tables { AllZip (λ m found. IsNetTable m.nets found) design.now.modules.now tables.now }
    requires ends { AreEnds design.now ends.now }
    requires pins { AllZip (λ kind found. IsTerminals (pins_of kind) found) design.now.library.now.cells pins.now }
    ensures { OnOk result (AddsPins design.now (flat_map cell_pins (enumerate_from 0 (cells_in design.now))) rows.old rows.new) }
{
    for cell in 0..design.elaboration.cells.len() {
        add_cell_pins(alloc, rows, design, tables, ends, pins, cell)?;
    }
    Ok(())
}
