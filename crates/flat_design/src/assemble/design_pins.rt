//! The pins of a design, made of their names and rows.

ghost use Rattle.std.specs.Prelude.{◌≡◌, IfOk, length};
ghost use Rattle.std.specs.List.{AllZip};
ghost use Rattle.flat_design.specs.DesignParts.{pin_infos};
ghost use Rattle.flat_design.specs.Hierarchy.{IsHierarchy, pins_of_design};
ghost use Rattle.flat_design.specs.PinRows.{AreEnds, IsPinRow};

use crate::assemble::cell_pins::add_cells;
use crate::assemble::pin_rows::PinRow;
use crate::assemble::port_pins::add_ports;
use crate::drivers::net_numbers::net_tables;
use crate::elaborate::hierarchy::Hierarchy;
use crate::elaborate::terminals::all_terminals;
use crate::items::item_at;
use sdc_base::{List, NoMemory, Text};
use std::alloc::Global;
use timing_types::{PinInfo, Source};

/// The rows of all pins, by the sources of all nets.
pub(crate) fn pin_rows(
    alloc: Global,
    design: &Hierarchy<'_>,
    ends: &[Source],
) -> Result<List<PinRow>, NoMemory>
    requires is { IsHierarchy design.now }
    requires ends { AreEnds design.now ends.now }
    ensures { IfOk result (AllZip (IsPinRow design.now) (pins_of_design design.now)) }
{
    let tables = net_tables(alloc, design.modules)?;
    let pins = all_terminals(alloc, design.library.cells.as_slice())?;
    let mut rows = List::new(alloc);
    add_ports(&mut rows, design, &tables, ends)?;
    add_cells(alloc, &mut rows, design, &tables, ends, &pins)?;
    Ok(rows)
}

/// Pins with these names and rows.
pub(crate) fn pins_of(
    alloc: Global,
    names: List<Text>,
    rows: &[PinRow],
) -> Result<List<PinInfo>, NoMemory>
    requires { length names ≡ length rows.now }
    ensures { IfOk result (λ pins. pins ≡ pin_infos names rows.now) }
{
    let mut pins = List::new(alloc);
    for name in Vec::from(names) {
        let row = item_at(rows, pins.len());
        pins.push(PinInfo {
            name,
            role: row.role,
            cell: row.cell,
            lib_pin: row.lib_pin,
            driver: row.driver,
        })?;
    }
    Ok(pins)
}
