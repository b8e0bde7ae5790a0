//! The pins of the port bits of a design's top module, without their names.

ghost use Rattle.std.specs.Prelude.{OnOk, map};
ghost use Rattle.std.specs.List.{AllZip};
ghost use Rattle.flat_model.specs.FlatDesign.{port_pin, port_pins};
ghost use Rattle.netlist_model.specs.Ranges.{indices};
ghost use Rattle.flat_design.specs.Drivers.{HasPort};
ghost use Rattle.flat_design.specs.Hierarchy.{IsHierarchy};
ghost use Rattle.flat_design.specs.NetNumbers.{IsNetTable};
ghost use Rattle.flat_design.specs.PinRows.{AddsPins, AreEnds};

use crate::assemble::pin_drivers::port_driver;
use crate::assemble::pin_rows::{PinRow, port_role};
use crate::drivers::net_numbers::NetTable;
use crate::elaborate::hierarchy::Hierarchy;
use crate::items::item_at;
use crate::ranges::{index_at, width};
use sdc_base::{List, NoMemory};
use source_types::Port;
use timing_types::Source;

/// Adds the pins of the ports of the top module.
pub(crate) fn add_ports(
    rows: &mut List<PinRow>,
    design: &Hierarchy<'_>,
    tables: &[NetTable<'_>],
    ends: &[Source],
) -> Result<(), NoMemory>
    requires is { IsHierarchy design.now }
    requires tables { AllZip (λ m found. IsNetTable m.nets found) design.now.modules.now tables.now }
    requires ends { AreEnds design.now ends.now }
    ensures { OnOk result (AddsPins design.now (port_pins design.now.top.now) rows.old rows.new) }
{
    for place in 0..design.top.ports.len() {
        let port = item_at(design.top.ports.as_slice(), place);
        add_port(rows, design, tables, ends, port)?;
    }
    Ok(())
}

/// Adds the pins of the bits of a port of the top module.
fn add_port(
    rows: &mut List<PinRow>,
    design: &Hierarchy<'_>,
    tables: &[NetTable<'_>],
    ends: &[Source],
    port: &Port,
) -> Result<(), NoMemory>
    requires is { IsHierarchy design.now }
    requires tables { AllZip (λ m found. IsNetTable m.nets found) design.now.modules.now tables.now }
    requires ends { AreEnds design.now ends.now }
    requires port { HasPort design.now 0 port.now }
    ensures { OnOk result (AddsPins design.now (map (port_pin port.now) (indices port.now.range)) rows.old rows.new) }
{
    let role = port_role(port.direction);
    for place in 0..width(port.range) {
        let index = index_at(port.range, place);
        let driver = port_driver(design, tables, ends, port, index);
        rows.push(PinRow {
            role,
            cell: None,
            lib_pin: 0,
            driver,
        })?;
    }
    Ok(())
}
