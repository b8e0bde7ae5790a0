//! The design that a hierarchy is, with the sources of its nets.

ghost use Rattle.std.specs.Prelude.{◌≡◌, IfOk, map};
ghost use Rattle.std.specs.List.{flat_map};
ghost use Rattle.flat_model.specs.FlatDesign.{IsFlatDesign};
ghost use Rattle.flat_model.specs.FlatFaults.{flat_pin_name};
ghost use Rattle.flat_model.specs.FlatNets.{net_name, nets_in};
ghost use Rattle.flat_design.specs.Hierarchy.{IsHierarchy, cell_name, cells_in, pins_of_design, scopes_in};
ghost use Rattle.flat_design.specs.NamedFaults.{flat_of};
ghost use Rattle.flat_design.specs.PinRows.{AreEnds};

use crate::assemble::design_cells::cells_of;
use crate::assemble::design_nets::nets_of;
use crate::assemble::design_pins::{pin_rows, pins_of};
use crate::elaborate::hierarchy::Hierarchy;
use sdc_base::{Duplicate, List, NoMemory, Text};
use std::alloc::Global;
use timing_types::{Design, Source};

/// The design with these names of nets, cells and pins, by the sources of all nets. Numbers of cells and of library
/// cells beyond 32 bits, and of pins of a library cell beyond 16 bits, are want of memory.
pub(crate) fn design_of(
    alloc: Global,
    design: &Hierarchy<'_>,
    net_names: List<Text>,
    cell_names: List<Text>,
    pin_names: List<Text>,
    ends: &[Source],
) -> Result<Design, NoMemory>
    requires is { IsHierarchy design.now }
    requires nets { net_names ≡ map net_name (flat_map nets_in (scopes_in design.now)) }
    requires cells { cell_names ≡ map cell_name (cells_in design.now) }
    requires pins { pin_names ≡ map flat_pin_name (pins_of_design design.now) }
    requires ends { AreEnds design.now ends.now }
    ensures { IfOk result (IsFlatDesign design.now.library.now (flat_of design.now)) }
{
    let nets = nets_of(alloc, net_names, ends)?;
    let cells = cells_of(alloc, design, cell_names)?;
    let rows = pin_rows(alloc, design, ends)?;
    let pins = pins_of(alloc, pin_names, rows.as_slice())?;
    let top = design.top.name.copy(alloc)?;
    let kinds = design.library.cells.copy(alloc)?;
    Ok(Design {
        top,
        unit: design.library.unit,
        pins,
        cells,
        nets,
        kinds,
    })
}
