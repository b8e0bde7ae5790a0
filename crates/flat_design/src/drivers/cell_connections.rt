//! What the pins of a design's cells are connected to.

ghost use Rattle.std.specs.Prelude.{◌≡◌, ◌<◌, IfOk, Some, length, slice_get};
ghost use Rattle.std.specs.List.{All, AllZip};
ghost use Rattle.pin_types.specs.declared.library_cells.LibPin.{LibPin};
ghost use Rattle.flat_model.specs.Connections.{pins_of};
ghost use Rattle.flat_model.specs.FlatNets.{connected_pins};
ghost use Rattle.flat_model.specs.Instances.{PlacedCell};
ghost use Rattle.flat_design.specs.declared.elaborate.elaboration.CellRow.{CellRow};
ghost use Rattle.flat_design.specs.Connected.{IsLinkTable, shown};
ghost use Rattle.flat_design.specs.Drivers.{HasBit};
ghost use Rattle.flat_design.specs.Hierarchy.{IsHierarchy, cells_in};
ghost use Rattle.flat_design.specs.Tables.{IsTerminals};

use crate::drivers::connected::{connected_at, link_table};
use crate::elaborate::hierarchy::{Hierarchy, instance_at};
use crate::elaborate::terminals::Terminals;
use crate::items::item_at;
use crate::names::pin_names::kind_at;
use indexmap::IndexMap;
use sdc_base::{List, NoMemory};
use source_types::Bit;
use std::alloc::Global;

/// The places of the connections by name of the cell at a place.
pub(crate) fn cell_links<'a>(
    alloc: Global,
    design: &Hierarchy<'a>,
    cell: usize,
) -> Result<IndexMap<&'a str, usize>, NoMemory>
    requires is { IsHierarchy design.now }
    requires cell { cell < length design.now.elaboration.cells }
    ensures { (found : PlacedCell) → slice_get (cells_in design.now) cell ≡ Some found
        → IfOk result (IsLinkTable found.placed.instance.links) }
{
    let row = item_at(design.elaboration.cells.as_slice(), cell);
    let instance = instance_at(design, row.at);
    link_table(alloc, &instance.links)
}

/// The connection of the pin at a place of the cell at a place, where it has one, by tables of the pins of all library
/// cells and of the cell's connections.
pub(crate) fn connection_at<'a>(
    design: &Hierarchy<'a>,
    pins: &[Terminals<'_>],
    links: &IndexMap<&str, usize>,
    cell: usize,
    at: usize,
) -> Option<&'a List<Bit>>
    requires is { IsHierarchy design.now }
    requires pins { AllZip (λ kind found. IsTerminals (pins_of kind) found) design.now.library.now.cells pins.now }
    requires links { (found : PlacedCell) → slice_get (cells_in design.now) cell ≡ Some found → IsLinkTable found.placed.instance.links links.now }
    requires cell { cell < length design.now.elaboration.cells }
    requires pin { (found : PlacedCell) → slice_get (cells_in design.now) cell ≡ Some found → at < length found.kind.pins }
    ensures connected { (found : PlacedCell) (pin : LibPin) → slice_get (cells_in design.now) cell ≡ Some found
        → slice_get found.kind.pins at ≡ Some pin → slice_get (connected_pins found) at ≡ Some ((at, pin), shown result) }
    ensures bits { (row : CellRow) → slice_get design.now.elaboration.cells cell ≡ Some row → All (HasBit design.now row.at.scope) (shown result) }
{
    let row = item_at(design.elaboration.cells.as_slice(), cell);
    let kind = kind_at(design, cell);
    let pin = item_at(kind.pins.as_slice(), at);
    let known = item_at(pins, row.kind);
    let instance = instance_at(design, row.at);
    connected_at(&known.places, &instance.links, links, at, pin.name.as_str())
}
