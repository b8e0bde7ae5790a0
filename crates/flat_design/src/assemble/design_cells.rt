//! The cells of a design.

ghost use Rattle.std.specs.Prelude.{◌≡◌, ◌<◌, ◌≤◌, ◌⊎◌, IfOk, OnErr, Some, length, map, slice_get};
ghost use Rattle.std.specs.List.{AllZip};
ghost use Rattle.flat_model.specs.FlatDesign.{FlatCell, IsCell};
ghost use Rattle.flat_model.specs.Instances.{PlacedCell};
ghost use Rattle.flat_design.specs.declared.elaborate.elaboration.CellRow.{CellRow};
ghost use Rattle.flat_design.specs.Hierarchy.{IsHierarchy, cell_name, cells_in};
ghost use Rattle.flat_design.specs.NamedFaults.{flat_of};

use crate::elaborate::hierarchy::Hierarchy;
use crate::items::item_at;
use crate::names::pin_names::kind_at;
use pin_types::Pin;
use sdc_base::{List, NoMemory, Text};
use std::alloc::Global;
use timing_types::CellInfo;

/// The cell at a place, by its name. No memory is taken: the one error, want of memory, is the answer where a number is
/// too large for a design.
fn cell_info(design: &Hierarchy<'_>, place: usize, name: Text) -> Result<CellInfo, NoMemory>
    requires is { IsHierarchy design.now }
    requires within { place < length design.now.elaboration.cells }
    ensures is { (cell : FlatCell) → slice_get (flat_of design.now).cells place ≡ Some cell
        → name ≡ cell_name cell.is → IfOk result (IsCell design.now.library.now cell) }
    ensures limit { (row : CellRow) (cell : PlacedCell) → slice_get design.now.elaboration.cells place ≡ Some row
        → slice_get (cells_in design.now) place ≡ Some cell
        → OnErr result ((4294967296 ≤ row.kind) ⊎ (65536 ≤ length cell.kind.pins)) }
{
    let row = item_at(design.elaboration.cells.as_slice(), place);
    let pins = kind_at(design, place).pins.len();
    let Ok(kind) = u32::try_from(row.kind) else {
        return Err(NoMemory);
    };
    let Ok(count) = u16::try_from(pins) else {
        return Err(NoMemory);
    };
    Ok(CellInfo {
        name,
        kind,
        first: Pin(row.first_pin as u32),
        count,
    })
}

/// All cells, by their names.
pub(crate) fn cells_of(
    alloc: Global,
    design: &Hierarchy<'_>,
    names: List<Text>,
) -> Result<List<CellInfo>, NoMemory>
    requires is { IsHierarchy design.now }
    requires names { names ≡ map cell_name (cells_in design.now) }
    ensures { IfOk result (AllZip (IsCell design.now.library.now) (flat_of design.now).cells) }
{
    let mut cells = List::new(alloc);
    for name in Vec::from(names) {
        let cell = cell_info(design, cells.len(), name)?;
        cells.push(cell)?;
    }
    Ok(cells)
}
