//! The first fault of the cells of a design: of their names, and of the names of their pins.

ghost use Rattle.std.specs.Prelude.{◌≡◌, ◌<◌, Some, length, map, nat_eq, slice_get};
ghost use Rattle.std.specs.List.{list_any};
ghost use Rattle.sdc_base.specs.Gives.{Meets};
ghost use Rattle.source_types.specs.declared.fault_kinds.DesignKind.TheVariants as fault;
ghost use Rattle.pin_types.specs.declared.library_cells.LibPin.{LibPin};
ghost use Rattle.flat_model.specs.FlatDesign.{FlatCell};
ghost use Rattle.flat_model.specs.FlatFaults.{CellHas, HasBadPin, HasPinTwice, cell_line, flat_pin_name};
ghost use Rattle.flat_design.specs.Hierarchy.{IsHierarchy, cell_name, cells_in, pins_of_design};
ghost use Rattle.flat_design.specs.NamedFaults.{AreMarks, AreSoundCells, IsFirstKind, Tells, flat_of};

use crate::elaborate::hierarchy::{Hierarchy, instance_at};
use crate::items::item_at;
use crate::names::name_marks::{NameMarks, has_set, has_unset, name_marks};
use crate::names::pin_names::kind_at;
use pin_types::LibPin;
use sdc_base::{At, Stop, Text};
use source_types::DesignKind;
use std::alloc::Global;

/// That no cell of a design has a fault, or the first one. Cells and pins are given by their names.
pub(crate) fn check_cells(
    alloc: Global,
    design: &Hierarchy<'_>,
    cell_names: &[Text],
    pin_names: &[Text],
) -> Result<(), Stop<At<DesignKind>>>
    requires is { IsHierarchy design.now }
    requires cells { cell_names.now ≡ map cell_name (cells_in design.now) }
    requires pins { pin_names.now ≡ map flat_pin_name (pins_of_design design.now) }
    ensures { Meets result (AreSoundCells (flat_of design.now)) }
{
    let cells = name_marks(alloc, cell_names)?;
    let pins = name_marks(alloc, pin_names)?;
    for place in 0..design.elaboration.cells.len() {
        if let Some(kind) = cell_fault(design, &cells, &pins, place) {
            let line = line_at(design, place);
            return Err(Stop::Refused(At { line, kind }));
        }
    }
    Ok(())
}

/// The first kind of fault that the cell at a place has, where it has one.
fn cell_fault(
    design: &Hierarchy<'_>,
    cells: &NameMarks,
    pins: &NameMarks,
    place: usize,
) -> Option<DesignKind>
    requires is { IsHierarchy design.now }
    requires cells { AreMarks (map cell_name (cells_in design.now)) cells.now }
    requires pins { AreMarks (map flat_pin_name (pins_of_design design.now)) pins.now }
    requires within { place < length design.now.elaboration.cells }
    ensures { (cell : FlatCell) → slice_get (flat_of design.now).cells place ≡ Some cell
        → IsFirstKind (CellHas (flat_of design.now) place cell) result }
{
    if has_name_twice(design, cells, pins, place) {
        return Some(DesignKind::DoubleName);
    }
    if has_bad_name(design, cells, pins, place) {
        return Some(DesignKind::BadName);
    }
    None
}

/// Whether the name of the cell at a place, or of one of its pins, stands before.
fn has_name_twice(design: &Hierarchy<'_>, cells: &NameMarks, pins: &NameMarks, place: usize) -> bool
    requires is { IsHierarchy design.now }
    requires cells { AreMarks (map cell_name (cells_in design.now)) cells.now }
    requires pins { AreMarks (map flat_pin_name (pins_of_design design.now)) pins.now }
    requires within { place < length design.now.elaboration.cells }
    ensures { (cell : FlatCell) → slice_get (flat_of design.now).cells place ≡ Some cell
        → Tells result (CellHas (flat_of design.now) place cell fault.DoubleName) }
{
    if *item_at(cells.repeats.as_slice(), place) {
        return true;
    }
    has_pin_twice(design, pins, place)
}

/// Whether the name of a pin of the cell at a place stands before.
fn has_pin_twice(design: &Hierarchy<'_>, pins: &NameMarks, place: usize) -> bool
    requires is { IsHierarchy design.now }
    requires pins { AreMarks (map flat_pin_name (pins_of_design design.now)) pins.now }
    requires within { place < length design.now.elaboration.cells }
    ensures { (cell : FlatCell) → slice_get (flat_of design.now).cells place ≡ Some cell
        → Tells result (HasPinTwice (flat_of design.now) cell) }
{
    let row = item_at(design.elaboration.cells.as_slice(), place);
    let kind = kind_at(design, place);
    let repeats = pins.repeats.as_slice();
    has_set(repeats, row.first_pin as usize, kind.pins.len())
}

/// Whether the name of the cell at a place, or of one of its pins, is bad.
fn has_bad_name(design: &Hierarchy<'_>, cells: &NameMarks, pins: &NameMarks, place: usize) -> bool
    requires is { IsHierarchy design.now }
    requires cells { AreMarks (map cell_name (cells_in design.now)) cells.now }
    requires pins { AreMarks (map flat_pin_name (pins_of_design design.now)) pins.now }
    requires within { place < length design.now.elaboration.cells }
    ensures { (cell : FlatCell) → slice_get (flat_of design.now).cells place ≡ Some cell
        → Tells result (CellHas (flat_of design.now) place cell fault.BadName) }
{
    if !*item_at(cells.good.as_slice(), place) {
        return true;
    }
    has_bad_pin(design, pins, place)
}

/// Whether the name of a pin of the cell at a place is bad, or empty in the library.
fn has_bad_pin(design: &Hierarchy<'_>, pins: &NameMarks, place: usize) -> bool
    requires is { IsHierarchy design.now }
    requires pins { AreMarks (map flat_pin_name (pins_of_design design.now)) pins.now }
    requires within { place < length design.now.elaboration.cells }
    ensures { (cell : FlatCell) → slice_get (flat_of design.now).cells place ≡ Some cell → Tells result (HasBadPin cell) }
{
    let row = item_at(design.elaboration.cells.as_slice(), place);
    let kind = kind_at(design, place);
    if has_unnamed(kind.pins.as_slice()) {
        return true;
    }
    let good = pins.good.as_slice();
    has_unset(good, row.first_pin as usize, kind.pins.len())
}

/// Whether the name of one of these pins is empty.
fn has_unnamed(pins: &[LibPin]) -> bool
    ensures { result ≡ list_any (λ (pin : LibPin). nat_eq (length pin.name) 0) pins.now }
{
    pins.iter().any(|pin| pin.name.len() == 0)
}

/// The line of the cell at a place.
fn line_at(design: &Hierarchy<'_>, place: usize) -> u32
    requires is { IsHierarchy design.now }
    requires within { place < length design.now.elaboration.cells }
    ensures { (cell : FlatCell) → slice_get (flat_of design.now).cells place ≡ Some cell → result ≡ cell_line cell }
{
    let row = item_at(design.elaboration.cells.as_slice(), place);
    instance_at(design, row.at).line
}
