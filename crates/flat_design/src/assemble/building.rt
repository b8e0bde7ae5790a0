//! The flat design of a hierarchy, or its first fault by names, sources and cells.

ghost use Rattle.std.specs.Prelude.{◌≡◌, map};
ghost use Rattle.std.specs.List.{flat_map};
ghost use Rattle.sdc_base.specs.Gives.{Meets};
ghost use Rattle.flat_model.specs.FlatNets.{net_name, nets_in};
ghost use Rattle.flat_design.specs.Building.{IsAssembled, IsBuilt};
ghost use Rattle.flat_design.specs.Hierarchy.{IsHierarchy, prefix_in, scopes_in};
ghost use Rattle.flat_design.specs.PinRows.{AreEnds};

use crate::assemble::design::design_of;
use crate::drivers::net_ends::net_ends;
use crate::elaborate::hierarchy::{Hierarchy, prefixes};
use crate::names::cell_faults::check_cells;
use crate::names::object_names::{cell_names, net_names};
use crate::names::pin_names::pin_names;
use sdc_base::{At, List, Stop, Text};
use source_types::DesignKind;
use std::alloc::Global;
use timing_types::{Design, Source};

/// The flat design of a hierarchy, or the first fault of a net or a cell.
pub(crate) fn build(alloc: Global, design: &Hierarchy<'_>) -> Result<Design, Stop<At<DesignKind>>>
    requires { IsHierarchy design.now }
    ensures { Meets result (IsBuilt design.now) }
{
    let prefixes = prefixes(alloc, design)?;
    let names = net_names(alloc, design, prefixes.as_slice())?;
    match net_ends(alloc, design, names.as_slice()) {
        Err(stop) => Err(stop),
        Ok(ends) => assemble(alloc, design, prefixes, names, ends.as_slice()),
    }
}

/// The flat design of a hierarchy, or the first fault of a cell. Nets are given by their names and their sources.
fn assemble(
    alloc: Global,
    design: &Hierarchy<'_>,
    prefixes: List<Text>,
    net_names: List<Text>,
    ends: &[Source],
) -> Result<Design, Stop<At<DesignKind>>>
    requires is { IsHierarchy design.now }
    requires prefixes { prefixes ≡ map prefix_in (scopes_in design.now) }
    requires nets { net_names ≡ map net_name (flat_map nets_in (scopes_in design.now)) }
    requires ends { AreEnds design.now ends.now }
    ensures { Meets result (IsAssembled design.now) }
{
    let cells = cell_names(alloc, design, prefixes.as_slice())?;
    // Pins take the most memory, and nothing reads prefixes any more.
    drop(prefixes);
    let pins = pin_names(alloc, design, cells.as_slice())?;
    match check_cells(alloc, design, cells.as_slice(), pins.as_slice()) {
        Err(stop) => Err(stop),
        Ok(()) => Ok(design_of(alloc, design, net_names, cells, pins, ends)?),
    }
}
