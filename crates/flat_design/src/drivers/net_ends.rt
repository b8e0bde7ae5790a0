//! The sources of all nets of a design, found by following what drives them, or the first fault of a net.

ghost use Rattle.std.specs.Prelude.{◌≡◌, IfOk, length, map};
ghost use Rattle.std.specs.List.{flat_map};
ghost use Rattle.sdc_base.specs.Gives.{Meets};
ghost use Rattle.flat_model.specs.Flattening.{FirstOfNets};
ghost use Rattle.flat_model.specs.FlatNets.{net_name, nets_in};
ghost use Rattle.flat_design.specs.Cycles.{AreReturning};
ghost use Rattle.flat_design.specs.Ends.{HaveEnds};
ghost use Rattle.flat_design.specs.Hierarchy.{IsHierarchy, scopes_in};
ghost use Rattle.flat_design.specs.NamedFaults.{flat_of};
ghost use Rattle.flat_design.specs.NetEnds.{AreFound, HasNetEnds, IsFaulty, IsTableOf, Refuses, TellsTwo};
ghost use Rattle.flat_design.specs.Sources.{AreWithin};
ghost use Rattle.flat_design.specs.SourceTable.{IsLinked};

use crate::drivers::all_drivers::all_drivers;
use crate::drivers::cycles::may_return;
use crate::drivers::ends::ends_of;
use crate::drivers::net_faults::check_nets;
use crate::drivers::source_table::{SourceTable, has_two, source_table};
use crate::elaborate::hierarchy::Hierarchy;
use sdc_base::{At, List, NoMemory, Stop, Text};
use source_types::DesignKind;
use std::alloc::Global;
use timing_types::Source;

/// The sources of all nets of a design in their order, or the first fault of a net. Nets are given by their names.
pub(crate) fn net_ends(
    alloc: Global,
    design: &Hierarchy<'_>,
    net_names: &[Text],
) -> Result<List<Source>, Stop<At<DesignKind>>>
    requires is { IsHierarchy design.now }
    requires names { net_names.now ≡ map net_name (flat_map nets_in (scopes_in design.now)) }
    ensures { Meets result (HasNetEnds design.now) }
{
    let rows = all_drivers(alloc, design)?;
    let table = source_table(alloc, rows.as_slice(), design.elaboration.nets as usize)?;
    let found = found_ends(alloc, &table)?;
    match found {
        None => {
            let returning = may_return(alloc, &table)?;
            Err(net_fault(alloc, design, net_names, &table, returning.as_slice()))
        }
        Some(ends) => sound_ends(alloc, design, net_names, &table, ends),
    }
}

/// The ends of following sources from each net, or nothing where a net has two sources or is its own source.
fn found_ends(alloc: Global, table: &SourceTable<'_>) -> Result<Option<List<Source>>, NoMemory>
    requires table { IsLinked table.now }
    requires within { AreWithin (length table.now.last) 4294967295 table.now.rows.now }
    ensures { IfOk result (AreFound table.now.rows.now (length table.now.last)) }
{
    if any_has_two(table) {
        return Ok(None);
    }
    Ok(ends_of(alloc, table)?)
}

/// Whether a net has two sources or more.
fn any_has_two(table: &SourceTable<'_>) -> bool
    requires { IsLinked table.now }
    ensures { TellsTwo table.now.rows.now (length table.now.last) result }
{
    for net in 0..table.last.len() {
        if has_two(table, net) {
            return true;
        }
    }
    false
}

/// The first fault of a net of a design in which there is one, or want of memory.
fn net_fault(
    alloc: Global,
    design: &Hierarchy<'_>,
    net_names: &[Text],
    table: &SourceTable<'_>,
    returning: &[bool],
) -> Stop<At<DesignKind>>
    requires is { IsHierarchy design.now }
    requires names { net_names.now ≡ map net_name (flat_map nets_in (scopes_in design.now)) }
    requires table { IsTableOf design.now table.now }
    requires faulty { IsFaulty table.now.rows.now (length table.now.last) }
    requires returning { AreReturning table.now.rows.now (length table.now.last) returning.now }
    ensures { Refuses result (FirstOfNets (flat_of design.now)) }
{
    match check_nets(alloc, design, net_names, table, returning) {
        Err(stop) => stop,
        Ok(()) => unreachable!(),
    }
}

/// The ends of following sources from each net, where no net has a fault by its name; or the first fault of a net.
fn sound_ends(
    alloc: Global,
    design: &Hierarchy<'_>,
    net_names: &[Text],
    table: &SourceTable<'_>,
    ends: List<Source>,
) -> Result<List<Source>, Stop<At<DesignKind>>>
    requires is { IsHierarchy design.now }
    requires names { net_names.now ≡ map net_name (flat_map nets_in (scopes_in design.now)) }
    requires table { IsTableOf design.now table.now }
    requires ends { HaveEnds table.now.rows.now (length table.now.last) ends }
    ensures { Meets result (HasNetEnds design.now) }
{
    match check_nets(alloc, design, net_names, table, &[]) {
        Err(stop) => Err(stop),
        Ok(()) => Ok(ends),
    }
}
