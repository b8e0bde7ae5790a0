//! The first fault of the nets of a design: of their names, and of what drives them.

ghost use Rattle.std.specs.Prelude.{◌≡◌, ◌<◌, IfOk, List, Some, false, get_or, length, map, slice_get, ℕ};
ghost use Rattle.std.specs.List.{flat_map};
ghost use Rattle.sdc_base.specs.Gives.{Meets};
ghost use Rattle.flat_model.specs.FlatNets.{net_name, nets_in};
ghost use Rattle.flat_design.specs.Cycles.{AreReturning};
ghost use Rattle.flat_design.specs.Hierarchy.{IsHierarchy, scopes_in};
ghost use Rattle.flat_design.specs.NamedFaults.{AreMarks, AreSoundNets, AreSourcesOf, IsFirstKind, NumberHas, flat_of};
ghost use Rattle.flat_design.specs.Searches.{TellsReturn};
ghost use Rattle.flat_design.specs.SourceTable.{IsLinked};

use crate::drivers::net_lines::line_of;
use crate::drivers::returning::returns;
use crate::drivers::source_table::{SourceTable, has_two};
use crate::elaborate::hierarchy::Hierarchy;
use crate::items::item_at;
use crate::names::name_marks::{NameMarks, name_marks};
use sdc_base::{At, NoMemory, Stop, Text};
use source_types::DesignKind;
use std::alloc::Global;

/// That no net of a design has a fault, or the first one. Nets are given by their names and what drives them; following
/// sources comes back to none but those that are marked.
pub(crate) fn check_nets(
    alloc: Global,
    design: &Hierarchy<'_>,
    net_names: &[Text],
    table: &SourceTable<'_>,
    returning: &[bool],
) -> Result<(), Stop<At<DesignKind>>>
    requires is { IsHierarchy design.now }
    requires names { net_names.now ≡ map net_name (flat_map nets_in (scopes_in design.now)) }
    requires linked { IsLinked table.now }
    requires nets { length table.now.last ≡ design.now.elaboration.nets }
    requires rows { AreSourcesOf design.now table.now.rows.now }
    requires returning { AreReturning table.now.rows.now (length table.now.last) returning.now }
    ensures { Meets result (AreSoundNets (flat_of design.now)) }
{
    let marks = name_marks(alloc, net_names)?;
    for net in 0..net_names.len() {
        let found = net_fault(alloc, &marks, table, returning, net)?;
        if let Some(kind) = found {
            let line = line_of(design, net);
            return Err(Stop::Refused(At { line, kind }));
        }
    }
    Ok(())
}

/// The first kind of fault that the net of a number has, where it has one.
fn net_fault(
    alloc: Global,
    marks: &NameMarks,
    table: &SourceTable<'_>,
    returning: &[bool],
    net: usize,
) -> Result<Option<DesignKind>, NoMemory>
    requires repeats { net < length marks.now.repeats }
    requires good { net < length marks.now.good }
    requires linked { IsLinked table.now }
    requires within { net < length table.now.last }
    requires returning { AreReturning table.now.rows.now (length table.now.last) returning.now }
    ensures { IfOk result (λ found. (names : List (List ℕ)) (name : List ℕ) → AreMarks names marks.now
        → slice_get names net ≡ Some name → IsFirstKind (NumberHas names table.now.rows.now net name) found) }
{
    if *item_at(marks.repeats.as_slice(), net) {
        return Ok(Some(DesignKind::DoubleName));
    }
    if !*item_at(marks.good.as_slice(), net) {
        return Ok(Some(DesignKind::BadName));
    }
    if has_two(table, net) {
        return Ok(Some(DesignKind::TwoDrivers));
    }
    if comes_back(alloc, table, returning, net)? {
        return Ok(Some(DesignKind::AssignCycle));
    }
    Ok(None)
}

/// Whether following sources from a net comes back to it, as it does to none but those that are marked.
fn comes_back(
    alloc: Global,
    table: &SourceTable<'_>,
    returning: &[bool],
    net: usize,
) -> Result<bool, NoMemory>
    requires linked { IsLinked table.now }
    requires within { net < length table.now.last }
    requires returning { AreReturning table.now.rows.now (length table.now.last) returning.now }
    ensures { IfOk result (TellsReturn table.now.rows.now net) }
{
    if !is_marked(returning, net) {
        return Ok(false);
    }
    returns(alloc, table, net)
}

/// Whether a net is marked; after the last mark none is.
fn is_marked(marks: &[bool], net: usize) -> bool
    ensures { result ≡ get_or marks.now net false }
{
    net < marks.len() && marks[net]
}
