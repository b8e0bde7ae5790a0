//! The first fault of a library's text that is one of the grammar (Liberty, `time_unit`, `cell`). What is refused is
//! this project's own.
//!
//! Each function here has want of memory as its one error.

ghost use Rattle.std.specs.Prelude.{◌≡◌, codes, IfOk};
ghost use Rattle.library_model.specs.LibertyStatements.{value_named as the_value};
ghost use Rattle.lib_cells.specs.FirstFaults as faults;
ghost use Rattle.lib_cells.specs.Members.{member_seen, members_seen};
ghost use Rattle.lib_cells.specs.Seen.{statement_seen};

use crate::cell::cells::name_bytes;
use crate::library::cell_faults::{cell_fault, fault_at};
use crate::library::units::{is_other_unit, unit_named, unit_of};
use crate::syntax::members::{Member, members};
use crate::syntax::said::{is_group, value_named};
use crate::syntax::statements::Statement;
use bool_lanes::Numbers;
use sdc_base::{At, NoMemory};
use source_types::LibKind;
use std::alloc::Global;

/// The fault of a time unit, if a statement is one, at its attribute: that it is none that is taken.
fn unit_fault(alloc: Global, statement: &Statement<'_>) -> Result<Option<At<LibKind>>, NoMemory>
    ensures { IfOk result (λ fault. fault ≡ faults.unit_fault (statement_seen statement.now) (the_value (codes "time_unit") (statement_seen statement.now))) }
{
    let Some(name) = value_named(alloc, "time_unit", statement)? else {
        return Ok(None);
    };
    match unit_named(name.as_str()) {
        Some(_) => Ok(None),
        None => Ok(Some(fault_at(statement, LibKind::LibForm))),
    }
}

/// Whether there is a number, and it is below another.
fn is_below(first: Option<usize>, number: usize) -> bool
    ensures { result ≡ faults.is_below first number }
{
    match first {
        None => false,
        Some(first) => first < number,
    }
}

/// The fault of a cell that has the name of an earlier one.
fn double_fault(
    alloc: Global,
    numbers: &Numbers,
    cell: &Member<'_>,
) -> Result<Option<At<LibKind>>, NoMemory>
    ensures { IfOk result (λ fault. fault ≡ faults.double_fault numbers.now (member_seen cell.now)) }
{
    let name = name_bytes(alloc, cell)?;
    if is_below(numbers.get(&name), cell.statement.number) {
        return Ok(Some(fault_at(cell.statement, LibKind::DoubleCell)));
    }
    Ok(None)
}

/// The first fault of a cell; any other statement has none.
fn cell_part_fault(
    alloc: Global,
    numbers: &Numbers,
    part: &Member<'_>,
) -> Result<Option<At<LibKind>>, NoMemory>
    ensures { IfOk result (λ fault. fault ≡ faults.cell_part_fault numbers.now (member_seen part.now)) }
{
    if !is_group("cell", part.statement) {
        return Ok(None);
    }
    if let Some(fault) = double_fault(alloc, numbers, part)? {
        return Ok(Some(fault));
    }
    cell_fault(alloc, part)
}

/// The first fault of what stands in a `library` group.
fn part_fault(
    alloc: Global,
    numbers: &Numbers,
    part: &Member<'_>,
) -> Result<Option<At<LibKind>>, NoMemory>
    ensures { IfOk result (λ fault. fault ≡ faults.part_fault numbers.now (member_seen part.now)) }
{
    if let Some(fault) = unit_fault(alloc, part.statement)? {
        return Ok(Some(fault));
    }
    cell_part_fault(alloc, numbers, part)
}

/// The first fault of the parts of a `library` group.
fn part_faults(
    alloc: Global,
    numbers: &Numbers,
    parts: &[Member<'_>],
) -> Result<Option<At<LibKind>>, NoMemory>
    ensures { IfOk result (λ fault. fault ≡ faults.first_among (faults.part_fault numbers.now) (members_seen parts.now)) }
{
    for part in parts {
        if let Some(fault) = part_fault(alloc, numbers, part)? {
            return Ok(Some(fault));
        }
    }
    Ok(None)
}

/// The fault of a library of another unit than the first one has.
fn other_unit_fault(
    alloc: Global,
    unit: Option<u32>,
    library: &Member<'_>,
) -> Result<Option<At<LibKind>>, NoMemory>
    ensures { IfOk result (λ fault. fault ≡ faults.other_unit_fault unit (member_seen library.now)) }
{
    let own = unit_of(alloc, library)?;
    if is_other_unit(unit, own) {
        return Ok(Some(fault_at(library.statement, LibKind::LibForm)));
    }
    Ok(None)
}

/// The first fault of a library.
fn library_fault(
    alloc: Global,
    numbers: &Numbers,
    unit: Option<u32>,
    library: &Member<'_>,
) -> Result<Option<At<LibKind>>, NoMemory>
    ensures { IfOk result (λ fault. fault ≡ faults.library_fault numbers.now unit (member_seen library.now)) }
{
    if let Some(fault) = other_unit_fault(alloc, unit, library)? {
        return Ok(Some(fault));
    }
    let parts = members(alloc, 1, library.inside)?;
    part_faults(alloc, numbers, parts.as_slice())
}

/// The first fault of libraries in the order of the text.
pub fn first_fault(
    alloc: Global,
    numbers: &Numbers,
    unit: Option<u32>,
    libraries: &[Member<'_>],
) -> Result<Option<At<LibKind>>, NoMemory>
    ensures { IfOk result (λ fault. fault ≡ faults.first_among (faults.library_fault numbers.now unit) (members_seen libraries.now)) }
{
    for library in libraries {
        if let Some(fault) = library_fault(alloc, numbers, unit, library)? {
            return Ok(Some(fault));
        }
    }
    Ok(None)
}
