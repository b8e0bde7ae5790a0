//! The library that a text of the grammar is, or its first fault (Liberty).

ghost use Rattle.std.specs.Prelude.{◌≡◌, ◌++◌, codes, map, pos, IfOk, OnOk};
ghost use Rattle.sdc_base.specs.Gives.{Gives};
ghost use Rattle.library_model.specs.LibertyArcs.{lib_cell as the_cell};
ghost use Rattle.library_model.specs.LibertyFaults.{faults_of};
ghost use Rattle.library_model.specs.LibertyStatements.{groups as all_groups, members as all_members};
ghost use Rattle.library_model.specs.LibertyText.{library_if as the_library, unit_in as unit_or_none};
ghost use Rattle.lib_cells.specs.FirstFaults.{cells_in};
ghost use Rattle.lib_cells.specs.Members.{member_seen, members_seen};
ghost use Rattle.lib_cells.specs.CellNumbers.{HasCells};
ghost use Rattle.lib_cells.specs.Seen.{statements_seen};

use crate::cell::cells::{lib_cell, name_of};
use crate::library::library_faults::first_fault;
use crate::library::units::first_unit;
use crate::syntax::members::{Member, groups, members};
use crate::syntax::statements::Statement;
use bool_lanes::Numbers;
use pin_types::LibCell;
use sdc_base::{At, List, NoMemory, Stop};
use source_types::{LibKind, Library};
use std::alloc::Global;

/// Adds members. The one error is want of memory.
fn add_members<'a>(more: &[Member<'a>], found: &mut Vec<Member<'a>>) -> Result<(), NoMemory>
    ensures { OnOk result (members_seen found.new.items ≡ members_seen found.old.items ++ members_seen more.now) }
{
    for member in more {
        found.push(*member)?;
    }
    Ok(())
}

/// Adds the cells of a library. The one error is want of memory.
fn add_cells<'a>(
    alloc: Global,
    library: &Member<'a>,
    found: &mut Vec<Member<'a>>,
) -> Result<(), NoMemory>
    ensures { OnOk result (members_seen found.new.items ≡ members_seen found.old.items ++ all_groups (codes "cell") (all_members 1 (member_seen library.now).inside)) }
{
    let parts = members(alloc, 1, library.inside)?;
    let cells = groups(alloc, "cell", parts.as_slice())?;
    add_members(cells.as_slice(), found)
}

/// The cells of libraries, in the order of the text. The one error is want of memory.
fn cells_of<'a>(alloc: Global, libraries: &[Member<'a>]) -> Result<Vec<Member<'a>>, NoMemory>
    ensures { IfOk result (λ cells. members_seen cells.items ≡ cells_in (members_seen libraries.now)) }
{
    let mut found = Vec::new(alloc);
    for library in libraries {
        add_cells(alloc, library, &mut found)?;
    }
    Ok(found)
}

/// The least number of a cell of each name. The one error is want of memory.
#[tactic(auto, using(crate::proofs::CellNumberFacts::cells_none, crate::proofs::CellNumberFacts::cell_more, crate::proofs::CellNumberFacts::cells_all))]
fn numbers_of(alloc: Global, cells: &[Member<'_>]) -> Result<Numbers, NoMemory>
    ensures { IfOk result (λ numbers. HasCells numbers (members_seen cells.now)) }
{
    let mut numbers = Numbers::new(alloc);
    for cell in cells {
        let name = name_of(alloc, cell)?;
        numbers.add(alloc, &name, cell.statement.number)?;
    }
    Ok(numbers)
}

/// Cells as a library has them. The one error is want of memory.
fn lib_cells(alloc: Global, cells: &[Member<'_>]) -> Result<List<LibCell>, NoMemory>
    ensures { IfOk result (λ found. found ≡ map the_cell (members_seen cells.now)) }
{
    let mut found = List::new(alloc);
    for cell in cells {
        let cell = lib_cell(alloc, cell)?;
        found.push(cell)?;
    }
    Ok(found)
}

/// The unit in femtoseconds; where the first library has none, there is a fault.
fn unit_in(unit: Option<u32>) -> i64
    ensures { result ≡ pos (unit_or_none unit) }
{
    match unit {
        None => 0,
        Some(unit) => i64::from(unit),
    }
}

/// The library that the statements of a text of the grammar are, refused at its first fault: by line, on one line by
/// place. A fault of a function, a related pin or a unit stands at its attribute, a second cell of a name at this cell,
/// and a unit that is not the first library's at the later `library`. What is refused is this project's own.
#[tactic(auto, using(crate::proofs::LibraryLemmas::all_refused, crate::proofs::LibraryLemmas::all_sound))]
pub fn library_if(alloc: Global, statements: &[Statement<'_>]) -> Result<Library, Stop<At<LibKind>>>
    ensures { Gives result (the_library (statements_seen statements.now) (faults_of (statements_seen statements.now))) }
{
    let libraries = members(alloc, 0, statements)?;
    let cells = cells_of(alloc, libraries.as_slice())?;
    let numbers = numbers_of(alloc, cells.as_slice())?;
    let unit = first_unit(alloc, libraries.as_slice())?;
    if let Some(fault) = first_fault(alloc, &numbers, unit, libraries.as_slice())? {
        return Err(Stop::Refused(fault));
    }
    let cells = lib_cells(alloc, cells.as_slice())?;
    Ok(Library {
        unit: unit_in(unit),
        cells,
    })
}
