//! The first fault in a cell of a library (Liberty, `function`, `related_pin`). What is refused is this project's own.
//!
//! Each function here has want of memory as its one error.

ghost use Rattle.std.specs.Prelude.{◌≡◌, ◌≤◌, codes, false, length, Err, IfOk};
ghost use Rattle.std.specs.List.{list_all};
ghost use Rattle.std.specs.Option.{is_some};
ghost use Rattle.function_model.specs.FunctionMeaning as function;
ghost use Rattle.library_model.specs.LibertyCells.{is_left_out};
ghost use Rattle.library_model.specs.LibertyFaults.{cell_faults, fault_at as the_fault, meaning_faults};
ghost use Rattle.library_model.specs.LibertyStatements.{value_named as the_value};
ghost use Rattle.lib_cells.specs.CellFacts.{Describes};
ghost use Rattle.lib_cells.specs.FirstFaults as faults;
ghost use Rattle.lib_cells.specs.Members.{member_seen, members_seen};
ghost use Rattle.bool_lanes.specs.NamedNumbers.{number_at};
ghost use Rattle.lib_cells.specs.Seen.{statement_seen};

use crate::cell::cell_names::{CellNames, cell_names};
use crate::cell::pins::pin_groups;
use crate::syntax::members::{Member, members};
use crate::syntax::said::{is_group, value_named};
use crate::syntax::statements::Statement;
use crate::syntax::words::words_of;
use bool_lanes::{Names, Numbers, parse_prepared};
use sdc_base::{At, List, NoMemory, Stop, Text};
use source_types::LibKind;
use std::alloc::Global;

/// A fault at a statement.
pub fn fault_at(statement: &Statement<'_>, kind: LibKind) -> At<LibKind>
    ensures { result ≡ the_fault (statement_seen statement.now) kind }
{
    At {
        line: statement.name.line,
        kind,
    }
}

/// The fault of a function that is refused: that it is none, or that it has a name of no pin.
fn refused_fault(statement: &Statement<'_>, kind: LibKind) -> Option<At<LibKind>>
    ensures { result ≡ faults.first (meaning_faults (statement_seen statement.now) (Err kind)) }
{
    match kind {
        LibKind::FunctionForm => Some(fault_at(statement, LibKind::FunctionForm)),
        LibKind::UnknownPin => Some(fault_at(statement, LibKind::UnknownPin)),
        LibKind::NotText => None,
        LibKind::LibForm => None,
        LibKind::FunctionWide => None,
        LibKind::DoubleCell => None,
    }
}

/// The fault of the text of a function, at its attribute.
fn text_fault(
    alloc: Global,
    names: &Names,
    statement: &Statement<'_>,
    text: &str,
) -> Result<Option<At<LibKind>>, NoMemory>
    requires { length names.now ≤ 60001 }
    ensures { IfOk result (λ fault. fault ≡ faults.first (meaning_faults (statement_seen statement.now) (function.meaning names.now text.now))) }
{
    match parse_prepared(alloc, text, names) {
        Ok(_) => Ok(None),
        Err(Stop::Refused(kind)) => Ok(refused_fault(statement, kind)),
        Err(Stop::NoMemory) => Err(NoMemory),
    }
}

/// The fault of a function, if a statement is one, at its attribute.
fn function_fault(
    alloc: Global,
    names: &Names,
    statement: &Statement<'_>,
) -> Result<Option<At<LibKind>>, NoMemory>
    requires { length names.now ≤ 60001 }
    ensures { IfOk result (λ fault. fault ≡ faults.function_fault names.now (statement_seen statement.now) (the_value (codes "function") (statement_seen statement.now))) }
{
    match value_named(alloc, "function", statement)? {
        None => Ok(None),
        Some(text) => text_fault(alloc, names, statement, text.as_str()),
    }
}

/// Whether all words are names of pins or state variables.
fn all_known(places: &Numbers, words: &[List<u8>]) -> bool
    ensures { result ≡ list_all (λ word. is_some (number_at places.now word)) words.now }
{
    words.iter().all(|word| places.get(word).is_some())
}

/// The fault of the related pins that a statement says, if it says any, at its attribute: a name that is no pin and no
/// state variable.
fn related_fault(
    alloc: Global,
    places: &Numbers,
    statement: &Statement<'_>,
) -> Result<Option<At<LibKind>>, NoMemory>
    ensures { IfOk result (λ fault. fault ≡ faults.related_fault places.now (statement_seen statement.now) (the_value (codes "related_pin") (statement_seen statement.now))) }
{
    let Some(text) = value_named(alloc, "related_pin", statement)? else {
        return Ok(None);
    };
    let words = words_of(alloc, text.as_bytes())?;
    if all_known(places, words.as_slice()) {
        return Ok(None);
    }
    Ok(Some(fault_at(statement, LibKind::UnknownPin)))
}

/// The first fault of what stands in a `timing` group.
fn related_faults(
    alloc: Global,
    places: &Numbers,
    parts: &[Member<'_>],
) -> Result<Option<At<LibKind>>, NoMemory>
    ensures { IfOk result (λ fault. fault ≡ faults.first_among (faults.related_member_fault places.now) (members_seen parts.now)) }
{
    for part in parts {
        if let Some(fault) = related_fault(alloc, places, part.statement)? {
            return Ok(Some(fault));
        }
    }
    Ok(None)
}

/// The first fault of a `timing` group of a pin; any other statement has none.
fn timing_fault(
    alloc: Global,
    places: &Numbers,
    member: &Member<'_>,
) -> Result<Option<At<LibKind>>, NoMemory>
    ensures { IfOk result (λ fault. fault ≡ faults.timing_fault places.now (member_seen member.now)) }
{
    if !is_group("timing", member.statement) {
        return Ok(None);
    }
    let parts = members(alloc, 4, member.inside)?;
    related_faults(alloc, places, parts.as_slice())
}

/// The first fault of what stands in a `pin` group.
fn member_fault(
    alloc: Global,
    names: &Names,
    places: &Numbers,
    member: &Member<'_>,
) -> Result<Option<At<LibKind>>, NoMemory>
    requires { length names.now ≤ 60001 }
    ensures { IfOk result (λ fault. fault ≡ faults.member_fault names.now places.now (member_seen member.now)) }
{
    if let Some(fault) = function_fault(alloc, names, member.statement)? {
        return Ok(Some(fault));
    }
    timing_fault(alloc, places, member)
}

/// The first fault of the parts of a `pin` group.
fn member_faults(
    alloc: Global,
    names: &Names,
    places: &Numbers,
    parts: &[Member<'_>],
) -> Result<Option<At<LibKind>>, NoMemory>
    requires { length names.now ≤ 60001 }
    ensures { IfOk result (λ fault. fault ≡ faults.first_among (faults.member_fault names.now places.now) (members_seen parts.now)) }
{
    for part in parts {
        if let Some(fault) = member_fault(alloc, names, places, part)? {
            return Ok(Some(fault));
        }
    }
    Ok(None)
}

/// The first fault of a `pin` group.
fn group_fault(
    alloc: Global,
    names: &Names,
    places: &Numbers,
    group: &Member<'_>,
) -> Result<Option<At<LibKind>>, NoMemory>
    requires { length names.now ≤ 60001 }
    ensures { IfOk result (λ fault. fault ≡ faults.group_fault names.now places.now (member_seen group.now)) }
{
    let parts = members(alloc, 3, group.inside)?;
    member_faults(alloc, names, places, parts.as_slice())
}

/// The first fault of `pin` groups.
fn group_faults(
    alloc: Global,
    names: &Names,
    places: &Numbers,
    groups: &[Member<'_>],
) -> Result<Option<At<LibKind>>, NoMemory>
    requires { length names.now ≤ 60001 }
    ensures { IfOk result (λ fault. fault ≡ faults.first_among (faults.group_fault names.now places.now) (members_seen groups.now)) }
{
    for group in groups {
        if let Some(fault) = group_fault(alloc, names, places, group)? {
            return Ok(Some(fault));
        }
    }
    Ok(None)
}

/// The first fault of a cell of which this is known.
#[tactic(auto, using(crate::proofs::FaultFacts::cell_known, crate::proofs::CellLemmas::known_few))]
fn known_fault(
    alloc: Global,
    cell: &Member<'_>,
    known: &CellNames<'_>,
) -> Result<Option<At<LibKind>>, NoMemory>
    requires taken { is_left_out (member_seen cell.now) ≡ false }
    requires describes { Describes known.now (member_seen cell.now) }
    ensures { IfOk result (λ fault. fault ≡ faults.first (cell_faults (member_seen cell.now))) }
{
    let groups = pin_groups(alloc, cell)?;
    group_faults(
        alloc,
        &known.function_names,
        &known.places,
        groups.as_slice(),
    )
}

/// The first fault of a cell: of a function or of a related pin, in the order of the text. A cell that is left out has
/// none.
#[tactic(auto, using(crate::proofs::FaultFacts::cell_left_out))]
pub fn cell_fault(alloc: Global, cell: &Member<'_>) -> Result<Option<At<LibKind>>, NoMemory>
    ensures { IfOk result (λ fault. fault ≡ faults.first (cell_faults (member_seen cell.now))) }
{
    match cell_names(alloc, cell)? {
        None => Ok(None),
        Some(known) => known_fault(alloc, cell, &known),
    }
}
