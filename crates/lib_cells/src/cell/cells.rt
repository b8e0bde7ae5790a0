//! The cells of a library (Liberty, `cell`).

ghost use Rattle.std.specs.Prelude.{◌≡◌, ◌≤◌, codes, false, length, map, IfOk};
ghost use Rattle.library_model.specs.LibertyArcs as liberty;
ghost use Rattle.library_model.specs.LibertyCells as cells;
ghost use Rattle.library_model.specs.LibertyStatements.{last_value as the_last, members as all_members};
ghost use Rattle.lib_cells.specs.CellFacts.{Describes};
ghost use Rattle.lib_cells.specs.CellValues.{has_wide, pin_value, refused};
ghost use Rattle.lib_cells.specs.Members.{member_seen, members_seen};
ghost use Rattle.lib_cells.specs.Seen.{statements_seen};

use crate::cell::arcs::arcs_of;
use crate::cell::cell_names::{CellNames, cell_names};
use crate::cell::checks::checks_of;
use crate::cell::functions::{function_of, is_wide};
use crate::cell::launches::has_two_launches;
use crate::cell::pins::{Pin, pin_groups};
use crate::cell::related::related_pins;
use crate::syntax::members::{Member, last_value, members};
use crate::syntax::said::arguments;
use crate::syntax::statements::Statement;
use bool_lanes::Names;
use pin_types::{LibCell, LibPin};
use sdc_base::{Duplicate, List, NoMemory, Text};
use std::alloc::Global;

/// The name of a cell: its first argument, and the empty text where there is none. The one error is want of memory.
pub fn name_of(alloc: Global, cell: &Member<'_>) -> Result<Text, NoMemory>
    ensures { IfOk result (λ name. name ≡ cells.name_of (member_seen cell.now)) }
{
    let names = arguments(alloc, cell.statement)?;
    match names.as_slice() {
        [] => Ok(Text::new(alloc)),
        [name, ..] => name.copy(alloc),
    }
}

/// The bytes of the name of a cell. The one error is want of memory.
pub fn name_bytes(alloc: Global, cell: &Member<'_>) -> Result<List<u8>, NoMemory>
    ensures { IfOk result (λ name. name ≡ cells.name_of (member_seen cell.now)) }
{
    let name = name_of(alloc, cell)?;
    let mut bytes = List::new(alloc);
    bytes.extend_from_slice(name.as_bytes())?;
    Ok(bytes)
}

/// The text of the function of a `pin` group, given what stands in it. The one error is want of memory.
fn function_text(alloc: Global, inside: &[Statement<'_>]) -> Result<Option<Text>, NoMemory>
    ensures { IfOk result (λ text. text ≡ the_last (codes "function") (all_members 3 (statements_seen inside.now))) }
{
    let parts = members(alloc, 3, inside)?;
    last_value(alloc, "function", parts.as_slice())
}

/// A pin of a cell. The one error is want of memory.
fn lib_pin(alloc: Global, known: &CellNames<'_>, pin: &Pin<'_>) -> Result<LibPin, NoMemory>
    requires { length known.now.function_names ≤ 60001 }
    ensures { IfOk result (λ p. p ≡ pin_value known.now.function_names known.now.input_places.items pin.now) }
{
    let name = pin.name().copy(alloc)?;
    let text = function_text(alloc, pin.inside())?;
    let function = function_of(
        alloc,
        &known.function_names,
        known.input_places.as_slice(),
        &text,
    )?;
    Ok(LibPin {
        name,
        direction: pin.direction(),
        function,
    })
}

/// The pins of a cell. The one error is want of memory.
fn lib_pins(alloc: Global, known: &CellNames<'_>) -> Result<List<LibPin>, NoMemory>
    requires { length known.now.function_names ≤ 60001 }
    ensures { IfOk result (λ pins. pins ≡ map (pin_value known.now.function_names known.now.input_places.items) known.now.pins.items) }
{
    let mut pins = List::new(alloc);
    for pin in known.pins.as_slice() {
        let pin = lib_pin(alloc, known, pin)?;
        pins.push(pin)?;
    }
    Ok(pins)
}

/// Whether one of some `pin` groups has a function of too many inputs. The one error is want of memory.
fn has_wide_function(alloc: Global, names: &Names, groups: &[Member<'_>]) -> Result<bool, NoMemory>
    requires { length names.now ≤ 60001 }
    ensures { IfOk result (λ wide. wide ≡ has_wide names.now (members_seen groups.now)) }
{
    for group in groups {
        let text = function_text(alloc, group.inside)?;
        if is_wide(alloc, names, &text)? {
            return Ok(true);
        }
    }
    Ok(false)
}

/// A refused cell keeps its name alone.
fn refused_cell(alloc: Global, name: Text) -> LibCell
    ensures { result ≡ refused name }
{
    LibCell {
        name,
        pins: List::new(alloc),
        arcs: List::new(alloc),
        checks: List::new(alloc),
        refused: true,
    }
}

/// A cell that is not left out. The one error is want of memory.
#[tactic(auto, using(crate::proofs::CellLemmas::cell_wide, crate::proofs::CellLemmas::cell_launched, crate::proofs::CellLemmas::cell_whole, crate::proofs::CellLemmas::known_few, crate::proofs::CellLemmas::pins_few))]
fn known_cell(
    alloc: Global,
    cell: &Member<'_>,
    known: &CellNames<'_>,
    name: Text,
) -> Result<LibCell, NoMemory>
    requires named { name ≡ cells.name_of (member_seen cell.now) }
    requires taken { cells.is_left_out (member_seen cell.now) ≡ false }
    requires describes { Describes known.now (member_seen cell.now) }
    ensures { IfOk result (λ c. c ≡ liberty.lib_cell (member_seen cell.now)) }
{
    let groups = pin_groups(alloc, cell)?;
    if has_wide_function(alloc, &known.function_names, groups.as_slice())? {
        return Ok(refused_cell(alloc, name));
    }
    let related = related_pins(alloc, &known.places, known.pins.as_slice())?;
    let arcs = arcs_of(alloc, known.pins.as_slice(), related.as_slice())?;
    if has_two_launches(alloc, known.pins.as_slice(), arcs.as_slice())? {
        return Ok(refused_cell(alloc, name));
    }
    let pins = lib_pins(alloc, known)?;
    let checks = checks_of(alloc, related.as_slice())?;
    Ok(LibCell {
        name,
        pins,
        arcs: List::from(arcs),
        checks,
        refused: false,
    })
}

/// A cell of a library: its name alone where it is refused. The one error is want of memory.
#[tactic(auto, using(crate::proofs::CellLemmas::cell_left_out))]
pub fn lib_cell(alloc: Global, cell: &Member<'_>) -> Result<LibCell, NoMemory>
    ensures { IfOk result (λ c. c ≡ liberty.lib_cell (member_seen cell.now)) }
{
    let name = name_of(alloc, cell)?;
    match cell_names(alloc, cell)? {
        None => Ok(refused_cell(alloc, name)),
        Some(known) => known_cell(alloc, cell, &known, name),
    }
}
