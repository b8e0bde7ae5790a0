//! What is known of a cell before its functions and arcs are read (Liberty, `cell`).

ghost use Rattle.std.specs.Prelude.{◌≡◌, ◌++◌, ◌≤◌, ◌+◌, length, map, nat_lt, IfOk, OnOk};
ghost use Rattle.bool_lanes.specs.NamedNumbers.{HasPlaces};
ghost use Rattle.library_model.specs.LibertyCells as liberty;
ghost use Rattle.lib_cells.specs.CellFacts.{HasNames, KnownIf};
ghost use Rattle.lib_cells.specs.Members.{member_seen};

use crate::cell::functions::{function_names, input_places};
use crate::cell::pins::{Pin, has_bus, pins_of, state_variables};
use crate::syntax::members::Member;
use bool_lanes::{Names, Numbers, places_of};
use sdc_base::{Duplicate, List, NoMemory, Text};
use std::alloc::Global;

/// The most pins and state variables of a cell that is read. This project's own limit.
const MOST_NAMES: usize = 60_000;

/// What is known of a cell that is not left out: its pins, the places of its pins and, after them, of its state
/// variables, the names that its functions are read with, and the places of the pins that are inputs of these.
#[derive(Drop)]
pub struct CellNames<'a> {
    pub pins: Vec<Pin<'a>>,
    pub places: Numbers,
    pub function_names: Names,
    pub input_places: Vec<u16>,
}

/// Adds the names of pins. The one error is want of memory.
fn add_pin_names(alloc: Global, pins: &[Pin<'_>], names: &mut List<Text>) -> Result<(), NoMemory>
    ensures { OnOk result (names.new ≡ names.old ++ map (λ (pin : liberty.NamedPin). pin.name) pins.now) }
{
    for pin in pins {
        let name = pin.name().copy(alloc)?;
        names.push(name)?;
    }
    Ok(())
}

/// Adds names. The one error is want of memory.
fn add_names(alloc: Global, more: &[Text], names: &mut List<Text>) -> Result<(), NoMemory>
    ensures { OnOk result (names.new ≡ names.old ++ more.now) }
{
    for name in more {
        let name = name.copy(alloc)?;
        names.push(name)?;
    }
    Ok(())
}

/// The places of pins and, after them, of state variables. The one error is want of memory.
fn all_places(alloc: Global, pins: &[Pin<'_>], states: &[Text]) -> Result<Numbers, NoMemory>
    ensures { IfOk result (λ places. HasPlaces places (map (λ (pin : liberty.NamedPin). pin.name) pins.now ++ states.now)) }
{
    let mut names = List::new(alloc);
    add_pin_names(alloc, pins, &mut names)?;
    add_names(alloc, states, &mut names)?;
    places_of(alloc, names.as_slice())
}

/// What is known of a cell that has these pins and state variables. The one error is want of memory.
fn described<'a>(
    alloc: Global,
    pins: Vec<Pin<'a>>,
    states: &[Text],
) -> Result<CellNames<'a>, NoMemory>
    requires { length pins.items + length states.now ≤ 60000 }
    ensures { IfOk result (λ known. HasNames known pins.entry.items states.now) }
{
    let places = all_places(alloc, pins.as_slice(), states)?;
    let function_names = function_names(alloc, pins.as_slice(), states)?;
    let input_places = input_places(alloc, pins.as_slice())?;
    Ok(CellNames {
        pins,
        places,
        function_names,
        input_places,
    })
}

/// What is known of a cell, and nothing where it is left out: where it has a `bus` or `bundle` or too many names. The
/// one error is want of memory.
pub fn cell_names<'a>(alloc: Global, cell: &Member<'a>) -> Result<Option<CellNames<'a>>, NoMemory>
    ensures { IfOk result (λ known. KnownIf known (member_seen cell.now)) }
{
    let pins = pins_of(alloc, cell)?;
    let states = state_variables(alloc, cell)?;
    if has_bus(alloc, cell)? || is_above_limit(pins.len(), states.len()) {
        return Ok(None);
    }
    let known = described(alloc, pins, states.as_slice())?;
    Ok(Some(known))
}

/// Whether there are more names than are taken.
fn is_above_limit(pins: usize, states: usize) -> bool
    ensures { result ≡ nat_lt 60000 (pins + states) }
{
    MOST_NAMES < pins.saturating_add(states)
}
