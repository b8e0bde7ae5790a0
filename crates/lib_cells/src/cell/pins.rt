//! The pins of a library cell, and its state variables (Liberty, `cell`, `pin`, `direction`, `ff`, `latch`).

ghost use Rattle.std.specs.Prelude.{◌≡◌, ◌++◌, map, take, IfOk, OnOk};
ghost use Rattle.std.specs.List.{list_any};
ghost use Rattle.library_model.specs.LibertyCells as liberty;
ghost use Rattle.library_model.specs.LibertyStatements.{arguments as all_arguments, members as all_members, Member as Group};
ghost use Rattle.lib_cells.specs.Members.{member_seen, members_seen};
ghost use Rattle.lib_cells.specs.Pins.{direction_said, is_bus_part, pins_in as pins_of_groups, states_among as the_states, states_in};
ghost use Rattle.lib_cells.specs.Seen.{statement_seen, statements_seen};

use crate::syntax::members::{Member, groups, last_value, members};
use crate::syntax::said::{arguments, is_group};
use crate::syntax::statements::Statement;
use pin_types::Direction;
use sdc_base::{Duplicate, List, NoMemory, Text};
use std::alloc::Global;
use std::marker::Model;

/// A pin of a cell: a name of a `pin` group. Contracts see the name and the group.
#[derive(Drop)]
pub struct Pin<'a> {
    name: Text,
    group: Member<'a>,
    direction: Direction,
}

impl<'a> Model for Pin<'a> {
    ghost use Rattle.std.specs.Prelude.{◌≡◌};
    ghost use Rattle.library_model.specs.LibertyCells.{NamedPin, direction_of};
    ghost use Rattle.lib_cells.specs.Members.{member_seen};

    ghost Value = { NamedPin };

    ghost view = { λ pin. record { name = pin.name; group = member_seen pin.group } };

    ghost invariant = { λ pin. pin.direction ≡ direction_of (record { name = pin.name; group = member_seen pin.group }) };
}

impl<'a> Pin<'a> {
    /// The name.
    pub fn name(&self) -> &Text
        ensures { result.now ≡ self.now.name }
    {
        &self.name
    }

    /// The direction.
    pub fn direction(&self) -> Direction
        ensures { result ≡ liberty.direction_of self.now }
    {
        self.direction
    }

    /// What stands in the `pin` group.
    pub fn inside(&self) -> &'a [Statement<'a>]
        ensures { statements_seen result.now ≡ self.now.group.inside }
    {
        self.group.inside
    }
}

/// A direction by its name.
fn direction_named(name: &Option<Text>) -> Direction
    ensures { result ≡ liberty.direction_named name.now }
{
    let Some(name) = name else {
        return Direction::Other;
    };
    if name.as_str() == "input" {
        Direction::Input
    } else if name.as_str() == "output" {
        Direction::Output
    } else {
        Direction::Other
    }
}

/// The direction that a `pin` group says. The one error is want of memory.
fn direction_in(alloc: Global, group: &Member<'_>) -> Result<Direction, NoMemory>
    ensures { IfOk result (λ direction. direction ≡ direction_said (member_seen group.now)) }
{
    let said = members(alloc, 3, group.inside)?;
    let name = last_value(alloc, "direction", said.as_slice())?;
    Ok(direction_named(&name))
}

/// Adds a pin for each of some names of a `pin` group that says this direction. The one error is want of memory.
fn add_names<'a>(
    alloc: Global,
    names: &[Text],
    group: &Member<'a>,
    direction: Direction,
    pins: &mut Vec<Pin<'a>>,
) -> Result<(), NoMemory>
    requires { direction ≡ direction_said (member_seen group.now) }
    ensures { OnOk result (pins.new.items ≡ pins.old.items ++ map (liberty.named_pin (member_seen group.now)) names.now) }
{
    for name in names {
        let name = name.copy(alloc)?;
        pins.push(Pin {
            name,
            group: *group,
            direction,
        })?;
    }
    Ok(())
}

/// Adds the pins of a `pin` group. The one error is want of memory.
fn add_pins<'a>(alloc: Global, group: &Member<'a>, pins: &mut Vec<Pin<'a>>) -> Result<(), NoMemory>
    ensures { OnOk result (pins.new.items ≡ pins.old.items ++ map (liberty.named_pin (member_seen group.now)) (all_arguments (member_seen group.now).statement)) }
{
    let direction = direction_in(alloc, group)?;
    let names = arguments(alloc, group.statement)?;
    add_names(alloc, names.as_slice(), group, direction, pins)
}

/// The `pin` groups of a cell. The one error is want of memory.
pub fn pin_groups<'a>(alloc: Global, cell: &Member<'a>) -> Result<Vec<Member<'a>>, NoMemory>
    ensures { IfOk result (λ found. members_seen found.items ≡ liberty.pin_groups (member_seen cell.now)) }
{
    let parts = members(alloc, 2, cell.inside)?;
    groups(alloc, "pin", parts.as_slice())
}

/// The pins of `pin` groups. The one error is want of memory.
fn pins_in<'a>(alloc: Global, groups: &[Member<'a>]) -> Result<Vec<Pin<'a>>, NoMemory>
    ensures { IfOk result (λ pins. pins.items ≡ pins_of_groups (members_seen groups.now)) }
{
    let mut pins = Vec::new(alloc);
    for group in groups {
        add_pins(alloc, group, &mut pins)?;
    }
    Ok(pins)
}

/// The pins of a cell, in the order of the text. The one error is want of memory.
pub fn pins_of<'a>(alloc: Global, cell: &Member<'a>) -> Result<Vec<Pin<'a>>, NoMemory>
    ensures { IfOk result (λ pins. pins.items ≡ liberty.pins (member_seen cell.now)) }
{
    let groups = pin_groups(alloc, cell)?;
    pins_in(alloc, groups.as_slice())
}

/// Whether it is a group that has state variables.
fn has_state(statement: &Statement<'_>) -> bool
    ensures { result ≡ liberty.has_state (statement_seen statement.now) }
{
    is_group("ff", statement)
        || is_group("latch", statement)
        || is_group("ff_bank", statement)
        || is_group("latch_bank", statement)
}

/// Adds the first two of some names. The one error is want of memory.
fn add_two(alloc: Global, names: &[Text], states: &mut List<Text>) -> Result<(), NoMemory>
    ensures { OnOk result (states.new ≡ states.old ++ take 2 names.now) }
{
    let [first, more @ ..] = names else {
        return Ok(());
    };
    states.push(first.copy(alloc)?)?;
    let [second, ..] = more else {
        return Ok(());
    };
    states.push(second.copy(alloc)?)?;
    Ok(())
}

/// Adds the state variables of a group, if it has any. The one error is want of memory.
fn add_states(alloc: Global, group: &Member<'_>, states: &mut List<Text>) -> Result<(), NoMemory>
    ensures { OnOk result (states.new ≡ states.old ++ states_in (member_seen group.now)) }
{
    if !has_state(group.statement) {
        return Ok(());
    }
    let names = arguments(alloc, group.statement)?;
    add_two(alloc, names.as_slice(), states)
}

/// The state variables among the parts of a cell. The one error is want of memory.
fn states_among(alloc: Global, parts: &[Member<'_>]) -> Result<List<Text>, NoMemory>
    ensures { IfOk result (λ states. states ≡ the_states (members_seen parts.now)) }
{
    let mut states = List::new(alloc);
    for group in parts {
        add_states(alloc, group, &mut states)?;
    }
    Ok(states)
}

/// The state variables of a cell. The one error is want of memory.
pub fn state_variables(alloc: Global, cell: &Member<'_>) -> Result<List<Text>, NoMemory>
    ensures { IfOk result (λ states. states ≡ liberty.state_variables (member_seen cell.now)) }
{
    let parts = members(alloc, 2, cell.inside)?;
    states_among(alloc, parts.as_slice())
}

/// Whether it is a group of pins that are left out here.
fn is_bus(statement: &Statement<'_>) -> bool
    ensures { result ≡ liberty.is_bus (statement_seen statement.now) }
{
    is_group("bus", statement) || is_group("bundle", statement)
}

/// Whether one of the parts of a cell is a group of pins that are left out here.
fn any_bus(parts: &[Member<'_>]) -> bool
    ensures { result ≡ list_any is_bus_part parts.now }
{
    parts.iter().any(|part| is_bus(part.statement))
}

/// Whether one of the parts of a cell is a group of pins that are left out here.
#[tactic(auto, using(crate::proofs::PinFacts::bus_seen))]
fn has_bus_among(parts: &[Member<'_>]) -> bool
    ensures { result ≡ list_any (λ (part : Group). liberty.is_bus part.statement) (members_seen parts.now) }
{
    any_bus(parts)
}

/// Whether a cell has a group of pins that are left out here. The one error is want of memory.
pub fn has_bus(alloc: Global, cell: &Member<'_>) -> Result<bool, NoMemory>
    ensures { IfOk result (λ has. has ≡ list_any (λ (part : Group). liberty.is_bus part.statement) (all_members 2 (member_seen cell.now).inside)) }
{
    let parts = members(alloc, 2, cell.inside)?;
    Ok(has_bus_among(parts.as_slice()))
}
