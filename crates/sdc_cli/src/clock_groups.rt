//! Groups of clocks (SDC 2.1, `set_clock_groups`), by the words after the command's name.

ghost use Rattle.std.specs.Prelude.{◌≡◌, ◌==◌, length, IfOk};
ghost use Rattle.std.specs.List.{list_any};
ghost use Rattle.mode_model.specs.ClockCommands.{group_options, groups_given, groups_of, groups_placed, no_groups, with_effect, with_group_word};
ghost use Rattle.mode_model.specs.ClockGroups.{clock_place, clock_places, group_of, places_in, places_of};

use crate::items::items_of;
use crate::named_clocks::NamedClocks;
use crate::object_names::value_text;
use sdc_base::{Duplicate, List, NoMemory, Text};
use std::alloc::Global;
use std::marker::Model;
use timing_types::{Clock, Object, Value};

/// The options of groups that are given. Contracts see `GroupOptions`.
#[derive(Drop)]
struct GivenGroups {
    asynchronous: bool,
    groups: List<Value>,
    expects: bool,
}

impl Model for GivenGroups {
    ghost use Rattle.mode_model.specs.ClockCommands.{GroupOptions};

    ghost Value = { GroupOptions };

    ghost view = { λ it. record { asynchronous = it.asynchronous; groups = it.groups; expects = it.expects } };
}

/// The groups of a command as places of clocks, by the words after its name: `-asynchronous` and at least one group,
/// in any order; `None` where they are not these or a name is no clock's. None of the groups counts where one is empty.
/// The one error is want of memory.
pub fn groups_of(
    alloc: Global,
    clocks: &NamedClocks,
    words: &[Value],
) -> Result<Option<List<List<u32>>>, NoMemory>
    ensures { IfOk result (λ groups. groups ≡ groups_of clocks.now words.now) }
{
    let Some(given) = group_options(alloc, clocks, words)? else {
        return Ok(None);
    };
    groups_given(alloc, clocks, &given)
}

/// The options of these words. The one error is want of memory.
fn group_options(
    alloc: Global,
    clocks: &NamedClocks,
    words: &[Value],
) -> Result<Option<GivenGroups>, NoMemory>
    ensures { IfOk result (λ given. given ≡ group_options clocks.now no_groups words.now) }
{
    let mut given = GivenGroups {
        asynchronous: false,
        groups: List::new(alloc),
        expects: false,
    };
    for word in words {
        let Some(next) = with_word(alloc, clocks.as_slice(), given, word)? else {
            return Ok(None);
        };
        given = next;
    }
    if given.expects {
        Ok(None)
    } else {
        Ok(Some(given))
    }
}

/// These options and one more word: a group after `-group`, or else an option. The one error is want of memory.
fn with_word(
    alloc: Global,
    clocks: &[Clock],
    given: GivenGroups,
    word: &Value,
) -> Result<Option<GivenGroups>, NoMemory>
    ensures { IfOk result (λ next. next ≡ with_group_word clocks.now given word.now) }
{
    let GivenGroups {
        asynchronous,
        mut groups,
        expects,
    } = given;
    if expects {
        groups.push(word.copy(alloc)?)?;
        return Ok(Some(GivenGroups {
            asynchronous,
            groups,
            expects: false,
        }));
    }
    let option = value_text(alloc, clocks, word)?;
    if option.as_str() == "-asynchronous" {
        return Ok(Some(GivenGroups {
            asynchronous: true,
            groups,
            expects: false,
        }));
    }
    if option.as_str() == "-group" {
        return Ok(Some(GivenGroups {
            asynchronous,
            groups,
            expects: true,
        }));
    }
    Ok(None)
}

/// The groups of these options. The one error is want of memory.
fn groups_given(
    alloc: Global,
    clocks: &NamedClocks,
    given: &GivenGroups,
) -> Result<Option<List<List<u32>>>, NoMemory>
    ensures { IfOk result
        (λ groups. groups ≡ groups_given clocks.now given.now.asynchronous given.now.groups) }
{
    match given.groups.as_slice() {
        groups @ [_, ..] if given.asynchronous => {
            let Some(groups) = groups_placed(alloc, clocks, groups)? else {
                return Ok(None);
            };
            Ok(Some(with_effect(alloc, groups)))
        }
        _ => Ok(None),
    }
}

/// Groups as places of clocks; `None` where a name is no clock's. The one error is want of memory.
fn groups_placed(
    alloc: Global,
    clocks: &NamedClocks,
    groups: &[Value],
) -> Result<Option<List<List<u32>>>, NoMemory>
    ensures { IfOk result (λ placed. placed ≡ groups_placed clocks.now groups.now) }
{
    let mut placed = List::new(alloc);
    for group in groups {
        let Some(places) = group_of(alloc, clocks, group)? else {
            return Ok(None);
        };
        placed.push(places)?;
    }
    Ok(Some(placed))
}

/// These groups, or none where one is empty.
fn with_effect(alloc: Global, groups: List<List<u32>>) -> List<List<u32>>
    ensures { result ≡ with_effect groups }
{
    if has_empty(groups.as_slice()) {
        List::new(alloc)
    } else {
        groups
    }
}

/// Whether a group is empty.
fn has_empty(groups: &[List<u32>]) -> bool
    ensures { result ≡ list_any (λ group. length group == 0) groups.now }
{
    groups.iter().any(|group| group.as_slice().is_empty())
}

/// The places of the clocks of a group: a list of names (Tcl), or clocks; `None` where it is neither of these or a name
/// is no clock's. The one error is want of memory.
fn group_of(
    alloc: Global,
    clocks: &NamedClocks,
    value: &Value,
) -> Result<Option<List<u32>>, NoMemory>
    ensures { IfOk result (λ group. group ≡ group_of clocks.now value.now) }
{
    match value {
        Value::Text(names) => places_in(alloc, clocks, names.as_str()),
        Value::Objects(objects) => clock_places(alloc, clocks.as_slice().len(), objects.as_slice()),
    }
}

/// The place of an object that is a clock, of so many.
fn clock_place(count: usize, object: &Object) -> Option<u32>
    ensures { result ≡ clock_place count object.now }
{
    match object {
        Object::Clock(place) if (*place as usize) < count => Some(*place),
        _ => None,
    }
}

/// The places of objects, where each is a clock, of so many. The one error is want of memory.
fn clock_places(
    alloc: Global,
    count: usize,
    objects: &[Object],
) -> Result<Option<List<u32>>, NoMemory>
    ensures { IfOk result (λ places. places ≡ clock_places count objects.now) }
{
    let mut places = List::new(alloc);
    for object in objects {
        let Some(place) = clock_place(count, object) else {
            return Ok(None);
        };
        places.push(place)?;
    }
    Ok(Some(places))
}

/// The places of the clocks of a list of names (Tcl), where each is a clock's. The one error is want of memory.
pub fn places_in(
    alloc: Global,
    clocks: &NamedClocks,
    names: &str,
) -> Result<Option<List<u32>>, NoMemory>
    ensures { IfOk result (λ places. places ≡ places_in clocks.now names.now) }
{
    let Some(names) = items_of(alloc, names)? else {
        return Ok(None);
    };
    places_of(alloc, clocks, names.as_slice())
}

/// The places of the clocks of these names, where each is a clock's. The one error is want of memory.
fn places_of(
    alloc: Global,
    clocks: &NamedClocks,
    names: &[Text],
) -> Result<Option<List<u32>>, NoMemory>
    ensures { IfOk result (λ places. places ≡ places_of clocks.now names.now) }
{
    let mut places = List::new(alloc);
    for name in names {
        let Some(place) = clocks.place(name.as_str()) else {
            return Ok(None);
        };
        places.push(place)?;
    }
    Ok(Some(places))
}
