//! The related pins of a cell's pins: what the `timing` groups say (Liberty, `timing`, `related_pin`).

ghost use Rattle.std.specs.Prelude.{◌≡◌, ◌++◌, ◌≤◌, length, map, IfOk, OnOk};
ghost use Rattle.std.specs.List.{flat_map};
ghost use Rattle.library_model.specs.LibertyArcs.{words_if as the_words};
ghost use Rattle.library_model.specs.LibertyStatements.{members as all_members};
ghost use Rattle.lib_cells.specs.Members.{member_seen, members_seen};
ghost use Rattle.bool_lanes.specs.NamedNumbers.{number_at};
ghost use Rattle.lib_cells.specs.RelatedPins.{pin_if, related_all, related_in, related_seen, related_to, related_word, related_words, Says};
ghost use Rattle.lib_cells.specs.Timings.{timing_seen};

use crate::cell::pins::Pin;
use crate::cell::timing::{Timing, timing_named};
use crate::syntax::members::{Member, groups, last_value, members};
use crate::syntax::words::words_of;
use bool_lanes::Numbers;
use sdc_base::{Duplicate, List, NoMemory, Text};
use std::alloc::Global;

/// A related pin of a pin, both by their places in the cell, and the timing and sense that the `timing` group says.
#[derive(Drop)]
pub struct Related {
    pub from: u16,
    pub to: u16,
    pub timing: Timing,
    pub sense: Option<Text>,
}

/// What a `timing` group says: the names of the related pins, the timing and the sense.
#[derive(Drop)]
pub struct TimingSaid {
    words: List<List<u8>>,
    timing: Timing,
    sense: Option<Text>,
}

/// The words of a text, if there is one. The one error is want of memory.
fn words_if(alloc: Global, text: &Option<Text>) -> Result<List<List<u8>>, NoMemory>
    ensures { IfOk result (λ words. words ≡ the_words text.now) }
{
    match text {
        None => Ok(List::new(alloc)),
        Some(text) => words_of(alloc, text.as_bytes()),
    }
}

/// What a `timing` group says. The one error is want of memory.
fn timing_said(alloc: Global, group: &Member<'_>) -> Result<TimingSaid, NoMemory>
    ensures { IfOk result (λ said. Says said (all_members 4 (member_seen group.now).inside)) }
{
    let parts = members(alloc, 4, group.inside)?;
    let names = last_value(alloc, "related_pin", parts.as_slice())?;
    let words = words_if(alloc, &names)?;
    let kind = last_value(alloc, "timing_type", parts.as_slice())?;
    let timing = timing_named(&kind);
    let sense = last_value(alloc, "timing_sense", parts.as_slice())?;
    Ok(TimingSaid {
        words,
        timing,
        sense,
    })
}

/// The place of a pin's name, if it is one; a name means the first pin that has it.
fn pin_place(places: &Numbers, pins: usize, name: &List<u8>) -> Option<u16>
    requires { pins ≤ 60000 }
    ensures { result ≡ pin_if (number_at places.now name.now) pins }
{
    match places.get(name) {
        Some(place) if place < pins => Some(place as u16),
        _ => None,
    }
}

/// Adds a related pin, if a name is a pin's. The one error is want of memory.
fn add_word(
    alloc: Global,
    from: Option<u16>,
    to: u16,
    said: &TimingSaid,
    found: &mut Vec<Related>,
) -> Result<(), NoMemory>
    ensures { OnOk result (map related_seen found.new.items ≡ map related_seen found.old.items ++ related_word to (timing_seen said.now.timing) said.now.sense from) }
{
    let Some(from) = from else {
        return Ok(());
    };
    let sense = said.sense.copy(alloc)?;
    found.push(Related {
        from,
        to,
        timing: said.timing,
        sense,
    })?;
    Ok(())
}

/// Adds the related pins that a `timing` group of a pin says. The one error is want of memory.
fn add_said(
    alloc: Global,
    places: &Numbers,
    pins: usize,
    to: u16,
    said: &TimingSaid,
    found: &mut Vec<Related>,
) -> Result<(), NoMemory>
    requires { pins ≤ 60000 }
    ensures { OnOk result (map related_seen found.new.items ≡ map related_seen found.old.items ++ related_words places.now pins to (timing_seen said.now.timing) said.now.sense said.now.words) }
{
    for name in said.words.as_slice() {
        let from = pin_place(places, pins, name);
        add_word(alloc, from, to, said, found)?;
    }
    Ok(())
}

/// Adds the related pins of a `timing` group of a pin. The one error is want of memory.
fn add_timing(
    alloc: Global,
    places: &Numbers,
    pins: usize,
    to: u16,
    group: &Member<'_>,
    found: &mut Vec<Related>,
) -> Result<(), NoMemory>
    requires { pins ≤ 60000 }
    ensures { OnOk result (map related_seen found.new.items ≡ map related_seen found.old.items ++ related_in places.now pins to (member_seen group.now)) }
{
    let said = timing_said(alloc, group)?;
    add_said(alloc, places, pins, to, &said, found)
}

/// Adds the related pins of a pin that stands at a place. The one error is want of memory.
fn add_related(
    alloc: Global,
    places: &Numbers,
    pins: usize,
    to: u16,
    pin: &Pin<'_>,
    found: &mut Vec<Related>,
) -> Result<(), NoMemory>
    requires { pins ≤ 60000 }
    ensures { OnOk result (map related_seen found.new.items ≡ map related_seen found.old.items ++ related_to places.now pins to pin.now) }
{
    let parts = members(alloc, 3, pin.inside())?;
    let timings = groups(alloc, "timing", parts.as_slice())?;
    add_timings(alloc, places, pins, to, timings.as_slice(), found)
}

/// Adds the related pins of `timing` groups of a pin. The one error is want of memory.
fn add_timings(
    alloc: Global,
    places: &Numbers,
    pins: usize,
    to: u16,
    timings: &[Member<'_>],
    found: &mut Vec<Related>,
) -> Result<(), NoMemory>
    requires { pins ≤ 60000 }
    ensures { OnOk result (map related_seen found.new.items ≡ map related_seen found.old.items ++ flat_map (related_in places.now pins to) (members_seen timings.now)) }
{
    for group in timings {
        add_timing(alloc, places, pins, to, group, found)?;
    }
    Ok(())
}

/// The related pins of pins, in the order of the pins and of the text. The one error is want of memory.
pub fn related_pins(
    alloc: Global,
    places: &Numbers,
    pins: &[Pin<'_>],
) -> Result<Vec<Related>, NoMemory>
    requires { length pins.now ≤ 60000 }
    ensures { IfOk result (λ found. map related_seen found.items ≡ related_all places.now (length pins.now) 0 pins.now) }
{
    let mut found = Vec::new(alloc);
    for (place, pin) in pins.iter().enumerate() {
        add_related(alloc, places, pins.len(), place as u16, pin, &mut found)?;
    }
    Ok(found)
}
