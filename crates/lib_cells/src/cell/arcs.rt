//! The arcs of a library cell (Liberty, `timing`): those between the same pins are united.

ghost use Rattle.std.specs.Prelude.{◌≡◌, ◌<◌, [], get_or, length, map, set, IfOk, OnOk};
ghost use Rattle.std.specs.List.{filter_map, fold};
ghost use Rattle.library_model.specs.LibertyArcs as liberty;
ghost use Rattle.lib_cells.specs.Pairs as pairs;
ghost use Rattle.lib_cells.specs.RelatedPins.{related_seen};

use crate::cell::pins::Pin;
use crate::cell::related::Related;
use crate::cell::timing::arc_of;
use pin_types::{Direction, LibArc};
use sdc_base::NoMemory;
use std::alloc::Global;
use std::collections::BTreeMap;

/// Whether a pin of a direction has arcs.
fn has_arcs(direction: Direction) -> bool
    ensures { result ≡ liberty.has_arcs direction }
{
    match direction {
        Direction::Input | Direction::Output => true,
        Direction::Other => false,
    }
}

/// Whether a direction is that of an output.
pub fn is_output(direction: Direction) -> bool
    ensures { result ≡ liberty.is_output direction }
{
    match direction {
        Direction::Output => true,
        Direction::Input | Direction::Other => false,
    }
}

/// The direction of the pin at a place.
pub fn direction_at(pins: &[Pin<'_>], place: u16) -> Direction
    ensures { result ≡ liberty.direction_at pins.now place }
{
    match pins.get(usize::from(place)) {
        Some(pin) => pin.direction(),
        None => Direction::Other,
    }
}

/// The arc that a related pin gives, if it gives one: none where one of both pins has no arcs.
fn arc_if(pins: &[Pin<'_>], related: &Related) -> Option<LibArc>
    ensures { result ≡ liberty.arc_if pins.now (related_seen related.now) }
{
    if has_arcs(direction_at(pins, related.from)) && has_arcs(direction_at(pins, related.to)) {
        arc_of(related.from, related.to, related.timing, &related.sense)
    } else {
        None
    }
}

/// The arc that has the transitions of two arcs.
fn both(arc: &LibArc, other: &LibArc) -> LibArc
    ensures { result ≡ liberty.both arc.now other.now }
{
    LibArc {
        from: arc.from,
        to: arc.to,
        rise_rise: arc.rise_rise || other.rise_rise,
        rise_fall: arc.rise_fall || other.rise_fall,
        fall_rise: arc.fall_rise || other.fall_rise,
        fall_fall: arc.fall_fall || other.fall_fall,
        launch: arc.launch,
    }
}

/// 1 of an arc that launches, else 0.
fn launch_number(launch: bool) -> u16
    ensures { result ≡ pairs.launch_number launch }
{
    if launch { 1 } else { 0 }
}

/// The places of the pins of an arc, and whether it launches.
fn pair_key(arc: &LibArc) -> [u16; 3]
    ensures { result ≡ pairs.pair_key arc.now }
{
    [arc.from, arc.to, launch_number(arc.launch)]
}

/// Unites the arc at a place with another one.
fn unite(arcs: &mut Vec<LibArc>, place: usize, arc: &LibArc)
    requires { place < length arcs.old.items }
    ensures { arcs.new.items ≡ set arcs.old.items place (liberty.both (get_or arcs.old.items place arc.now) arc.now) }
{
    arcs[place] = both(&arcs[place], arc);
}

/// Adds an arc, or unites it with the one between the same pins. The one error is want of memory.
#[tactic(auto, using(crate::proofs::PairFacts::within, crate::proofs::PairFacts::unites, crate::proofs::PairFacts::unites_places, crate::proofs::PairFacts::pushes, crate::proofs::PairFacts::pushes_places))]
fn add_arc(
    arcs: &mut Vec<LibArc>,
    places: &mut BTreeMap<[u16; 3], usize>,
    arc: LibArc,
) -> Result<(), NoMemory>
    requires { pairs.HasPairs places.old arcs.old.items }
    ensures joined { OnOk result (arcs.new.items ≡ liberty.with_arc arcs.old.items arc) }
    ensures found { OnOk result (pairs.HasPairs places.new arcs.new.items) }
{
    let key = pair_key(&arc);
    if let Some(place) = places.get(&key).copied() {
        unite(arcs, place, &arc);
        return Ok(());
    }
    places.insert(key, arcs.len())?;
    arcs.push(arc)?;
    Ok(())
}

/// The arcs of a cell, given its pins and their related pins. The one error is want of memory.
pub fn arcs_of(
    alloc: Global,
    pins: &[Pin<'_>],
    related: &[Related],
) -> Result<Vec<LibArc>, NoMemory>
    ensures { IfOk result (λ arcs. arcs.items ≡ fold liberty.with_arc [] (filter_map (liberty.arc_if pins.now) (map related_seen related.now))) }
{
    let mut arcs = Vec::new(alloc);
    let mut places = BTreeMap::new(alloc);
    for one in related {
        if let Some(arc) = arc_if(pins, one) {
            add_arc(&mut arcs, &mut places, arc)?;
        }
    }
    Ok(arcs)
}
