//! Queries of clocks by their names (SDC 2.1, `get_clocks`).

ghost use Rattle.std.specs.Prelude.{◌≡◌, map, IfOk, OnOk};
ghost use Rattle.std.specs.BTreeSet.{insert_key};
ghost use Rattle.std.specs.Option.{option_map};
ghost use Rattle.std.specs.Ordering.{nat_cmp};
ghost use Rattle.mode_model.specs.ClockCommands.{clocks_named, in_order};
ghost use Rattle.mode_model.specs.ClockGroups.{places_in};
ghost use Rattle.timing_types.specs.declared.objects.Object.TheVariants as object;

use crate::clock_groups::places_in;
use crate::named_clocks::NamedClocks;
use sdc_base::{Duplicate, List, NoMemory};
use std::alloc::Global;
use std::collections::BTreeSet;
use timing_types::{Object, Value};

/// The clocks of a list of names in order, each once; objects are given back; `None` where the words are not these or a
/// name is no clock's. The one error is want of memory.
pub fn clocks_named(
    alloc: Global,
    clocks: &NamedClocks,
    words: &[Value],
) -> Result<Option<List<Object>>, NoMemory>
    ensures { IfOk result (λ found. found ≡ clocks_named clocks.now words.now) }
{
    match words {
        [Value::Text(names)] => clocks_of(alloc, clocks, names.as_str()),
        [Value::Objects(objects)] => {
            let objects = objects.copy(alloc)?;
            Ok(Some(objects))
        }
        _ => Ok(None),
    }
}

/// The clocks of a list of names (Tcl) in order, each once. The one error is want of memory.
fn clocks_of(
    alloc: Global,
    clocks: &NamedClocks,
    names: &str,
) -> Result<Option<List<Object>>, NoMemory>
    ensures { IfOk result (λ found. found ≡ option_map (λ places. map object.Clock (in_order places)) (places_in clocks.now names.now)) }
{
    let Some(places) = places_in(alloc, clocks, names)? else {
        return Ok(None);
    };
    let places = in_order(alloc, places.as_slice())?;
    let objects = clock_objects(alloc, places.as_slice())?;
    Ok(Some(objects))
}

/// Puts a place among others. The one error is want of memory.
fn put(places: &mut BTreeSet<u32>, place: u32) -> Result<(), NoMemory>
    ensures { OnOk result (places.new.keys ≡ insert_key nat_cmp places.old.keys place) }
{
    places.insert(place)?;
    Ok(())
}

/// Places in order, each once. The one error is want of memory.
fn in_order(alloc: Global, places: &[u32]) -> Result<Vec<u32>, NoMemory>
    ensures { IfOk result (λ rising. rising.items ≡ in_order places.now) }
{
    let mut rising = BTreeSet::new(alloc);
    for place in places {
        put(&mut rising, *place)?;
    }
    let rising: Vec<u32> = rising.into_iter().collect(alloc)?;
    Ok(rising)
}

/// The clocks of these places. The one error is want of memory.
fn clock_objects(alloc: Global, places: &[u32]) -> Result<List<Object>, NoMemory>
    ensures { IfOk result (λ objects. objects ≡ map object.Clock places.now) }
{
    let mut objects = List::new(alloc);
    for place in places {
        objects.push(Object::Clock(*place))?;
    }
    Ok(objects)
}
