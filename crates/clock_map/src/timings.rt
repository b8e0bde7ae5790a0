//! What each mode says of merged clocks: which of them it has, and which of those it lets be timed.

ghost use Rattle.std.specs.Prelude.{◌≡◌, ◌<◌, ◌==◌, ◌&&◌, not, length, vec_len, min, max, IfOk};
ghost use Rattle.std.specs.List.{list_any};
ghost use Rattle.constraint_model.specs.ListOrder.{HasEachOnce};
ghost use Rattle.merge_model.specs.Exclusive.{HaveEachOnce};
ghost use Rattle.clock_map.specs.Timings.{same_pair, ArePlaces, HoldsPairs, AreTimings, FitsClocks, AllFit, AreFlags, Marks, lets_time};

use sdc_base::{Duplicate, List, NoMemory};
use std::alloc::Global;
use std::collections::HashSet;
use timing_types::{Pair, View};

/// What a mode says of merged clocks: which of its clocks each of them is, which of them each of its clocks is, and
/// its exclusive pairs.
#[derive(Drop)]
pub struct Timing {
    places: Vec<Option<usize>>,
    numbers: List<u32>,
    exclusive: HashSet<(usize, usize)>,
}

/// What each mode says of so many merged clocks.
pub fn timings_of(
    alloc: Global,
    modes: &List<View>,
    maps: &List<List<u32>>,
    count: usize,
) -> Result<Vec<Timing>, NoMemory>
    requires beside { length maps.now ≡ length modes.now }
    requires apart { HaveEachOnce maps.now }
    ensures { IfOk result (λ timings. AreTimings count modes.now maps.now timings.items) }
{
    let maps = maps.as_slice();
    let mut timings = Vec::new(alloc);
    for (at, view) in modes.as_slice().iter().enumerate() {
        let numbers = maps[at].copy(alloc)?;
        let places = places_of(alloc, &numbers, count)?;
        let exclusive = pairs_in(alloc, &view.mode.exclusive)?;
        timings.push(Timing {
            places,
            numbers,
            exclusive,
        })?;
    }
    Ok(timings)
}

/// Which clock of a mode each of so many merged clocks is.
fn places_of(
    alloc: Global,
    numbers: &List<u32>,
    count: usize,
) -> Result<Vec<Option<usize>>, NoMemory>
    requires { HasEachOnce numbers.now }
    ensures { IfOk result (λ places. ArePlaces count numbers.now places.items) }
{
    let mut places = vec![in alloc; None; count]?;
    for (place, number) in numbers.as_slice().iter().enumerate() {
        let number = *number as usize;
        if number < count {
            places[number] = Some(place);
        }
    }
    Ok(places)
}

/// Pairs as a set.
fn pairs_in(alloc: Global, pairs: &List<Pair>) -> Result<HashSet<(usize, usize)>, NoMemory>
    ensures { IfOk result (λ set. HoldsPairs pairs.now set.keys) }
{
    let mut set = HashSet::new(alloc);
    for pair in pairs.as_slice() {
        set.insert((pair.first as usize, pair.second as usize))?;
    }
    Ok(set)
}

/// A flag for each of so many merged clocks: after one of them, whether some mode has both and lets them be timed.
pub fn timed_with(
    alloc: Global,
    timings: &[Timing],
    first: usize,
    count: usize,
) -> Result<Vec<bool>, NoMemory>
    requires within { first < count }
    requires fit { AllFit count timings.now }
    ensures { IfOk result (λ timed.
        AreFlags count first (λ k. list_any (lets_time first k) timings.now) timed.items) }
{
    let mut timed = vec![in alloc; false; count]?;
    for timing in timings {
        mark_timed(&mut timed, timing, first);
    }
    Ok(timed)
}

/// Marks the merged clocks after one that a mode has, too, and lets be timed with it.
fn mark_timed(timed: &mut [bool], timing: &Timing, first: usize)
    requires within { first < length timed.old }
    requires fits { FitsClocks (length timed.old) timing.now }
    ensures { Marks first (λ k. lets_time first k timing.now) timed.old timed.new }
{
    let Some(place) = timing.places[first] else {
        return;
    };
    for (other, number) in timing.numbers.as_slice().iter().enumerate() {
        let pair = (place.min(other), place.max(other));
        mark(timed, &timing.exclusive, first, *number as usize, pair);
    }
}

/// Marks a merged clock, where it is after the first one, and the pair of both is not exclusive.
fn mark(
    timed: &mut [bool],
    exclusive: &HashSet<(usize, usize)>,
    first: usize,
    number: usize,
    pair: (usize, usize),
)
    ensures { Marks first
        (λ k. number == k && not (list_any (same_pair pair) exclusive.now.keys))
        timed.old timed.new }
{
    if number <= first {
        return;
    }
    if number >= timed.len() {
        return;
    }
    if timed[number] {
        return;
    }
    timed[number] = !exclusive.contains(&pair);
}
