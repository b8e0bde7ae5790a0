//! The merged clocks that are exclusive.

ghost use Rattle.std.specs.Prelude.{◌≡◌, ◌<◌, ◌==◌, ◌+◌, ◌-◌, ◌++◌, length, IfOk, OnOk};
ghost use Rattle.std.specs.List.{filter};
ghost use Rattle.merge_model.specs.Exclusive.{HaveEachOnce, AreExclusivePairs};
ghost use Rattle.clock_map.specs.Timings.{AllFit, others_from, row, rows_from};

use crate::timings::{Timing, timed_with, timings_of};
use sdc_base::{List, NoMemory};
use std::alloc::Global;
use std::marker::Model;
use timing_types::{Pair, View};

/// The pairs of merged clocks, of which there are `count`, that no mode has both of and lets be timed; in order.
///
/// `maps` says for each mode the merged clock that each of its clocks is, no two of them the same. The rule is this
/// project's own. The one error is want of memory.
pub fn exclusive_pairs(
    alloc: Global,
    modes: &List<View>,
    maps: &List<List<u32>>,
    count: u32,
) -> Result<List<Pair>, NoMemory>
    requires beside { length maps.now ≡ length modes.now }
    requires apart { HaveEachOnce maps.now }
    ensures { IfOk result (AreExclusivePairs modes.now maps.now count) }
{
    let rows = ExclusiveRows::new(alloc, modes, maps, count)?;
    rows.all(alloc)
}

/// The exclusive pairs of merged clocks, made one first clock at a time and never kept. Contracts see the list of all
/// of them, in order.
#[derive(Drop)]
pub struct ExclusiveRows {
    timings: Vec<Timing>,
    count: u32,
}

impl Model for ExclusiveRows {
    ghost use Rattle.std.specs.Prelude.{List};
    ghost use Rattle.timing_types.specs.declared.clocks.Pair.{Pair};
    ghost use Rattle.clock_map.specs.Timings.{AllFit, rows_from};

    ghost Value = { List Pair };

    ghost view = { λ rows. rows_from rows.timings.items rows.count 0 rows.count };

    ghost invariant = { λ rows. AllFit rows.count rows.timings.items };
}

impl ExclusiveRows {
    /// The pairs that `exclusive_pairs` has. The one error is want of memory.
    pub fn new(
        alloc: Global,
        modes: &List<View>,
        maps: &List<List<u32>>,
        count: u32,
    ) -> Result<ExclusiveRows, NoMemory>
        requires beside { length maps.now ≡ length modes.now }
        requires apart { HaveEachOnce maps.now }
        ensures { IfOk result (AreExclusivePairs modes.now maps.now count) }
    {
        let timings = timings_of(alloc, modes, maps, count as usize)?;
        Ok(ExclusiveRows { timings, count })
    }

    /// Adds the pairs of which a merged clock is the first. The one error is want of memory.
    pub fn push_row(
        &self,
        alloc: Global,
        pairs: &mut List<Pair>,
        first: u32,
    ) -> Result<(), NoMemory>
        ensures { OnOk result (pairs.new ≡ pairs.old ++ filter (λ pair. pair.first == first) self.now) }
    {
        if first >= self.count {
            return Ok(());
        }
        add_row(alloc, pairs, &self.timings, first, self.count)?;
        Ok(())
    }

    /// All of the pairs. The one error is want of memory.
    fn all(&self, alloc: Global) -> Result<List<Pair>, NoMemory>
        ensures { IfOk result (λ pairs. pairs ≡ self.now) }
    {
        let mut pairs = List::new(alloc);
        for first in 0..self.count {
            add_row(alloc, &mut pairs, &self.timings, first, self.count)?;
        }
        Ok(pairs)
    }
}

/// Adds the exclusive pairs of one merged clock with those after it.
fn add_row(
    alloc: Global,
    pairs: &mut List<Pair>,
    timings: &[Timing],
    first: u32,
    count: u32,
) -> Result<(), NoMemory>
    requires within { first < count }
    requires fit { AllFit count timings.now }
    ensures { OnOk result (pairs.new ≡ pairs.old ++ row timings.now count first) }
{
    let timed = timed_with(alloc, timings, first as usize, count as usize)?;
    add_others(pairs, &timed, first, count)?;
    Ok(())
}

/// Adds the pairs of a merged clock with those after it that are not marked.
fn add_others(
    pairs: &mut List<Pair>,
    timed: &[bool],
    first: u32,
    count: u32,
) -> Result<(), NoMemory>
    requires within { first < count }
    requires each { length timed.now ≡ count }
    ensures { OnOk result
        (pairs.new ≡ pairs.old ++ others_from timed.now first (first + 1) (count - (first + 1))) }
{
    for second in first + 1..count {
        if !timed[second as usize] {
            pairs.push(Pair { first, second })?;
        }
    }
    Ok(())
}
