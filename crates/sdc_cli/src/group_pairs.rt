//! The pairs of clocks that groups make exclusive (SDC 2.1, `set_clock_groups`).

ghost use Rattle.std.specs.Prelude.{◌≡◌, ◌+◌, ◌++◌, ◌<◌, drop, length, OnOk, IfOk};
ghost use Rattle.std.specs.List.Sorted.{IsStrictlySortedBy};
ghost use Rattle.mode_model.specs.ClockFile.{pairs_apart};
ghost use Rattle.mode_model.specs.ClockGroups.{every_two, others_from, set_apart};
ghost use Rattle.sdc_cli.specs.Exclusive.{CommandsBelow, HasMore, HasSame, pair_cmp, parts, parts_some, parts_any, parts_each, parts_in};

use sdc_base::{List, NoMemory};
use std::alloc::Global;
use std::collections::BTreeSet;
use timing_types::Pair;

/// The pairs of different clocks, of so many, that the groups of commands set against each other: the lesser place
/// first, in order, each once. The one error is want of memory.
pub fn pairs_of_groups(
    alloc: Global,
    commands: &[List<List<u32>>],
    count: u32,
) -> Result<List<Pair>, NoMemory>
    ensures { IfOk result (λ pairs. CommandsBelow count commands.now → pairs ≡ pairs_apart count commands.now) }
{
    let mut pairs = BTreeSet::new(alloc);
    for groups in commands {
        part_groups(alloc, &mut pairs, groups.as_slice(), count)?;
    }
    list_of(alloc, pairs)
}

/// The pairs of a set, in order. The one error is want of memory.
fn list_of(alloc: Global, pairs: BTreeSet<Pair>) -> Result<List<Pair>, NoMemory>
    ensures pairs { IfOk result (λ list. list ≡ pairs.keys) }
    ensures rising { IfOk result (IsStrictlySortedBy pair_cmp) }
{
    let pairs: Vec<Pair> = pairs.into_iter().collect(alloc)?;
    Ok(List::from(pairs))
}

/// Adds the pairs of the groups of a command: one alone stands against all other clocks, of so many. The one error is
/// want of memory.
fn part_groups(
    alloc: Global,
    pairs: &mut BTreeSet<Pair>,
    groups: &[List<u32>],
    count: u32,
) -> Result<(), NoMemory>
    ensures { OnOk result (HasMore pairs.old pairs.new (parts_in (set_apart count groups.now))) }
{
    match groups {
        [] => Ok(()),
        [alone] => part_alone(alloc, pairs, alone.as_slice(), count),
        [_, _, ..] => part_every_two(alloc, pairs, groups),
    }
}

/// Adds the pairs of a group and all other clocks, of so many. The one error is want of memory.
fn part_alone(
    alloc: Global,
    pairs: &mut BTreeSet<Pair>,
    group: &[u32],
    count: u32,
) -> Result<(), NoMemory>
    ensures { OnOk result
        (HasMore pairs.old pairs.new (parts_any group.now (others_from group.now 0 count))) }
{
    let others = others_of(alloc, group, count)?;
    part_two(alloc, pairs, group, others.as_slice())
}

/// The places of clocks, of so many, that are not in a group. The one error is want of memory.
fn others_of(alloc: Global, group: &[u32], count: u32) -> Result<Vec<u32>, NoMemory>
    ensures { IfOk result (λ others. others.items ≡ others_from group.now 0 count) }
{
    let mut others = Vec::new(alloc);
    for place in 0..count {
        push_other(&mut others, group, place)?;
    }
    Ok(others)
}

/// Adds a place that is not in a group. The one error is want of memory.
fn push_other(others: &mut Vec<u32>, group: &[u32], place: u32) -> Result<(), NoMemory>
    ensures { OnOk result (others.new.items ≡ others.old.items ++ others_from group.now place 1) }
{
    if !group.contains(&place) {
        others.push(place)?;
    }
    Ok(())
}

/// Adds the pairs of every two groups. The one error is want of memory.
fn part_every_two(
    alloc: Global,
    pairs: &mut BTreeSet<Pair>,
    groups: &[List<u32>],
) -> Result<(), NoMemory>
    ensures { OnOk result (HasMore pairs.old pairs.new (parts_in (every_two groups.now))) }
{
    for (at, group) in groups.iter().enumerate() {
        part_each(alloc, pairs, group.as_slice(), after(groups, at))?;
    }
    Ok(())
}

/// The groups after a place.
fn after(groups: &[List<u32>], at: usize) -> &[List<u32>]
    requires { at < length groups.now }
    ensures { result.now ≡ drop (at + 1) groups.now }
{
    &groups[at + 1..]
}

/// Adds the pairs of a group with each of others. The one error is want of memory.
fn part_each(
    alloc: Global,
    pairs: &mut BTreeSet<Pair>,
    group: &[u32],
    others: &[List<u32>],
) -> Result<(), NoMemory>
    ensures { OnOk result (HasMore pairs.old pairs.new (parts_each group.now others.now)) }
{
    for other in others {
        part_two(alloc, pairs, group, other.as_slice())?;
    }
    Ok(())
}

/// Adds the pairs of different clocks of two groups. The one error is want of memory.
fn part_two(
    alloc: Global,
    pairs: &mut BTreeSet<Pair>,
    first: &[u32],
    second: &[u32],
) -> Result<(), NoMemory>
    ensures { OnOk result (HasMore pairs.old pairs.new (parts_any first.now second.now)) }
{
    let first = distinct(alloc, first)?;
    let second = distinct(alloc, second)?;
    part_all(pairs, first.as_slice(), second.as_slice())?;
    Ok(())
}

/// The places of a group, each once. The one error is want of memory.
fn distinct(alloc: Global, places: &[u32]) -> Result<Vec<u32>, NoMemory>
    ensures { IfOk result (λ once. HasSame places.now once.items) }
{
    let mut once = Vec::from_slice(alloc, places)?;
    once.sort_unstable();
    once.dedup();
    Ok(once)
}

/// Adds the pairs of different clocks of two groups that have each place once. The one error is want of memory.
fn part_all(pairs: &mut BTreeSet<Pair>, first: &[u32], second: &[u32]) -> Result<(), NoMemory>
    ensures { OnOk result (HasMore pairs.old pairs.new (parts_any first.now second.now)) }
{
    for place in first {
        part_some(pairs, *place, second)?;
    }
    Ok(())
}

/// Adds the pairs of a clock with the other clocks of a group. The one error is want of memory.
fn part_some(pairs: &mut BTreeSet<Pair>, place: u32, others: &[u32]) -> Result<(), NoMemory>
    ensures { OnOk result (HasMore pairs.old pairs.new (parts_some place others.now)) }
{
    for other in others {
        part(pairs, place, *other)?;
    }
    Ok(())
}

/// Adds the pair of two clocks, where they are different. The one error is want of memory.
fn part(pairs: &mut BTreeSet<Pair>, place: u32, other: u32) -> Result<(), NoMemory>
    ensures { OnOk result (HasMore pairs.old pairs.new (parts place other)) }
{
    if place != other {
        pairs.insert(Pair {
            first: place.min(other),
            second: place.max(other),
        })?;
    }
    Ok(())
}
