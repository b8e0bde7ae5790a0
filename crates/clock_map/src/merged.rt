//! The merged clocks, each made of the first clock that it is.

ghost use Rattle.std.specs.Prelude.{◌≡◌, ◌≤◌, length, IfOk, OnOk};
ghost use Rattle.merge_model.specs.ClockIdentity as identity;
ghost use Rattle.clock_map.specs.MergedClocks.{HaveSameNames, AddsMerged, Rises, AreMerged};

use crate::names::merged_name;
use sdc_base::{Duplicate, List, NoMemory, Text};
use std::alloc::Global;
use std::collections::BTreeSet;
use timing_types::{Clock, Definition, Standing, Wave};

/// Merged clocks in order, their waveforms, and the names that they have.
#[derive(Drop)]
pub(crate) struct Merged {
    pub(crate) clocks: List<Clock>,
    pub(crate) waves: List<Wave>,
    names: BTreeSet<Text>,
}

/// The merged clocks of all clocks, of which each has the number of its merged clock.
pub(crate) fn merged_clocks(
    alloc: Global,
    standings: &List<Standing>,
    numbers: &List<u32>,
) -> Result<Merged, NoMemory>
    requires beside { length numbers.now ≡ length standings.now }
    requires rises { Rises numbers.now }
    ensures merged { IfOk result (λ m. AreMerged standings.now numbers.now m.clocks m.waves) }
    ensures few { IfOk result (λ m. length m.clocks ≤ length numbers.now) }
{
    let own = own_names(alloc, standings)?;
    let standings = standings.as_slice();
    let mut merged = Merged {
        clocks: List::new(alloc),
        waves: List::new(alloc),
        names: BTreeSet::new(alloc),
    };
    for (at, number) in numbers.as_slice().iter().enumerate() {
        if *number as usize == merged.clocks.len() {
            add_merged(alloc, &own, &mut merged, &standings[at])?;
        }
    }
    Ok(merged)
}

/// The names of all clocks of the modes.
fn own_names(alloc: Global, standings: &List<Standing>) -> Result<BTreeSet<Text>, NoMemory>
    ensures { IfOk result (λ names. HaveSameNames names.keys (identity.names_of standings.now)) }
{
    let mut names = BTreeSet::new(alloc);
    for standing in standings.as_slice() {
        let name = standing.name.copy(alloc)?;
        names.insert(name)?;
    }
    Ok(names)
}

/// Adds the merged clock whose first clock is this one.
fn add_merged(
    alloc: Global,
    own: &BTreeSet<Text>,
    merged: &mut Merged,
    first: &Standing,
) -> Result<(), NoMemory>
    ensures { OnOk result (AddsMerged own.now.keys first.now merged.old merged.new) }
{
    let name = merged_name(alloc, own, &merged.names, &first.name)?;
    let kept = name.copy(alloc)?;
    merged.names.insert(kept)?;
    let clock = clock_with(alloc, name, &first.definition)?;
    merged.clocks.push(clock)?;
    merged.waves.push(first.definition.wave)?;
    Ok(())
}

/// The clock of a name and a definition; no line made it.
fn clock_with(alloc: Global, name: Text, definition: &Definition) -> Result<Clock, NoMemory>
    ensures { IfOk result (λ clock. clock ≡ identity.clock_with name definition.now) }
{
    let sources = definition.sources.copy(alloc)?;
    Ok(Clock {
        line: 0,
        name,
        sources,
        form: definition.form,
        latency: definition.latency,
        setup_uncertainty: definition.setup_uncertainty,
        hold_uncertainty: definition.hold_uncertainty,
        propagated: definition.propagated,
    })
}
