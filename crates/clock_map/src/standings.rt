//! The clocks of one mode, as the ranks of the mode see them.

ghost use Rattle.std.specs.Prelude.{◌≡◌, [], length, IfOk};
ghost use Rattle.merge_model.specs.ClockIdentity as identity;
ghost use Rattle.merge_model.specs.PlainViews.{ArePrimary};

use sdc_base::{Duplicate, List, NoMemory};
use std::alloc::Global;
use timing_types::{Clock, Definition, Standing, View, Wave};

/// The clocks of a mode in order of definition.
pub(crate) fn mode_standings(alloc: Global, view: &View) -> Result<List<Standing>, NoMemory>
    requires primary { ArePrimary view.now.mode.clocks }
    requires waves { length view.now.waves ≡ length view.now.mode.clocks }
    ensures { IfOk result (λ standings. standings ≡ identity.mode_standings [] view.now) }
{
    let waves = view.waves.as_slice();
    let mut standings = List::new(alloc);
    for (place, clock) in view.mode.clocks.as_slice().iter().enumerate() {
        let definition = definition_of(alloc, clock, waves[place])?;
        let name = clock.name.copy(alloc)?;
        standings.push(Standing {
            definition,
            name,
            place,
        })?;
    }
    Ok(standings)
}

/// What of a clock of this waveform decides which merged clock it is.
fn definition_of(alloc: Global, clock: &Clock, wave: Wave) -> Result<Definition, NoMemory>
    ensures { IfOk result (λ d. d ≡ identity.definition_of clock.now.form clock.now wave) }
{
    let sources = clock.sources.copy(alloc)?;
    Ok(Definition {
        sources,
        wave,
        form: clock.form,
        latency: clock.latency,
        setup_uncertainty: clock.setup_uncertainty,
        hold_uncertainty: clock.hold_uncertainty,
        propagated: clock.propagated,
    })
}
