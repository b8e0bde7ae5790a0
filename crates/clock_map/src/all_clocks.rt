//! The clocks of all modes, one mode after the other.

ghost use Rattle.std.specs.Prelude.{◌≡◌, ◌++◌, [], length, IfOk, OnOk};
ghost use Rattle.merge_model.specs.ClockIdentity.{standings_of, identities_of};
ghost use Rattle.merge_model.specs.PlainViews.{ModesArePrimary, HaveWaves};

use crate::ranks::mode_identities;
use crate::standings::mode_standings;
use sdc_base::{List, NoMemory};
use std::alloc::Global;
use timing_types::{Identity, Standing, View};

/// All clocks of the modes, and beside them what makes each of them one with clocks of other modes.
pub(crate) fn all_clocks(
    alloc: Global,
    modes: &List<View>,
) -> Result<(List<Standing>, List<Identity>), NoMemory>
    requires primary { ModesArePrimary modes.now }
    requires waves { HaveWaves modes.now }
    ensures standings { IfOk result (λ found. found.0 ≡ standings_of modes.now []) }
    ensures identities { IfOk result (λ found. found.1 ≡ identities_of modes.now []) }
{
    let mut standings = List::new(alloc);
    let mut identities = List::new(alloc);
    for view in modes.as_slice() {
        let of_mode = mode_standings(alloc, view)?;
        let their_identities = mode_identities(alloc, &of_mode)?;
        append(&mut identities, their_identities)?;
        append(&mut standings, of_mode)?;
    }
    Ok((standings, identities))
}

/// Adds items at the end. The one error is want of memory, which may leave a part of them there.
fn append<T: Drop>(list: &mut List<T>, more: List<T>) -> Result<(), NoMemory>
    ensures { OnOk result (list.new ≡ list.old ++ more) }
{
    for item in Vec::from(more) {
        list.push(item)?;
    }
    Ok(())
}
