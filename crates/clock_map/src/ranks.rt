//! The ranks of the clocks of a mode by name, among clocks of equal definitions.

ghost use Rattle.std.specs.Prelude.{◌≡◌, IfOk};
ghost use Rattle.std.specs.List.Sorted.{IsSorted};
ghost use Rattle.merge_model.specs.ClockIdentity.{rank_among, identities_among};

use sdc_base::{Duplicate, List, NoMemory};
use std::alloc::Global;
use timing_types::{Identity, Standing};

/// What makes each of these clocks of a mode one with clocks of other modes.
pub(crate) fn mode_identities(
    alloc: Global,
    standings: &List<Standing>,
) -> Result<List<Identity>, NoMemory>
    ensures { IfOk result (λ identities. identities ≡ identities_among standings.now) }
{
    let mut sorted = Vec::from(standings.copy(alloc)?);
    sorted.sort()?;
    let mut identities = List::new(alloc);
    for standing in standings.as_slice() {
        let definition = standing.definition.copy(alloc)?;
        let rank = rank_in(&sorted, standing);
        identities.push(Identity { definition, rank })?;
    }
    Ok(identities)
}

/// How many of these clocks, in order of definition, name and place, have the clock's definition and stand ahead of it.
fn rank_in(sorted: &[Standing], standing: &Standing) -> usize
    requires { IsSorted ⟦<Standing as Ord>⟧.cmp sorted.now }
    ensures { result ≡ rank_among sorted.now standing.now }
{
    let ahead = sorted.partition_point(|other| other.cmp(standing).is_lt());
    let of_less = sorted.partition_point(|other| other
        .definition
        .cmp(&standing.definition)
        .is_lt());
    ahead - of_less
}
