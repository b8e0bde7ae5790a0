//! Numbers for identities, in the order of their first appearance.

ghost use Rattle.std.specs.Prelude.{◌<◌, ◌≤◌, ◌^◌, length, IfOk};
ghost use Rattle.std.specs.BTreeMap.{btree_map_len};
ghost use Rattle.clock_map.specs.Numbering.{AreNumbers, Numbers};

use sdc_base::{Duplicate, List, NoMemory};
use std::alloc::Global;
use std::collections::BTreeMap;
use timing_types::Identity;

/// A number for each identity, the same for equal ones alone.
pub(crate) fn numbers_of(alloc: Global, identities: &List<Identity>) -> Result<List<u32>, NoMemory>
    requires { length identities.now ≤ 2 ^ 32 }
    ensures { IfOk result (AreNumbers identities.now) }
{
    let mut known = BTreeMap::new(alloc);
    let mut numbers = List::new(alloc);
    for identity in identities.as_slice() {
        let number = number_of(alloc, &mut known, identity)?;
        numbers.push(number)?;
    }
    Ok(numbers)
}

/// The number of an identity: the known one, or the next new one, which is known from then on.
fn number_of(
    alloc: Global,
    known: &mut BTreeMap<Identity, u32>,
    identity: &Identity,
) -> Result<u32, NoMemory>
    requires { btree_map_len known.old < 2 ^ 32 }
    ensures { IfOk result (λ number. Numbers known.old identity.now number known.new) }
{
    if let Some(number) = known.get(identity) {
        return Ok(*number);
    }
    let number = known.len() as u32;
    let kept = identity.copy(alloc)?;
    known.insert(kept, number)?;
    Ok(number)
}
