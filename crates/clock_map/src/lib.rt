//! Which clocks of several modes are one.
//!
//! It gives the layer above `map_clocks`, the merged clocks of several modes with the merged clock that each clock is,
//! and `exclusive_pairs`, the merged clocks that are exclusive. It leaves to others what a mode says of paths, and how
//! a merged mode is printed.
#![tactic(auto)]

mod all_clocks;
mod exclusive;
mod map_laws;
mod merged;
mod names;
mod numbering;
mod plain_views;
mod ranks;
mod rows;
mod standings;
mod timings;

ghost use Rattle.std.specs.Prelude.{◌≡◌, ◌≤◌, length, IfOk};
ghost use Rattle.merge_model.specs.ClockIdentity.{IsClockMap};
ghost use Rattle.merge_model.specs.Exclusive.{HaveEachOnce};
ghost use Rattle.merge_model.specs.PlainViews.{ArePlain, clock_count};

pub use exclusive::{ExclusiveRows, exclusive_pairs};
pub use map_laws::{
    clocks_of_a_mode_are_distinct, equal_modes_share_clocks, merged_clocks_come_from_modes,
    merged_clocks_have_one_list_of_pairs, merged_names_are_distinct, modes_have_one_map,
};
pub use plain_views::are_plain;
use sdc_base::{List, NoMemory};
use std::alloc::Global;
pub use timing_types::ClockMap;
use timing_types::View;

/// The merged clocks of several modes, and for each mode the merged clock that each of its clocks is.
///
/// The rule is this project's own: clocks of different modes are one exactly where their definitions are equal, names
/// and lines aside, and they have the same rank by name among the equal definitions of their mode. The modes' own
/// `clock_map` is not read. All clocks are primary ones, as `are_plain` tests. The one error is want of memory.
pub fn map_clocks(alloc: Global, modes: &List<View>) -> Result<ClockMap, NoMemory>
    requires { ArePlain modes.now }
    ensures map { IfOk result (IsClockMap modes.now) }
    ensures beside { IfOk result (λ map. length map.maps ≡ length modes.now) }
    ensures apart { IfOk result (λ map. HaveEachOnce map.maps) }
    ensures few { IfOk result (λ map. length map.clocks ≤ clock_count modes.now) }
{
    let (standings, identities) = all_clocks::all_clocks(alloc, modes)?;
    let numbers = numbering::numbers_of(alloc, &identities)?;
    let merged = merged::merged_clocks(alloc, &standings, &numbers)?;
    let maps = rows::rows_of(alloc, modes, &numbers)?;
    Ok(ClockMap {
        clocks: merged.clocks,
        waves: merged.waves,
        maps,
    })
}
