//! The numbers of all clocks, mode by mode.

ghost use Rattle.std.specs.Prelude.{◌≡◌, length, IfOk};
ghost use Rattle.std.specs.List.{concat};
ghost use Rattle.merge_model.specs.PlainViews.{clock_count};
ghost use Rattle.clock_map.specs.Numbering.{HaveRows};

use sdc_base::{List, NoMemory};
use std::alloc::Global;
use timing_types::View;

/// For each mode the numbers of its clocks, of those of all clocks.
pub(crate) fn rows_of(
    alloc: Global,
    modes: &List<View>,
    numbers: &List<u32>,
) -> Result<List<List<u32>>, NoMemory>
    requires { length numbers.now ≡ clock_count modes.now }
    ensures all { IfOk result (λ rows. concat rows ≡ numbers.now) }
    ensures shape { IfOk result (HaveRows modes.now) }
{
    let numbers = numbers.as_slice();
    let mut rows = List::new(alloc);
    let mut at = 0;
    for view in modes.as_slice() {
        let end = at + view.mode.clocks.len();
        let row = Vec::from_slice(alloc, &numbers[at..end])?;
        rows.push(List::from(row))?;
        at = end;
    }
    Ok(rows)
}
