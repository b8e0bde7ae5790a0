//! The design without a pin.

ghost use Rattle.std.specs.Prelude.{◌≡◌, IfOk, Ok};
ghost use Rattle.design_model.specs.WellFormedDesign.{IsWellFormedDesign};
ghost use Rattle.flat_design.specs.EmptyDesign.{empty_design};

use sdc_base::{List, NoMemory, Text};
use std::alloc::Global;
use timing_types::Design;

/// Femtoseconds in a nanosecond, the unit of the design without a pin.
const NANOSECOND: i64 = 1_000_000;

/// The design without a pin, whose times are in nanoseconds. It takes no memory.
pub fn empty(alloc: Global) -> Result<Design, NoMemory>
    ensures is { result ≡ Ok empty_design }
    ensures formed { IfOk result IsWellFormedDesign }
{
    Ok(Design {
        top: Text::new(alloc),
        unit: NANOSECOND,
        pins: List::new(alloc),
        cells: List::new(alloc),
        nets: List::new(alloc),
        kinds: List::new(alloc),
    })
}
