//! The time unit of a library (Liberty, `time_unit`). Which units are taken is this project's own.

ghost use Rattle.std.specs.Prelude.{◌≡◌, IfOk};
ghost use Rattle.library_model.specs.LibertyFaults as liberty;
ghost use Rattle.lib_cells.specs.Members.{member_seen, members_seen};

use crate::syntax::members::{Member, last_value, members};
use sdc_base::{NoMemory, Text};
use std::alloc::Global;

/// A unit by its name, in femtoseconds.
pub fn unit_named(name: &str) -> Option<u32>
    ensures { result ≡ liberty.unit_named name.now }
{
    if name == "1ps" {
        Some(1_000)
    } else if name == "10ps" {
        Some(10_000)
    } else if name == "100ps" {
        Some(100_000)
    } else if name == "1ns" {
        Some(1_000_000)
    } else {
        None
    }
}

/// The unit that a library says, if it is one; 1 ns where it says none.
fn unit_if(name: &Option<Text>) -> Option<u32>
    ensures { result ≡ liberty.unit_if name.now }
{
    match name {
        None => Some(1_000_000),
        Some(name) => unit_named(name.as_str()),
    }
}

/// The unit of a library in femtoseconds, where its last `time_unit` is one. The one error is want of memory.
pub fn unit_of(alloc: Global, library: &Member<'_>) -> Result<Option<u32>, NoMemory>
    ensures { IfOk result (λ unit. unit ≡ liberty.unit_of (member_seen library.now)) }
{
    let parts = members(alloc, 1, library.inside)?;
    let name = last_value(alloc, "time_unit", parts.as_slice())?;
    Ok(unit_if(&name))
}

/// The unit of the first library. The one error is want of memory.
pub fn first_unit(alloc: Global, libraries: &[Member<'_>]) -> Result<Option<u32>, NoMemory>
    ensures { IfOk result (λ unit. unit ≡ liberty.first_unit (members_seen libraries.now)) }
{
    match libraries {
        [] => Ok(None),
        [library, ..] => unit_of(alloc, library),
    }
}

/// Whether a unit is another than the first one.
pub fn is_other_unit(first: Option<u32>, unit: Option<u32>) -> bool
    ensures { result ≡ liberty.is_other_unit first unit }
{
    match (first, unit) {
        (Some(first), Some(unit)) => first != unit,
        _ => false,
    }
}
