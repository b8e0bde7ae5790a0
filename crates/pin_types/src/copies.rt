//! Copies of several members at once: a function that copies members one by one has a way out after each.

ghost use Rattle.std.specs.Prelude.{◌≡◌, IfOk};

use sdc_base::{Duplicate, NoMemory};
use std::alloc::Global;

/// Copies of two values. The one error is want of memory.
pub fn both<A: Duplicate + Drop, B: Duplicate + Drop>(
    alloc: Global,
    first: &A,
    second: &B,
) -> Result<(A, B), NoMemory>
    ensures { IfOk result (λ copies. copies ≡ (first.now, second.now)) }
{
    let first = first.copy(alloc)?;
    let second = second.copy(alloc)?;
    Ok((first, second))
}
