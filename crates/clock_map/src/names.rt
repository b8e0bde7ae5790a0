//! The names of merged clocks.

ghost use Rattle.std.specs.Prelude.{◌≡◌, ◌↔◌, IfOk, IsTrue};
ghost use Rattle.merge_model.specs.ClockIdentity as identity;
ghost use Rattle.clock_map.specs.MergedClocks.{IsTaken};

use itoa::Buffer;
use sdc_base::{Duplicate, NoMemory, Text};
use std::alloc::Global;
use std::collections::BTreeSet;

/// The name of a merged clock whose first clock has the name `first`: that name, if no earlier merged clock has it, and
/// a free one else.
pub(crate) fn merged_name(
    alloc: Global,
    own: &BTreeSet<Text>,
    earlier: &BTreeSet<Text>,
    first: &Text,
) -> Result<Text, NoMemory>
    ensures { IfOk result (identity.IsMergedName own.now.keys earlier.now.keys first.now) }
{
    if earlier.contains(first) {
        free_name(alloc, own, earlier, first)
    } else {
        first.copy(alloc)
    }
}

/// The name with `_k` that no clock of a mode and no earlier merged clock has, with the least k from 1.
fn free_name(
    alloc: Global,
    own: &BTreeSet<Text>,
    earlier: &BTreeSet<Text>,
    first: &Text,
) -> Result<Text, NoMemory>
    ensures { IfOk result (identity.IsFreeName own.now.keys earlier.now.keys first.now) }
{
    let most = own.len() as u64 + earlier.len() as u64;
    let mut k = 1_u64;
    let mut name = numbered_name(alloc, first, k)?;
    while is_taken(own, earlier, &name) {
        // no more names are taken than there are
        prove!(k <= most);
        k += 1;
        name = numbered_name(alloc, first, k)?;
    }
    Ok(name)
}

/// Whether a clock of a mode or an earlier merged clock has the name.
fn is_taken(own: &BTreeSet<Text>, earlier: &BTreeSet<Text>, name: &Text) -> bool
    ensures { IsTrue result ↔ IsTaken own.now.keys earlier.now.keys name.now }
{
    own.contains(name) || earlier.contains(name)
}

/// The name with `_k`.
fn numbered_name(alloc: Global, name: &Text, k: u64) -> Result<Text, NoMemory>
    ensures { IfOk result (λ numbered. numbered ≡ identity.numbered_name name.now k) }
{
    let mut numbered = name.copy(alloc)?;
    let mut buffer = Buffer::new();
    numbered.push_str("_")?;
    numbered.push_str(buffer.format(k))?;
    Ok(numbered)
}
