//! The nets of a design, made of their names and sources.

ghost use Rattle.std.specs.Prelude.{◌≡◌, IfOk, length};
ghost use Rattle.flat_design.specs.DesignParts.{net_infos};

use crate::items::item_at;
use sdc_base::{List, NoMemory, Text};
use std::alloc::Global;
use timing_types::{NetInfo, Source};

/// Nets with these names, by the sources of all nets.
pub(crate) fn nets_of(
    alloc: Global,
    names: List<Text>,
    ends: &[Source],
) -> Result<List<NetInfo>, NoMemory>
    requires { length names ≡ length ends.now }
    ensures { IfOk result (λ nets. nets ≡ net_infos names ends.now) }
{
    let mut nets = List::new(alloc);
    for name in Vec::from(names) {
        let source = *item_at(ends, nets.len());
        nets.push(NetInfo { name, source })?;
    }
    Ok(nets)
}
