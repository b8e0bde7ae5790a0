//! A table of what drives each net.

ghost use Rattle.std.specs.Prelude.{◌≡◌, ◌<◌, IfOk, false, length, replicate};
ghost use Rattle.std.specs.Option.{option_to_list};
ghost use Rattle.flat_design.specs.Sources.{driven_by, has_two};
ghost use Rattle.flat_design.specs.SourceTable.{AreNetRows, IsLinked, IsSourceTable};

use crate::drivers::driver_edges::{Driver, DriverEdge};
use crate::items::item_at;
use sdc_base::{List, NoMemory};
use std::alloc::Global;

/// What drives each net: of each net its last row, and of each row the one before it of the same net, counted from 1.
#[derive(Drop)]
pub(crate) struct SourceTable<'a> {
    pub(crate) rows: &'a [DriverEdge],
    pub(crate) last: List<usize>,
    pub(crate) earlier: List<usize>,
}

/// The table of what drives so many nets.
pub(crate) fn source_table<'a>(
    alloc: Global,
    rows: &'a [DriverEdge],
    nets: usize,
) -> Result<SourceTable<'a>, NoMemory>
    requires { AreNetRows nets rows.now }
    ensures { IfOk result (IsSourceTable rows.now nets) }
{
    let mut last = no_rows(alloc, nets)?;
    let mut earlier = Vec::new(alloc);
    for place in 0..rows.len() {
        let net = item_at(rows, place).to as usize;
        earlier.push(last[net])?;
        last[net] = place + 1;
    }
    Ok(SourceTable {
        rows,
        last: List::from(last),
        earlier: List::from(earlier),
    })
}

/// That nothing drives so many nets.
fn no_rows(alloc: Global, nets: usize) -> Result<Vec<usize>, NoMemory>
    ensures { IfOk result (λ last. last.items ≡ replicate nets 0) }
{
    Ok(vec![in alloc; 0; nets]?)
}

/// Whether a net has two sources or more.
pub(crate) fn has_two(table: &SourceTable<'_>, net: usize) -> bool
    requires table { IsLinked table.now }
    requires net { net < length table.now.last }
    ensures { result ≡ has_two table.now.rows.now net }
{
    let last = *item_at(table.last.as_slice(), net);
    last > 0 && *item_at(table.earlier.as_slice(), last - 1) > 0
}

/// What drives a net without two sources, where something does.
pub(crate) fn only_source(table: &SourceTable<'_>, net: usize) -> Option<Driver>
    requires table { IsLinked table.now }
    requires net { net < length table.now.last }
    ensures { has_two table.now.rows.now net ≡ false → driven_by table.now.rows.now net ≡ option_to_list result }
{
    let last = *item_at(table.last.as_slice(), net);
    if last > 0 {
        Some(item_at(table.rows, last - 1).from)
    } else {
        None
    }
}
