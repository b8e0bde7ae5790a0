//! The numbers of nets: where a net bit of a module stands among all net bits of a design.

ghost use Rattle.std.specs.Prelude.{◌≡◌, IfOk, Some, slice_get};
ghost use Rattle.std.specs.List.{AllZip};
ghost use Rattle.flat_model.specs.FlatNets.{net_bit};
ghost use Rattle.flat_model.specs.Instances.{ModuleInstance};
ghost use Rattle.netlist_model.specs.Ranges.{from_to, indices};
ghost use Rattle.netlist_model.specs.WellFormedNetlist.{IsBetween, IsNetBit, Selects};
ghost use Rattle.flat_design.specs.Hierarchy.{IsHierarchy, scopes_in};
ghost use Rattle.flat_design.specs.NetNumbers.{IsNetTable, IsNumber, net_starts};

use crate::elaborate::elaboration::capped;
use crate::elaborate::hierarchy::Hierarchy;
use crate::items::item_at;
use crate::names::named::{place, table};
use crate::ranges::width;
use indexmap::IndexMap;
use sdc_base::{List, NoMemory, Text};
use source_types::{Module, Range, Wire};
use std::alloc::Global;

/// The nets of a module: their places by name, and the numbers of their first bits in the module by place.
#[derive(Drop)]
pub(crate) struct NetTable<'a> {
    pub(crate) places: IndexMap<&'a str, usize>,
    pub(crate) starts: List<u64>,
}

/// The tables of the nets of each module.
pub(crate) fn net_tables(alloc: Global, modules: &[Module]) -> Result<Vec<NetTable<'_>>, NoMemory>
    ensures { IfOk result (λ all. AllZip (λ m found. IsNetTable m.nets found) modules.now all.items) }
{
    let mut all = Vec::new(alloc);
    for body in modules {
        let nets = body.nets.as_slice();
        let places = table(alloc, nets)?;
        let starts = net_starts(alloc, nets)?;
        all.push(NetTable { places, starts })?;
    }
    Ok(all)
}

/// The numbers of the first bits of nets, as far as a design may have.
fn net_starts(alloc: Global, nets: &[Wire]) -> Result<List<u64>, NoMemory>
    ensures { IfOk result (λ starts. starts ≡ net_starts 0 nets.now) }
{
    let mut starts = List::new(alloc);
    let mut start = 0;
    for net in nets {
        starts.push(start)?;
        start = capped(start, width(net.range));
    }
    Ok(starts)
}

/// The place of an index among the bits of a net, from the leftmost on.
fn offset(range: Option<Range>, index: Option<u32>) -> u64
    requires { Selects index range }
    ensures { slice_get (indices range) result ≡ Some index }
{
    match range {
        Some(range) => offset_in(range, index),
        None => 0,
    }
}

/// The place of an index among the bits of a vector.
fn offset_in(range: Range, index: Option<u32>) -> u64
    requires { Selects index (Some range) }
    ensures { slice_get (indices (Some range)) result ≡ Some index }
{
    match index {
        Some(index) => between(range.left, range.right, index),
        None => 0,
    }
}

/// How far a number is from the left one of two that it is between.
fn between(left: u32, right: u32, index: u32) -> u64
    requires { IsBetween (record { left = left; right = right }) index }
    ensures { slice_get (from_to left right) result ≡ Some index }
{
    if left <= right {
        u64::from(index - left)
    } else {
        u64::from(left - index)
    }
}

/// The number of a net bit of the module instance at a place.
pub(crate) fn net_number(
    design: &Hierarchy<'_>,
    tables: &[NetTable<'_>],
    scope: usize,
    name: &Text,
    index: Option<u32>,
) -> u64
    requires is { IsHierarchy design.now }
    requires tables { AllZip (λ m found. IsNetTable m.nets found) design.now.modules.now tables.now }
    requires there { (found : ModuleInstance) × (slice_get (scopes_in design.now) scope ≡ Some found) × IsNetBit found.body.nets name.now index }
    ensures { (found : ModuleInstance) → slice_get (scopes_in design.now) scope ≡ Some found → IsNetBit found.body.nets name.now index
        → IsNumber (scopes_in design.now) result (net_bit found.path name.now index) }
{
    let row = item_at(design.elaboration.scopes.as_slice(), scope);
    let body = item_at(design.modules, row.body);
    let known = item_at(tables, row.body);
    match place(&known.places, name.as_str()) {
        Some(net) => {
            let start = item_at(known.starts.as_slice(), net);
            let wire = item_at(body.nets.as_slice(), net);
            row.first_net + *start + offset(wire.range, index)
        }
        None => 0,
    }
}
