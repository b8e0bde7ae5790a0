//! The names of the nets and cells of a design.

ghost use Rattle.std.specs.Prelude.{◌≡◌, ◌++◌, IfOk, OnOk, map};
ghost use Rattle.std.specs.List.{flat_map};
ghost use Rattle.flat_model.specs.FlatNets.{net_name, nets_in};
ghost use Rattle.flat_model.specs.Instances.{Placed, full_name};
ghost use Rattle.flat_design.specs.Elaboration.{IsPlaced};
ghost use Rattle.flat_design.specs.Hierarchy.{IsHierarchy, bit_names, cell_name, cells_in, prefix_in, scopes_in, wire_names};

use crate::elaborate::elaboration::Outer;
use crate::elaborate::hierarchy::{Hierarchy, body_at, instance_at};
use crate::items::item_at;
use crate::names::full_names::{bit_name, full_name};
use crate::ranges::{index_at, width};
use sdc_base::{List, NoMemory, Text};
use source_types::{Range, Wire};
use std::alloc::Global;

/// The names of all net bits, the module instances being given by their prefixes.
pub(crate) fn net_names(
    alloc: Global,
    design: &Hierarchy<'_>,
    prefixes: &[Text],
) -> Result<List<Text>, NoMemory>
    requires is { IsHierarchy design.now }
    requires prefixes { prefixes.now ≡ map prefix_in (scopes_in design.now) }
    ensures { IfOk result (λ names. names ≡ map net_name (flat_map nets_in (scopes_in design.now))) }
{
    let mut names = List::new(alloc);
    for place in 0..prefixes.len() {
        let prefix = item_at(prefixes, place);
        let body = body_at(design, place);
        add_net_names(alloc, &mut names, prefix.as_str(), body.nets.as_slice())?;
    }
    Ok(names)
}

/// Adds the names of the bits of nets in a module with a prefix.
fn add_net_names(
    alloc: Global,
    names: &mut List<Text>,
    prefix: &str,
    nets: &[Wire],
) -> Result<(), NoMemory>
    ensures { OnOk result (names.new ≡ names.old ++ flat_map (wire_names prefix.now) nets.now) }
{
    for net in nets {
        add_bit_names(alloc, names, prefix, net.name.as_str(), net.range)?;
    }
    Ok(())
}

/// Adds the names of the bits of a net or a port in a module with a prefix.
pub(crate) fn add_bit_names(
    alloc: Global,
    names: &mut List<Text>,
    prefix: &str,
    name: &str,
    range: Option<Range>,
) -> Result<(), NoMemory>
    ensures { OnOk result (names.new ≡ names.old ++ bit_names prefix.now name.now range) }
{
    for place in 0..width(range) {
        let index = index_at(range, place);
        let bit = bit_name(alloc, prefix, name, index)?;
        names.push(bit)?;
    }
    Ok(())
}

/// The names of all cells, the module instances being given by their prefixes.
pub(crate) fn cell_names(
    alloc: Global,
    design: &Hierarchy<'_>,
    prefixes: &[Text],
) -> Result<List<Text>, NoMemory>
    requires is { IsHierarchy design.now }
    requires prefixes { prefixes.now ≡ map prefix_in (scopes_in design.now) }
    ensures { IfOk result (λ names. names ≡ map cell_name (cells_in design.now)) }
{
    let mut names = List::new(alloc);
    for place in 0..design.elaboration.cells.len() {
        let row = item_at(design.elaboration.cells.as_slice(), place);
        let name = name_of(alloc, design, prefixes, row.at)?;
        names.push(name)?;
    }
    Ok(names)
}

/// The name of a cell.
fn name_of(
    alloc: Global,
    design: &Hierarchy<'_>,
    prefixes: &[Text],
    at: Outer,
) -> Result<Text, NoMemory>
    requires is { IsHierarchy design.now }
    requires prefixes { prefixes.now ≡ map prefix_in (scopes_in design.now) }
    requires there { (placed : Placed) × IsPlaced (scopes_in design.now) placed at }
    ensures { (placed : Placed) → IsPlaced (scopes_in design.now) placed at
        → IfOk result (λ name. name ≡ full_name placed) }
{
    let prefix = item_at(prefixes, at.scope);
    let instance = instance_at(design, at);
    full_name(alloc, prefix.as_str(), instance.name.as_str())
}
