//! A design's hierarchy: its modules and library, and what stands in it.

ghost use Rattle.std.specs.Prelude.{◌≡◌, ◌<◌, IfOk, Some, length, map, slice_get, take};
ghost use Rattle.flat_model.specs.Instances.{Placed, ModuleInstance};
ghost use Rattle.flat_design.specs.Hierarchy.{IsHierarchy, prefix_in, scopes_in};
ghost use Rattle.flat_design.specs.Elaboration.{IsPlaced};

use crate::elaborate::elaboration::{Elaboration, Outer};
use crate::items::item_at;
use crate::names::full_names::{full_name, inner_prefix};
use sdc_base::{List, NoMemory, Text};
use source_types::{Instance, Library, Module};
use std::alloc::Global;

/// A design's modules and library, its top module, and what stands in it.
#[derive(Drop)]
pub(crate) struct Hierarchy<'a> {
    pub(crate) modules: &'a [Module],
    pub(crate) library: &'a Library,
    pub(crate) top: &'a Module,
    pub(crate) elaboration: Elaboration,
}

/// The module of the module instance at a place.
pub(crate) fn body_at<'a>(design: &Hierarchy<'a>, place: usize) -> &'a Module
    requires is { IsHierarchy design.now }
    requires within { place < length design.now.elaboration.scopes }
    ensures { (scope : ModuleInstance) → slice_get (scopes_in design.now) place ≡ Some scope → result.now ≡ scope.body }
{
    let row = item_at(design.elaboration.scopes.as_slice(), place);
    item_at(design.modules, row.body)
}

/// The instance at a place.
pub(crate) fn instance_at<'a>(design: &Hierarchy<'a>, at: Outer) -> &'a Instance
    requires is { IsHierarchy design.now }
    requires there { (placed : Placed) × IsPlaced (scopes_in design.now) placed at }
    ensures { (placed : Placed) → IsPlaced (scopes_in design.now) placed at → result.now ≡ placed.instance }
{
    let body = body_at(design, at.scope);
    item_at(body.instances.as_slice(), at.instance)
}

/// What stands in front of the names in each module instance.
pub(crate) fn prefixes(alloc: Global, design: &Hierarchy<'_>) -> Result<List<Text>, NoMemory>
    requires { IsHierarchy design.now }
    ensures { IfOk result (λ all. all ≡ map prefix_in (scopes_in design.now)) }
{
    let mut all = List::new(alloc);
    for _place in 0..design.elaboration.scopes.len() {
        let prefix = next_prefix(alloc, design, &all)?;
        all.push(prefix)?;
    }
    Ok(all)
}

/// What stands in front of the names in the next module instance.
fn next_prefix(alloc: Global, design: &Hierarchy<'_>, before: &List<Text>) -> Result<Text, NoMemory>
    requires is { IsHierarchy design.now }
    requires within { length before.now < length design.now.elaboration.scopes }
    requires before { before.now ≡ map prefix_in (take (length before.now) (scopes_in design.now)) }
    ensures { (scope : ModuleInstance) → slice_get (scopes_in design.now) (length before.now) ≡ Some scope
        → IfOk result (λ prefix. prefix ≡ scope.prefix) }
{
    let row = item_at(design.elaboration.scopes.as_slice(), before.len());
    match row.outer {
        None => Ok(Text::new(alloc)),
        Some(at) => {
            let around = item_at(before.as_slice(), at.scope);
            let instance = instance_at(design, at);
            let full = full_name(alloc, around.as_str(), instance.name.as_str())?;
            inner_prefix(alloc, full.as_str())
        }
    }
}
