//! The instances of a design: their first fault, too large a design, or what stands in it.

ghost use Rattle.std.specs.Prelude.{◌≡◌, ◌<◌, IfOk, Some, length, slice_get, true};
ghost use Rattle.std.specs.List.{All};
ghost use Rattle.sdc_base.specs.Gives.{Meets};
ghost use Rattle.source_types.specs.declared.libraries.Library.{Library};
ghost use Rattle.source_types.specs.declared.netlists.Module.{Module};
ghost use Rattle.flat_model.specs.Flattening.{CanFlatten, NoneOfInstances, fault_of};
ghost use Rattle.flat_model.specs.FlatDesign.{flat};
ghost use Rattle.netlist_model.specs.WellFormedNetlist.{IsWellFormedNetlist};
ghost use Rattle.text_model.specs.Names.{AreDistinct};
ghost use Rattle.flat_design.specs.Elaborating.{AreSound, HasHierarchy, Elaborates, denoted, line_at, line_in};
ghost use Rattle.flat_design.specs.Steps.{all_steps, module_names};
ghost use Rattle.flat_design.specs.Walk.{AreOrdered, IsWithin, is_in};

use crate::elaborate::counts::{net_counts, port_count};
use crate::elaborate::expansion::expand;
use crate::elaborate::hierarchy::Hierarchy;
use crate::elaborate::sizes::is_counted_beyond;
use crate::elaborate::steps::{all_steps, module_place, tables_of};
use crate::elaborate::walk::{FaultAt, Step, walk};
use crate::items::item_at;
use sdc_base::{At, List, Stop, Text};
use source_types::{DesignKind, Library, Module};
use std::alloc::Global;

/// What stands in a design with a top module of a name; or its first fault, up to that it is too large.
pub(crate) fn elaborate<'a>(
    alloc: Global,
    modules: &'a [Module],
    library: &'a Library,
    top: &Text,
) -> Result<Hierarchy<'a>, Stop<At<DesignKind>>>
    requires { CanFlatten modules.now library.now }
    ensures { Meets result (Elaborates modules.now library.now top.now) }
{
    let tables = tables_of(alloc, modules, library)?;
    let steps = all_steps(alloc, &tables)?;
    let known = steps.as_slice();
    match module_place(&tables, top) {
        None => Err(Stop::Refused(without_line(DesignKind::UnknownModule))),
        Some(place) => match check_instances(alloc, modules, known, place) {
            Err(stop) => Err(stop),
            Ok(order) => expanded(alloc, modules, library, known, order.as_slice(), place),
        },
    }
}

/// What stands in a design with the top module at a place, whose instances have no fault. It is counted by modules,
/// which come in order, before it is expanded.
fn expanded<'a>(
    alloc: Global,
    modules: &'a [Module],
    library: &'a Library,
    steps: &[List<Step>],
    order: &[usize],
    place: usize,
) -> Result<Hierarchy<'a>, Stop<At<DesignKind>>>
    requires top { place < length modules.now }
    requires netlist { IsWellFormedNetlist modules.now }
    requires steps { steps.now ≡ all_steps modules.now library.now }
    requires order { AreOrdered steps.now order.now }
    requires reached { is_in order.now place ≡ true }
    requires sound { (body : Module) → slice_get modules.now place ≡ Some body
        → NoneOfInstances modules.now library.now (flat modules.now library.now body) }
    ensures { (body : Module) → slice_get modules.now place ≡ Some body → Meets result (HasHierarchy modules.now library.now body) }
{
    let counts = net_counts(alloc, modules)?;
    let known = counts.as_slice();
    let top = item_at(modules, place);
    let ports = port_count(top.ports.as_slice());
    if is_counted_beyond(alloc, library, steps, known, order, place, ports)? {
        return Err(Stop::Refused(without_line(DesignKind::TooMany)));
    }
    let found = expand(alloc, modules, library, steps, known, place, top)?;
    match found {
        None => Err(Stop::Refused(without_line(DesignKind::TooMany))),
        Some(elaboration) => Ok(Hierarchy {
            modules,
            library,
            top,
            elaboration,
        }),
    }
}

/// A fault that no line has.
fn without_line(kind: DesignKind) -> At<DesignKind>
    ensures { result ≡ fault_of 0 kind }
{
    At { line: 0, kind }
}

/// The modules that a design uses, each after those that it instantiates, where no instance has a fault; or the first
/// fault of one. Modules are given by the steps of their instances too.
fn check_instances(
    alloc: Global,
    modules: &[Module],
    steps: &[List<Step>],
    top: usize,
) -> Result<List<usize>, Stop<At<DesignKind>>>
    requires top { top < length steps.now }
    requires within { All (All (IsWithin (length steps.now))) steps.now }
    ensures order { IfOk result (λ order. AreOrdered steps.now order) }
    ensures reached { IfOk result (λ order. is_in order top ≡ true) }
    ensures sound { (library : Library) (body : Module) → AreDistinct (module_names modules.now)
        → steps.now ≡ all_steps modules.now library → slice_get modules.now top ≡ Some body
        → Meets result (AreSound modules.now library body) }
{
    match walk(alloc, steps, top) {
        Ok(order) => Ok(order),
        Err(Stop::Refused(found)) => Err(Stop::Refused(denoted(modules, found))),
        Err(Stop::NoMemory) => Err(Stop::NoMemory),
    }
}

/// The fault of an instance with its line.
fn denoted(modules: &[Module], found: FaultAt) -> At<DesignKind>
    ensures { result ≡ denoted modules.now found }
{
    At {
        line: line_at(modules, found.body, found.instance),
        kind: found.kind,
    }
}

/// The line of the instance at a place of the module at a place, where there is one.
fn line_at(modules: &[Module], body: usize, instance: usize) -> u32
    ensures { result ≡ line_at modules.now body instance }
{
    match modules.get(body) {
        Some(body) => line_in(body, instance),
        None => 0,
    }
}

/// The line of the instance at a place of a module, where there is one.
fn line_in(body: &Module, instance: usize) -> u32
    ensures { result ≡ line_in (slice_get body.now.instances instance) }
{
    match body.instances.get(instance) {
        Some(instance) => instance.line,
        None => 0,
    }
}
