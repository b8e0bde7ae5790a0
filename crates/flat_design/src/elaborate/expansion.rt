//! The expansion of a design: what stands in it, in its order.

ghost use Rattle.std.specs.Prelude.{◌≡◌, ◌<◌, ◌-◌, ◌^◌, IfOk, Some, length, map, slice_get};
ghost use Rattle.flat_model.specs.FlatDesign.{flat};
ghost use Rattle.flat_model.specs.Flattening.{NoneOfInstances};
ghost use Rattle.flat_design.specs.Expansion.{HasElaboration, HasRoom, begun, frame_after, outer_of, next_step_at, next_step_of};
ghost use Rattle.flat_design.specs.Elaboration.{net_count, top_elaboration};
ghost use Rattle.flat_design.specs.Steps.{all_steps};

use crate::elaborate::counts::{pin_count, port_count};
use crate::elaborate::elaboration::{Elaboration, Outer};
use crate::elaborate::walk::Step;
use sdc_base::{List, NoMemory};
use source_types::{Library, Module};
use std::alloc::Global;
use std::collections::VecDeque;

/// The most instances of which one stands in the other.
const MOST_LEVELS: usize = 100;

/// A module instance that is being expanded: its places among those of the design and among modules, the
/// instance that is next, and how many instances stand around it.
#[derive(Clone, Copy)]
struct Opened {
    scope: usize,
    body: usize,
    next: usize,
    level: usize,
}

/// What is next in a module that is being expanded.
#[derive(Clone, Copy)]
enum NextStep {
    /// Nothing is left in it.
    End,
    /// An instance that stands too deep.
    Deep,
    /// A library cell, by its place.
    Cell(usize),
    /// A module, by its place.
    Enter(usize),
}

/// What stands in a design, or nothing where it is too large. Modules are given by the steps of their instances too,
/// and by the numbers of their net bits.
pub(crate) fn expand(
    alloc: Global,
    modules: &[Module],
    library: &Library,
    steps: &[List<Step>],
    net_counts: &[u64],
    top: usize,
    body: &Module,
) -> Result<Option<Elaboration>, NoMemory>
    requires top { slice_get modules.now top ≡ Some body.now }
    requires steps { steps.now ≡ all_steps modules.now library.now }
    requires counts { net_counts.now ≡ map (λ m. net_count m.nets) modules.now }
    requires sound { NoneOfInstances modules.now library.now (flat modules.now library.now body.now) }
    ensures { IfOk result (HasElaboration modules.now library.now body.now) }
{
    let ports = port_count(body.ports.as_slice());
    let mut elaboration = top_elaboration(alloc, top, count_at(net_counts, top), ports)?;
    let mut stack = VecDeque::new(alloc);
    stack.push_front(begun(0, top, 0))?;
    while let Some(frame) = stack.pop_front() {
        if elaboration.is_too_large() {
            return Ok(None);
        }
        let at = outer_of(frame);
        match next_step_at(steps, frame) {
            NextStep::Deep => return Ok(None),
            NextStep::End => {}
            NextStep::Cell(kind) => {
                elaboration.add_cell(at, kind, pin_count(library, kind))?;
                stack.push_front(frame_after(frame))?;
            }
            NextStep::Enter(inner) => {
                let scope = elaboration.scopes.len();
                elaboration.add_instance(inner, Some(at), count_at(net_counts, inner))?;
                stack.push_front(frame_after(frame))?;
                stack.push_front(begun(scope, inner, frame.level + 1))?;
            }
        }
    }
    if elaboration.is_too_large() {
        return Ok(None);
    }
    Ok(Some(elaboration))
}

/// The elaboration of a top module alone, with so many nets and pins.
fn top_elaboration(alloc: Global, top: usize, nets: u64, pins: u64) -> Result<Elaboration, NoMemory>
    ensures { IfOk result (λ elaboration. elaboration ≡ top_elaboration top nets pins) }
{
    let mut elaboration = Elaboration {
        scopes: List::new(alloc),
        cells: List::new(alloc),
        nets: 0,
        pins,
    };
    elaboration.add_instance(top, None, nets)?;
    Ok(elaboration)
}

/// The number of net bits of the module at a place.
fn count_at(net_counts: &[u64], place: usize) -> u64
    requires { place < length net_counts.now }
    ensures { slice_get net_counts.now place ≡ Some result }
{
    net_counts[place]
}

/// A module whose instances are all still to be expanded.
fn begun(scope: usize, body: usize, level: usize) -> Opened
    ensures { result ≡ begun scope body level }
{
    Opened {
        scope,
        body,
        next: 0,
        level,
    }
}

/// The instance that is next in a module.
fn outer_of(frame: Opened) -> Outer
    ensures { result ≡ outer_of frame }
{
    Outer {
        scope: frame.scope,
        instance: frame.next,
    }
}

/// A module after the instance that was next.
fn frame_after(frame: Opened) -> Opened
    requires { frame.next < 2 ^ 64 - 1 }
    ensures { result ≡ frame_after frame }
{
    Opened {
        scope: frame.scope,
        body: frame.body,
        next: frame.next + 1,
        level: frame.level,
    }
}

/// What is next in a module.
fn next_step_at(all: &[List<Step>], frame: Opened) -> NextStep
    requires { frame.body < length all.now }
    ensures next_step { result ≡ next_step_at all.now frame }
    ensures room { HasRoom result frame.next }
{
    if frame.level >= all.len() {
        return NextStep::End;
    }
    let steps = &all[frame.body];
    let count = steps.len();
    match steps.get(frame.next) {
        Some(step) => {
            prove!(frame.next < count);
            prove!(frame.next < usize::MAX);
            next_step_of(frame.level, *step)
        }
        None => NextStep::End,
    }
}

/// What an instance is in a module with so many instances around it.
fn next_step_of(level: usize, step: Step) -> NextStep
    ensures { result ≡ next_step_of level step }
{
    match step {
        Step::Fault(_) => NextStep::End,
        Step::Cell(kind) => {
            if level < MOST_LEVELS {
                NextStep::Cell(kind)
            } else {
                NextStep::Deep
            }
        }
        Step::Enter { opened, .. } => {
            if level < MOST_LEVELS {
                NextStep::Enter(opened)
            } else {
                NextStep::Deep
            }
        }
    }
}
