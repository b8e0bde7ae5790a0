//! How much stands in the modules of a design and below them, each module counted once.

ghost use Rattle.std.specs.Prelude.{◌≡◌, ◌<◌, IfOk, length, replicate};
ghost use Rattle.std.specs.List.{All};
ghost use Rattle.flat_design.specs.Sizes.{IsKind, cell_size, inner_size, is_beyond, is_counted_beyond, joined, module_size, no_size, sizes_in, step_size};
ghost use Rattle.flat_design.specs.Walk.{IsWithin};

use crate::elaborate::counts::pin_count;
use crate::elaborate::elaboration::{MOST_PINS, MOST_THINGS, capped};
use crate::elaborate::walk::Step;
use sdc_base::{List, NoMemory};
use source_types::Library;
use std::alloc::Global;

/// What stands in a module and below it: instances, bits of nets and pins of cells, as far as a design may have.
#[derive(Clone, Copy)]
pub(crate) struct Size {
    pub(crate) instances: u64,
    pub(crate) nets: u64,
    pub(crate) pins: u64,
}

/// Whether more stands in a design than is taken, with this top module, which has so many port bits. Modules are given
/// by the steps of their instances, by the numbers of their net bits, and in an order in which each stands after those
/// that it instantiates.
pub(crate) fn is_counted_beyond(
    alloc: Global,
    library: &Library,
    steps: &[List<Step>],
    net_counts: &[u64],
    order: &[usize],
    top: usize,
    ports: u64,
) -> Result<bool, NoMemory>
    requires top { top < length steps.now }
    requires within { All (All (IsWithin (length steps.now))) steps.now }
    requires kinds { All (All (IsKind (length library.now.cells))) steps.now }
    requires counts { length net_counts.now ≡ length steps.now }
    requires order { All (λ m. m < length steps.now) order.now }
    ensures { IfOk result (λ beyond. beyond
        ≡ is_counted_beyond library.now steps.now net_counts.now order.now top ports) }
{
    let sizes = sizes_of(alloc, library, steps, net_counts, order)?;
    Ok(is_beyond(ports, sizes[top]))
}

/// The sizes of modules by their places, each counted after those that it instantiates.
fn sizes_of(
    alloc: Global,
    library: &Library,
    steps: &[List<Step>],
    net_counts: &[u64],
    order: &[usize],
) -> Result<Vec<Size>, NoMemory>
    requires within { All (All (IsWithin (length steps.now))) steps.now }
    requires kinds { All (All (IsKind (length library.now.cells))) steps.now }
    requires counts { length net_counts.now ≡ length steps.now }
    requires order { All (λ m. m < length steps.now) order.now }
    ensures count { IfOk result (λ sizes. length sizes.items ≡ length steps.now) }
    ensures sizes { IfOk result (λ sizes. sizes.items
        ≡ sizes_in library.now steps.now net_counts.now order.now) }
{
    let mut sizes = no_sizes(alloc, steps.len())?;
    for place in order {
        let own = steps[*place].as_slice();
        let size = module_size(library, &sizes, net_counts[*place], own);
        sizes[*place] = size;
    }
    Ok(sizes)
}

/// As many modules in which nothing stands.
fn no_sizes(alloc: Global, count: usize) -> Result<Vec<Size>, NoMemory>
    ensures { IfOk result (λ sizes. sizes.items ≡ replicate count no_size) }
{
    let none = Size {
        instances: 0,
        nets: 0,
        pins: 0,
    };
    Ok(vec![in alloc; none; count]?)
}

/// The size of a module with so many net bits and these instances.
fn module_size(library: &Library, sizes: &[Size], nets: u64, steps: &[Step]) -> Size
    requires within { All (IsWithin (length sizes.now)) steps.now }
    requires kinds { All (IsKind (length library.now.cells)) steps.now }
    ensures { result ≡ module_size library.now sizes.now nets steps.now }
{
    let mut size = Size {
        instances: 0,
        nets,
        pins: 0,
    };
    for step in steps {
        size = joined(size, step_size(library, sizes, *step));
    }
    size
}

/// What an instance adds to the size of its module.
fn step_size(library: &Library, sizes: &[Size], step: Step) -> Size
    requires within { IsWithin (length sizes.now) step }
    requires kind { IsKind (length library.now.cells) step }
    ensures { result ≡ step_size library.now sizes.now step }
{
    match step {
        Step::Fault(_) => cell_size(0),
        Step::Cell(kind) => cell_size(pin_count(library, kind)),
        Step::Enter { opened, .. } => inner_size(sizes[opened]),
    }
}

/// An instance with so many pins.
fn cell_size(pins: u64) -> Size
    ensures { result ≡ cell_size pins }
{
    Size {
        instances: 1,
        nets: 0,
        pins,
    }
}

/// An instance of a module of a size.
fn inner_size(size: Size) -> Size
    ensures { result ≡ inner_size size }
{
    Size {
        instances: capped(1, size.instances),
        nets: size.nets,
        pins: size.pins,
    }
}

/// What two things have together.
fn joined(a: Size, b: Size) -> Size
    ensures { result ≡ joined a b }
{
    Size {
        instances: capped(a.instances, b.instances),
        nets: capped(a.nets, b.nets),
        pins: capped(a.pins, b.pins),
    }
}

/// Whether a size, with so many port bits beside it, is more than a design may have.
fn is_beyond(ports: u64, size: Size) -> bool
    ensures { result ≡ is_beyond ports size }
{
    capped(ports, size.pins) > MOST_PINS || size.nets > MOST_THINGS || size.instances > MOST_THINGS
}
