//! What the instances of modules are to the walk.

ghost use Rattle.std.specs.Prelude.{◌≡◌, ◌<◌, IfOk, length, slice_get};
ghost use Rattle.flat_design.specs.Names.{place_of};
ghost use Rattle.flat_design.specs.Steps.{all_steps, cell_names, cell_step, fits_module, fits_step, module_names, step_of, step_of_cell, steps_in};
ghost use Rattle.flat_design.specs.Tables.{AreTables, HasTables};
ghost use Rattle.flat_design.specs.declared.elaborate.walk.Step.TheVariants as step;

use crate::elaborate::connections::links_fit;
use crate::elaborate::terminals::{Terminals, all_terminals};
use crate::elaborate::walk::Step;
use crate::names::named::{place, table};
use indexmap::IndexMap;
use pin_types::LibCell;
use sdc_base::{List, NoMemory, Text};
use source_types::{DesignKind, Instance, Library, Links, Module};
use std::alloc::Global;

/// What is found by name and place in a netlist and a library.
#[derive(Drop)]
pub(crate) struct Tables<'a> {
    pub(crate) modules: &'a [Module],
    pub(crate) library: &'a Library,
    pub(crate) module_places: IndexMap<&'a str, usize>,
    pub(crate) cell_places: IndexMap<&'a str, usize>,
    pub(crate) ports: Vec<Terminals<'a>>,
    pub(crate) pins: Vec<Terminals<'a>>,
}

/// The tables of modules and library cells.
pub(crate) fn tables_of<'a>(
    alloc: Global,
    modules: &'a [Module],
    library: &'a Library,
) -> Result<Tables<'a>, NoMemory>
    ensures { IfOk result (λ tables. HasTables modules.now library.now tables) }
{
    let cells = library.cells.as_slice();
    let module_places = table(alloc, modules)?;
    let cell_places = table(alloc, cells)?;
    let ports = all_terminals(alloc, modules)?;
    let pins = all_terminals(alloc, cells)?;
    Ok(Tables {
        modules,
        library,
        module_places,
        cell_places,
        ports,
        pins,
    })
}

/// The place of the module of a name, where there is one.
pub(crate) fn module_place(tables: &Tables<'_>, name: &Text) -> Option<usize>
    requires { AreTables tables.now }
    ensures { result ≡ place_of (module_names tables.now.modules.now) name.now }
{
    place(&tables.module_places, name.as_str())
}

/// The place of the library cell of a name, where there is one.
fn cell_place(tables: &Tables<'_>, name: &Text) -> Option<usize>
    requires { AreTables tables.now }
    ensures { result ≡ place_of (cell_names tables.now.library.now) name.now }
{
    place(&tables.cell_places, name.as_str())
}

/// The steps of the instances of each module.
pub(crate) fn all_steps(alloc: Global, tables: &Tables<'_>) -> Result<List<List<Step>>, NoMemory>
    requires { AreTables tables.now }
    ensures { IfOk result (λ all. all ≡ all_steps tables.now.modules.now tables.now.library.now) }
{
    let mut all = List::new(alloc);
    for body in tables.modules {
        let steps = steps_in(alloc, tables, body)?;
        all.push(steps)?;
    }
    Ok(all)
}

/// The steps of the instances of a module.
fn steps_in(alloc: Global, tables: &Tables<'_>, body: &Module) -> Result<List<Step>, NoMemory>
    requires { AreTables tables.now }
    ensures { IfOk result (λ steps. steps ≡ steps_in tables.now.modules.now tables.now.library.now body.now) }
{
    let mut steps = List::new(alloc);
    for instance in body.instances.as_slice() {
        let step = step_of(alloc, tables, instance)?;
        steps.push(step)?;
    }
    Ok(steps)
}

/// The step of an instance. A module hides a library cell of its name.
fn step_of(alloc: Global, tables: &Tables<'_>, instance: &Instance) -> Result<Step, NoMemory>
    requires { AreTables tables.now }
    ensures { IfOk result (λ found. found ≡ step_of tables.now.modules.now tables.now.library.now instance.now) }
{
    match module_place(tables, &instance.kind) {
        Some(opened) => enter_step(alloc, tables, opened, &instance.links),
        None => step_of_cell(alloc, tables, instance),
    }
}

/// The step of an instance of the module at a place.
fn enter_step(
    alloc: Global,
    tables: &Tables<'_>,
    opened: usize,
    links: &Links,
) -> Result<Step, NoMemory>
    requires tables { AreTables tables.now }
    requires within { opened < length tables.now.modules.now }
    ensures { IfOk result (λ found. found ≡ step.Enter opened (fits_module (slice_get tables.now.modules.now opened) links.now)) }
{
    let ports = &tables.ports[opened];
    let fits = links_fit(alloc, &ports.places, ports.widths.as_slice(), links)?;
    Ok(Step::Enter { opened, fits })
}

/// The step of an instance of what is no module.
fn step_of_cell(alloc: Global, tables: &Tables<'_>, instance: &Instance) -> Result<Step, NoMemory>
    requires { AreTables tables.now }
    ensures { IfOk result (λ found. found ≡ step_of_cell tables.now.library.now instance.now) }
{
    match cell_place(tables, &instance.kind) {
        Some(kind) => cell_step(alloc, tables, kind, &instance.links),
        None => Ok(Step::Fault(DesignKind::UnknownModule)),
    }
}

/// The step of an instance of the library cell at a place.
fn cell_step(
    alloc: Global,
    tables: &Tables<'_>,
    kind: usize,
    links: &Links,
) -> Result<Step, NoMemory>
    requires tables { AreTables tables.now }
    requires within { kind < length tables.now.library.now.cells }
    ensures { IfOk result (λ found. found ≡ cell_step kind (slice_get tables.now.library.now.cells kind) links.now) }
{
    if tables.library.cells.as_slice()[kind].refused {
        return Ok(Step::Fault(DesignKind::UnsupportedCell));
    }
    let pins = &tables.pins[kind];
    let fits = links_fit(alloc, &pins.places, pins.widths.as_slice(), links)?;
    Ok(pin_step(kind, fits))
}

/// The step of an instance of a library cell at a place whose connections fit or not.
fn pin_step(kind: usize, fits: bool) -> Step
    ensures { result ≡ fits_step kind fits }
{
    if fits {
        Step::Cell(kind)
    } else {
        Step::Fault(DesignKind::WidthMismatch)
    }
}
