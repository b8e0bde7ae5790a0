//! What drives the nets of a design: its module instances, by their ports, ties and assignments, and its cells.

ghost use Rattle.std.specs.Prelude.{◌<◌, ◌≡◌, IfOk, OnOk, Some, length, map, slice_get};
ghost use Rattle.std.specs.List.{AllZip, Contains, flat_map};
ghost use Rattle.flat_model.specs.Connections.{pins_of, ports_of};
ghost use Rattle.flat_model.specs.FlatNets.{assign_drivers, boundary_drivers, cell_drivers, drivers_of, scope_drivers, tie_drivers};
ghost use Rattle.flat_model.specs.Instances.{ModuleInstance};
ghost use Rattle.netlist_model.specs.Ranges.{indices};
ghost use Rattle.netlist_model.specs.WellFormedNetlist.{IsAssignOf};
ghost use Rattle.flat_design.specs.Drivers.{Adds, IsDriverEdge, tied_bit};
ghost use Rattle.flat_design.specs.Hierarchy.{IsHierarchy, cells_in, scopes_in};
ghost use Rattle.flat_design.specs.NetNumbers.{IsNetTable};
ghost use Rattle.flat_design.specs.Sources.{AreWithin};
ghost use Rattle.flat_design.specs.Tables.{IsTerminals};

use crate::drivers::cell_drivers::add_cell;
use crate::drivers::driver_edges::{Driver, DriverEdge, add_row, driver_edge};
use crate::drivers::net_numbers::{NetTable, net_number, net_tables};
use crate::drivers::port_drivers::{add_boundary, add_top_ports};
use crate::elaborate::hierarchy::{Hierarchy, body_at};
use crate::elaborate::terminals::{Terminals, all_terminals};
use crate::items::item_at;
use crate::ranges::{index_at, width};
use sdc_base::{List, NoMemory};
use source_types::{Assign, Wire};
use std::alloc::Global;

/// All that drives the nets of a design: what its module instances drive, and then what its cells drive.
pub(crate) fn all_drivers(
    alloc: Global,
    design: &Hierarchy<'_>,
) -> Result<List<DriverEdge>, NoMemory>
    requires { IsHierarchy design.now }
    ensures all { IfOk result (λ rows. AllZip (IsDriverEdge design.now)
        (drivers_of design.now.modules.now design.now.library.now design.now.top.now) rows) }
    ensures within { IfOk result (λ rows. AreWithin design.now.elaboration.nets design.now.elaboration.pins rows) }
{
    let tables = net_tables(alloc, design.modules)?;
    let mut rows = List::new(alloc);
    add_instances(alloc, &mut rows, design, tables.as_slice())?;
    add_cells(alloc, &mut rows, design, tables.as_slice())?;
    Ok(rows)
}

/// Adds what the module instances of a design drive.
fn add_instances(
    alloc: Global,
    rows: &mut List<DriverEdge>,
    design: &Hierarchy<'_>,
    tables: &[NetTable<'_>],
) -> Result<(), NoMemory>
    requires is { IsHierarchy design.now }
    requires tables { AllZip (λ m found. IsNetTable m.nets found) design.now.modules.now tables.now }
    ensures { OnOk result (Adds design.now (flat_map scope_drivers (scopes_in design.now)) rows.old rows.new) }
{
    let ports = all_terminals(alloc, design.modules)?;
    for place in 0..design.elaboration.scopes.len() {
        add_instance(alloc, rows, design, tables, ports.as_slice(), place)?;
    }
    Ok(())
}

/// Adds what the module instance at a place drives. Ports are given by tables of all modules.
fn add_instance(
    alloc: Global,
    rows: &mut List<DriverEdge>,
    design: &Hierarchy<'_>,
    tables: &[NetTable<'_>],
    ports: &[Terminals<'_>],
    scope: usize,
) -> Result<(), NoMemory>
    requires is { IsHierarchy design.now }
    requires tables { AllZip (λ m found. IsNetTable m.nets found) design.now.modules.now tables.now }
    requires ports { AllZip (λ m found. IsTerminals (ports_of m) found) design.now.modules.now ports.now }
    requires within { scope < length design.now.elaboration.scopes }
    ensures { (found : ModuleInstance) → slice_get (scopes_in design.now) scope ≡ Some found
        → OnOk result (Adds design.now (scope_drivers found) rows.old rows.new) }
{
    add_ports(alloc, rows, design, tables, ports, scope)?;
    add_ties(rows, design, tables, scope)?;
    add_assigns(rows, design, tables, scope)?;
    Ok(())
}

/// Adds what the ports of the module instance at a place drive, or are driven by: pins at the top, and elsewhere the
/// nets of the module around it.
fn add_ports(
    alloc: Global,
    rows: &mut List<DriverEdge>,
    design: &Hierarchy<'_>,
    tables: &[NetTable<'_>],
    ports: &[Terminals<'_>],
    scope: usize,
) -> Result<(), NoMemory>
    requires is { IsHierarchy design.now }
    requires tables { AllZip (λ m found. IsNetTable m.nets found) design.now.modules.now tables.now }
    requires ports { AllZip (λ m found. IsTerminals (ports_of m) found) design.now.modules.now ports.now }
    requires within { scope < length design.now.elaboration.scopes }
    ensures { (found : ModuleInstance) → slice_get (scopes_in design.now) scope ≡ Some found
        → OnOk result (Adds design.now (boundary_drivers found) rows.old rows.new) }
{
    let row = item_at(design.elaboration.scopes.as_slice(), scope);
    match row.outer {
        None => add_top_ports(rows, design, tables),
        Some(at) => add_boundary(alloc, rows, design, tables, ports, scope, at),
    }
}

/// Adds what the cells of a design drive.
fn add_cells(
    alloc: Global,
    rows: &mut List<DriverEdge>,
    design: &Hierarchy<'_>,
    tables: &[NetTable<'_>],
) -> Result<(), NoMemory>
    requires is { IsHierarchy design.now }
    requires tables { AllZip (λ m found. IsNetTable m.nets found) design.now.modules.now tables.now }
    ensures { OnOk result (Adds design.now (flat_map cell_drivers (cells_in design.now)) rows.old rows.new) }
{
    let pins = all_terminals(alloc, design.library.cells.as_slice())?;
    for place in 0..design.elaboration.cells.len() {
        add_cell(alloc, rows, design, tables, pins.as_slice(), place)?;
    }
    Ok(())
}

/// Adds what the assignments of the module instance at a place drive.
fn add_assigns(
    rows: &mut List<DriverEdge>,
    design: &Hierarchy<'_>,
    tables: &[NetTable<'_>],
    scope: usize,
) -> Result<(), NoMemory>
    requires is { IsHierarchy design.now }
    requires tables { AllZip (λ m found. IsNetTable m.nets found) design.now.modules.now tables.now }
    requires within { scope < length design.now.elaboration.scopes }
    ensures { (found : ModuleInstance) → slice_get (scopes_in design.now) scope ≡ Some found
        → OnOk result (Adds design.now (flat_map (assign_drivers found.path) found.body.assigns) rows.old rows.new) }
{
    let body = body_at(design, scope);
    for place in 0..body.assigns.len() {
        let assign = item_at(body.assigns.as_slice(), place);
        add_assign(rows, design, tables, scope, assign)?;
    }
    Ok(())
}

/// Adds what an assignment of the module instance at a place drives.
fn add_assign(
    rows: &mut List<DriverEdge>,
    design: &Hierarchy<'_>,
    tables: &[NetTable<'_>],
    scope: usize,
    assign: &Assign,
) -> Result<(), NoMemory>
    requires is { IsHierarchy design.now }
    requires tables { AllZip (λ m found. IsNetTable m.nets found) design.now.modules.now tables.now }
    requires there { (found : ModuleInstance) × (slice_get (scopes_in design.now) scope ≡ Some found) × IsAssignOf found.body.nets assign.now }
    ensures { (found : ModuleInstance) → slice_get (scopes_in design.now) scope ≡ Some found
        → OnOk result (Adds design.now (assign_drivers found.path assign.now) rows.old rows.new) }
{
    for place in 0..assign.left.len() {
        let to = item_at(assign.left.as_slice(), place);
        let from = item_at(assign.right.as_slice(), place);
        let row = driver_edge(design, tables, scope, to, scope, from);
        add_row(rows, row)?;
    }
    Ok(())
}

/// Adds what the ties of the module instance at a place drive.
fn add_ties(
    rows: &mut List<DriverEdge>,
    design: &Hierarchy<'_>,
    tables: &[NetTable<'_>],
    scope: usize,
) -> Result<(), NoMemory>
    requires is { IsHierarchy design.now }
    requires tables { AllZip (λ m found. IsNetTable m.nets found) design.now.modules.now tables.now }
    requires within { scope < length design.now.elaboration.scopes }
    ensures { (found : ModuleInstance) → slice_get (scopes_in design.now) scope ≡ Some found
        → OnOk result (Adds design.now (flat_map (tie_drivers found.path) found.body.nets) rows.old rows.new) }
{
    let body = body_at(design, scope);
    for place in 0..body.nets.len() {
        let wire = item_at(body.nets.as_slice(), place);
        add_tie(rows, design, tables, scope, wire)?;
    }
    Ok(())
}

/// Adds what a net of the module instance at a place is tied to.
fn add_tie(
    rows: &mut List<DriverEdge>,
    design: &Hierarchy<'_>,
    tables: &[NetTable<'_>],
    scope: usize,
    wire: &Wire,
) -> Result<(), NoMemory>
    requires is { IsHierarchy design.now }
    requires tables { AllZip (λ m found. IsNetTable m.nets found) design.now.modules.now tables.now }
    requires there { (found : ModuleInstance) × (slice_get (scopes_in design.now) scope ≡ Some found) × Contains found.body.nets wire.now }
    ensures { (found : ModuleInstance) → slice_get (scopes_in design.now) scope ≡ Some found
        → OnOk result (Adds design.now (tie_drivers found.path wire.now) rows.old rows.new) }
{
    match wire.tie {
        None => Ok(()),
        Some(value) => add_tied_bits(rows, design, tables, scope, wire, value),
    }
}

/// Adds a value for each bit of a net of the module instance at a place.
fn add_tied_bits(
    rows: &mut List<DriverEdge>,
    design: &Hierarchy<'_>,
    tables: &[NetTable<'_>],
    scope: usize,
    wire: &Wire,
    value: bool,
) -> Result<(), NoMemory>
    requires is { IsHierarchy design.now }
    requires tables { AllZip (λ m found. IsNetTable m.nets found) design.now.modules.now tables.now }
    requires there { (found : ModuleInstance) × (slice_get (scopes_in design.now) scope ≡ Some found) × Contains found.body.nets wire.now }
    ensures { (found : ModuleInstance) → slice_get (scopes_in design.now) scope ≡ Some found
        → OnOk result (Adds design.now (map (tied_bit found.path wire.now value) (indices wire.now.range)) rows.old rows.new) }
{
    for place in 0..width(wire.range) {
        let index = index_at(wire.range, place);
        let to = net_number(design, tables, scope, &wire.name, index);
        rows.push(DriverEdge {
            to,
            from: Driver::Value(value),
        })?;
    }
    Ok(())
}
