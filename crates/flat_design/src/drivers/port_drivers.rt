//! What drives nets across the ports of module instances: pins at the top, and elsewhere the connections of the
//! instance.

ghost use Rattle.std.specs.Prelude.{◌+◌, ◌≡◌, OnOk, Option, Some, map, slice_get, ℕ};
ghost use Rattle.std.specs.List.{All, AllZip, flat_map, zip};
ghost use Rattle.source_types.specs.declared.netlists.Bit.TheVariants as bits;
ghost use Rattle.flat_model.specs.Connections.{connected, names_of, ports_of};
ghost use Rattle.flat_model.specs.FlatNets.{across, port_bit, port_drivers, top_port_drivers};
ghost use Rattle.flat_model.specs.Instances.{ModuleInstance, Placed};
ghost use Rattle.netlist_model.specs.Ranges.{indices};
ghost use Rattle.netlist_model.specs.WellFormedNetlist.{IsNetBit};
ghost use Rattle.flat_design.specs.Connected.{shown};
ghost use Rattle.flat_design.specs.Drivers.{Adds, HasBit, HasPort, IsDriverEdgeOf, IsPinNumber, input_drive};
ghost use Rattle.flat_design.specs.Elaboration.{IsPlaced};
ghost use Rattle.flat_design.specs.Hierarchy.{IsHierarchy, scopes_in};
ghost use Rattle.flat_design.specs.NetNumbers.{IsNetTable};
ghost use Rattle.flat_design.specs.Tables.{IsTerminals};

use crate::drivers::connected::{connected_at, link_table};
use crate::drivers::driver_edges::{
    Driver, DriverEdge, add_row, bit_as_driver, driven_net, row_of,
};
use crate::drivers::net_numbers::{NetTable, net_number};
use crate::elaborate::elaboration::Outer;
use crate::elaborate::hierarchy::{Hierarchy, instance_at};
use crate::elaborate::terminals::Terminals;
use crate::items::item_at;
use crate::ranges::{index_at, width};
use pin_types::Direction;
use sdc_base::{List, NoMemory};
use source_types::{Bit, Port};
use std::alloc::Global;

/// Adds what a port of the module instance at a place drives, or is driven by, its connection being of the module that
/// stands around.
fn add_port(
    rows: &mut List<DriverEdge>,
    design: &Hierarchy<'_>,
    tables: &[NetTable<'_>],
    inside: usize,
    port: &Port,
    outside: usize,
    connection: &[Bit],
) -> Result<(), NoMemory>
    requires is { IsHierarchy design.now }
    requires tables { AllZip (λ m found. IsNetTable m.nets found) design.now.modules.now tables.now }
    requires port { HasPort design.now inside port.now }
    requires bits { All (HasBit design.now outside) connection.now }
    ensures { (inner outer : ModuleInstance) → slice_get (scopes_in design.now) inside ≡ Some inner
        → slice_get (scopes_in design.now) outside ≡ Some outer
        → OnOk result (Adds design.now (port_drivers inner.path outer.path (port.now, connection.now)) rows.old rows.new) }
{
    for place in 0..width(port.range).min(connection.len() as u64) {
        let index = index_at(port.range, place);
        let bit = item_at(connection, place as usize);
        let row = across(design, tables, inside, port, index, outside, bit);
        add_row(rows, row)?;
    }
    Ok(())
}

/// How a bit of a port and the bit that it is connected to drive each other, by the port's direction.
fn across(
    design: &Hierarchy<'_>,
    tables: &[NetTable<'_>],
    inside: usize,
    port: &Port,
    index: Option<u32>,
    outside: usize,
    bit: &Bit,
) -> Option<DriverEdge>
    requires is { IsHierarchy design.now }
    requires tables { AllZip (λ m found. IsNetTable m.nets found) design.now.modules.now tables.now }
    requires port { (found : ModuleInstance) × (slice_get (scopes_in design.now) inside ≡ Some found) × IsNetBit found.body.nets port.now.name index }
    requires bit { HasBit design.now outside bit.now }
    ensures { (inner outer : ModuleInstance) → slice_get (scopes_in design.now) inside ≡ Some inner
        → slice_get (scopes_in design.now) outside ≡ Some outer
        → IsDriverEdgeOf design.now (across port.now.direction inner.path outer.path (bits.Net port.now.name index) bit.now) result }
{
    let net = net_number(design, tables, inside, &port.name, index);
    match port.direction {
        Direction::Input => row_of(Some(net), bit_as_driver(design, tables, outside, bit)),
        Direction::Output => row_of(
            driven_net(design, tables, outside, bit),
            Some(Driver::Net(net)),
        ),
        Direction::Other => None,
    }
}

/// Adds what the connections of a port of the module instance at a place drive, where it has any.
fn add_connection(
    rows: &mut List<DriverEdge>,
    design: &Hierarchy<'_>,
    tables: &[NetTable<'_>],
    inside: usize,
    port: &Port,
    outside: usize,
    connection: Option<&List<Bit>>,
) -> Result<(), NoMemory>
    requires is { IsHierarchy design.now }
    requires tables { AllZip (λ m found. IsNetTable m.nets found) design.now.modules.now tables.now }
    requires port { HasPort design.now inside port.now }
    requires bits { All (HasBit design.now outside) (shown connection) }
    ensures { (inner outer : ModuleInstance) → slice_get (scopes_in design.now) inside ≡ Some inner
        → slice_get (scopes_in design.now) outside ≡ Some outer
        → OnOk result (Adds design.now (port_drivers inner.path outer.path (port.now, shown connection.entry)) rows.old rows.new) }
{
    match connection {
        None => Ok(()),
        Some(bits) => add_port(rows, design, tables, inside, port, outside, bits.as_slice()),
    }
}

/// Adds what the ports of the module instance at a place drive, or are driven by, the module standing for an instance.
/// Ports are given by tables of all modules.
pub(crate) fn add_boundary(
    alloc: Global,
    rows: &mut List<DriverEdge>,
    design: &Hierarchy<'_>,
    tables: &[NetTable<'_>],
    ports: &[Terminals<'_>],
    inside: usize,
    at: Outer,
) -> Result<(), NoMemory>
    requires is { IsHierarchy design.now }
    requires tables { AllZip (λ m found. IsNetTable m.nets found) design.now.modules.now tables.now }
    requires ports { AllZip (λ m found. IsTerminals (ports_of m) found) design.now.modules.now ports.now }
    requires inner { (inner : ModuleInstance) × (slice_get (scopes_in design.now) inside ≡ Some inner) }
    requires there { (placed : Placed) × IsPlaced (scopes_in design.now) placed at }
    ensures { (inner : ModuleInstance) (placed : Placed) → slice_get (scopes_in design.now) inside ≡ Some inner
        → IsPlaced (scopes_in design.now) placed at
        → OnOk result (Adds design.now (flat_map (port_drivers inner.path placed.scope.path)
        (zip inner.body.ports (connected (names_of (ports_of inner.body)) placed.instance.links))) rows.old rows.new) }
{
    let row = item_at(design.elaboration.scopes.as_slice(), inside);
    let body = item_at(design.modules, row.body);
    let known = item_at(ports, row.body);
    let instance = instance_at(design, at);
    let places = link_table(alloc, &instance.links)?;
    for place in 0..body.ports.len() {
        let port = item_at(body.ports.as_slice(), place);
        let name = port.name.as_str();
        let bits = connected_at(&known.places, &instance.links, &places, place, name);
        add_connection(rows, design, tables, inside, port, at.scope, bits)?;
    }
    Ok(())
}

/// Adds what the input ports of the top module drive.
pub(crate) fn add_top_ports(
    rows: &mut List<DriverEdge>,
    design: &Hierarchy<'_>,
    tables: &[NetTable<'_>],
) -> Result<(), NoMemory>
    requires is { IsHierarchy design.now }
    requires tables { AllZip (λ m found. IsNetTable m.nets found) design.now.modules.now tables.now }
    ensures { OnOk result (Adds design.now (flat_map top_port_drivers design.now.top.now.ports) rows.old rows.new) }
{
    let mut first = 0;
    for place in 0..design.top.ports.len() {
        let port = item_at(design.top.ports.as_slice(), place);
        add_top_port(rows, design, tables, port, first)?;
        first += width(port.range);
    }
    Ok(())
}

/// Adds what a port of the top module drives, by the number of its first pin.
fn add_top_port(
    rows: &mut List<DriverEdge>,
    design: &Hierarchy<'_>,
    tables: &[NetTable<'_>],
    port: &Port,
    first: u64,
) -> Result<(), NoMemory>
    requires is { IsHierarchy design.now }
    requires tables { AllZip (λ m found. IsNetTable m.nets found) design.now.modules.now tables.now }
    requires port { HasPort design.now 0 port.now }
    requires numbers { (place : ℕ) (index : Option ℕ) → slice_get (indices port.now.range) place ≡ Some index
        → IsPinNumber design.now (first + place) (port_bit port.now.name index) }
    ensures { OnOk result (Adds design.now (top_port_drivers port.now) rows.old rows.new) }
{
    match port.direction {
        Direction::Input => add_input_bits(rows, design, tables, port, first),
        Direction::Output => Ok(()),
        Direction::Other => Ok(()),
    }
}

/// Adds what the bits of an input port of the top module drive, by the number of its first pin.
fn add_input_bits(
    rows: &mut List<DriverEdge>,
    design: &Hierarchy<'_>,
    tables: &[NetTable<'_>],
    port: &Port,
    first: u64,
) -> Result<(), NoMemory>
    requires is { IsHierarchy design.now }
    requires tables { AllZip (λ m found. IsNetTable m.nets found) design.now.modules.now tables.now }
    requires port { HasPort design.now 0 port.now }
    requires numbers { (place : ℕ) (index : Option ℕ) → slice_get (indices port.now.range) place ≡ Some index
        → IsPinNumber design.now (first + place) (port_bit port.now.name index) }
    ensures { OnOk result (Adds design.now (map (input_drive port.now) (indices port.now.range)) rows.old rows.new) }
{
    for place in 0..width(port.range) {
        let index = index_at(port.range, place);
        let to = net_number(design, tables, 0, &port.name, index);
        let number = first + place;
        rows.push(DriverEdge {
            to,
            from: Driver::Pin(number),
        })?;
    }
    Ok(())
}
