//! What drives the pins of a design.

ghost use Rattle.std.specs.Prelude.{◌≡◌, Some, [], slice_get};
ghost use Rattle.std.specs.List.{All, AllZip};
ghost use Rattle.flat_model.specs.FlatDesign.{first_origin, pin_load, port_load};
ghost use Rattle.flat_model.specs.FlatNets.{from_net, net_bit, origin_at};
ghost use Rattle.flat_model.specs.Instances.{ModuleInstance};
ghost use Rattle.netlist_model.specs.WellFormedNetlist.{IsNetBit};
ghost use Rattle.flat_design.specs.Connected.{shown};
ghost use Rattle.flat_design.specs.Drivers.{HasBit};
ghost use Rattle.flat_design.specs.Hierarchy.{IsHierarchy, scopes_in};
ghost use Rattle.flat_design.specs.NetNumbers.{IsNetTable};
ghost use Rattle.flat_design.specs.PinRows.{AreEnds, IsDriven, constant_driver};

use crate::drivers::net_numbers::{NetTable, net_number};
use crate::elaborate::hierarchy::Hierarchy;
use crate::items::item_at;
use pin_types::Direction;
use sdc_base::{List, Text};
use source_types::{Bit, Port};
use timing_types::Source;

/// What drives a net bit of the module instance at a place, by the sources of all nets.
fn net_driver(
    design: &Hierarchy<'_>,
    tables: &[NetTable<'_>],
    ends: &[Source],
    scope: usize,
    name: &Text,
    index: Option<u32>,
) -> Source
    requires is { IsHierarchy design.now }
    requires tables { AllZip (λ m found. IsNetTable m.nets found) design.now.modules.now tables.now }
    requires ends { AreEnds design.now ends.now }
    requires there { (found : ModuleInstance) × (slice_get (scopes_in design.now) scope ≡ Some found) × IsNetBit found.body.nets name.now index }
    ensures { (found : ModuleInstance) → slice_get (scopes_in design.now) scope ≡ Some found → IsNetBit found.body.nets name.now index
        → IsDriven design.now (Some (from_net (net_bit found.path name.now index))) result }
{
    let number = net_number(design, tables, scope, name, index);
    *item_at(ends, number as usize)
}

/// What drives a load that a constant is connected to.
fn constant_driver(value: Option<bool>) -> Source
    ensures { result ≡ constant_driver value }
{
    match value {
        None => Source::Nothing,
        Some(false) => Source::Zero,
        Some(true) => Source::One,
    }
}

/// What drives a load that is connected to a bit of the module instance at a place.
fn bit_driver(
    design: &Hierarchy<'_>,
    tables: &[NetTable<'_>],
    ends: &[Source],
    scope: usize,
    bit: &Bit,
) -> Source
    requires is { IsHierarchy design.now }
    requires tables { AllZip (λ m found. IsNetTable m.nets found) design.now.modules.now tables.now }
    requires ends { AreEnds design.now ends.now }
    requires there { HasBit design.now scope bit.now }
    ensures { (found : ModuleInstance) → slice_get (scopes_in design.now) scope ≡ Some found
        → IsDriven design.now (origin_at found.path bit.now) result }
{
    match bit {
        Bit::Net { name, index } => net_driver(design, tables, ends, scope, name, *index),
        Bit::Constant(value) => constant_driver(*value),
    }
}

/// What drives a load with a connection in the module instance at a place: its first bit counts.
fn first_driver(
    design: &Hierarchy<'_>,
    tables: &[NetTable<'_>],
    ends: &[Source],
    scope: usize,
    connection: &[Bit],
) -> Source
    requires is { IsHierarchy design.now }
    requires tables { AllZip (λ m found. IsNetTable m.nets found) design.now.modules.now tables.now }
    requires ends { AreEnds design.now ends.now }
    requires bits { All (HasBit design.now scope) connection.now }
    ensures { (found : ModuleInstance) → slice_get (scopes_in design.now) scope ≡ Some found
        → IsDriven design.now (first_origin found.path connection.now) result }
{
    match connection {
        [first, ..] => bit_driver(design, tables, ends, scope, first),
        [] => Source::Nothing,
    }
}

/// What drives an input of a cell in the module instance at a place.
fn input_driver(
    design: &Hierarchy<'_>,
    tables: &[NetTable<'_>],
    ends: &[Source],
    scope: usize,
    connection: Option<&List<Bit>>,
) -> Source
    requires is { IsHierarchy design.now }
    requires tables { AllZip (λ m found. IsNetTable m.nets found) design.now.modules.now tables.now }
    requires ends { AreEnds design.now ends.now }
    requires bits { All (HasBit design.now scope) (shown connection) }
    ensures { (found : ModuleInstance) → slice_get (scopes_in design.now) scope ≡ Some found
        → IsDriven design.now (first_origin found.path (shown connection.entry)) result }
{
    match connection {
        Some(bits) => first_driver(design, tables, ends, scope, bits.as_slice()),
        None => Source::Nothing,
    }
}

/// What drives a pin of a cell in the module instance at a place: inputs alone are loads.
pub(crate) fn pin_driver(
    design: &Hierarchy<'_>,
    tables: &[NetTable<'_>],
    ends: &[Source],
    scope: usize,
    direction: Direction,
    connection: Option<&List<Bit>>,
) -> Source
    requires is { IsHierarchy design.now }
    requires tables { AllZip (λ m found. IsNetTable m.nets found) design.now.modules.now tables.now }
    requires ends { AreEnds design.now ends.now }
    requires bits { All (HasBit design.now scope) (shown connection) }
    ensures { (found : ModuleInstance) → slice_get (scopes_in design.now) scope ≡ Some found
        → IsDriven design.now (pin_load direction found.path (shown connection.entry)) result }
{
    match direction {
        Direction::Input => input_driver(design, tables, ends, scope, connection),
        Direction::Output => Source::Nothing,
        Direction::Other => Source::Nothing,
    }
}

/// What drives a bit of a port of the top module: outputs alone are loads, of their own nets.
pub(crate) fn port_driver(
    design: &Hierarchy<'_>,
    tables: &[NetTable<'_>],
    ends: &[Source],
    port: &Port,
    index: Option<u32>,
) -> Source
    requires is { IsHierarchy design.now }
    requires tables { AllZip (λ m found. IsNetTable m.nets found) design.now.modules.now tables.now }
    requires ends { AreEnds design.now ends.now }
    requires there { (found : ModuleInstance) × (slice_get (scopes_in design.now) 0 ≡ Some found) × IsNetBit found.body.nets port.now.name index }
    ensures { IsDriven design.now (port_load port.now.direction (net_bit [] port.now.name index)) result }
{
    match port.direction {
        Direction::Output => net_driver(design, tables, ends, 0, &port.name, index),
        Direction::Input => Source::Nothing,
        Direction::Other => Source::Nothing,
    }
}
