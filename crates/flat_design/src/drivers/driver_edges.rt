//! What drives the nets of a design, by the numbers of nets and pins.

ghost use Rattle.std.specs.Prelude.{◌≡◌, ◌++◌, OnOk, Some, slice_get};
ghost use Rattle.std.specs.List.{AllZip};
ghost use Rattle.std.specs.Option.{option_to_list};
ghost use Rattle.flat_model.specs.FlatNets.{drive, net_at, origin_at};
ghost use Rattle.flat_model.specs.Instances.{ModuleInstance};
ghost use Rattle.flat_design.specs.Drivers.{HasBit, IsDriverEdgeOf, IsDriverByNumberOf, IsNetOf, row_of, value_driver};
ghost use Rattle.flat_design.specs.Hierarchy.{IsHierarchy, scopes_in};
ghost use Rattle.flat_design.specs.NetNumbers.{IsNetTable};

use crate::drivers::net_numbers::{NetTable, net_number};
use crate::elaborate::hierarchy::Hierarchy;
use sdc_base::{List, NoMemory};
use source_types::Bit;

/// What drives a net: another net, a value, or a pin, nets and pins by their numbers.
#[derive(Clone, Copy)]
pub(crate) enum Driver {
    Net(u64),
    Value(bool),
    Pin(u64),
}

/// A net by its number, and what drives it.
#[derive(Clone, Copy)]
pub(crate) struct DriverEdge {
    pub(crate) to: u64,
    pub(crate) from: Driver,
}

/// How a bit of one module drives a bit of another one, where it does: a constant is driven by nothing, and one
/// without a value drives nothing.
pub(crate) fn driver_edge(
    design: &Hierarchy<'_>,
    tables: &[NetTable<'_>],
    to_scope: usize,
    to: &Bit,
    from_scope: usize,
    from: &Bit,
) -> Option<DriverEdge>
    requires is { IsHierarchy design.now }
    requires tables { AllZip (λ m found. IsNetTable m.nets found) design.now.modules.now tables.now }
    requires to { HasBit design.now to_scope to.now }
    requires from { HasBit design.now from_scope from.now }
    ensures { (inside outside : ModuleInstance) → slice_get (scopes_in design.now) to_scope ≡ Some inside
        → slice_get (scopes_in design.now) from_scope ≡ Some outside
        → IsDriverEdgeOf design.now (drive (net_at inside.path to.now) (origin_at outside.path from.now)) result }
{
    row_of(
        driven_net(design, tables, to_scope, to),
        bit_as_driver(design, tables, from_scope, from),
    )
}

/// An edge where there are both a net and what drives it.
pub(crate) fn row_of(to: Option<u64>, from: Option<Driver>) -> Option<DriverEdge>
    ensures { result ≡ row_of to from }
{
    match to {
        Some(to) => match from {
            Some(from) => Some(DriverEdge { to, from }),
            None => None,
        },
        None => None,
    }
}

/// The net of a bit of the module instance at a place.
pub(crate) fn driven_net(
    design: &Hierarchy<'_>,
    tables: &[NetTable<'_>],
    scope: usize,
    bit: &Bit,
) -> Option<u64>
    requires is { IsHierarchy design.now }
    requires tables { AllZip (λ m found. IsNetTable m.nets found) design.now.modules.now tables.now }
    requires there { HasBit design.now scope bit.now }
    ensures { (found : ModuleInstance) → slice_get (scopes_in design.now) scope ≡ Some found → IsNetOf design.now (net_at found.path bit.now) result }
{
    match bit {
        Bit::Net { name, index } => Some(net_number(design, tables, scope, name, *index)),
        Bit::Constant(_) => None,
    }
}

/// What a bit of the module instance at a place is where it drives a net.
pub(crate) fn bit_as_driver(
    design: &Hierarchy<'_>,
    tables: &[NetTable<'_>],
    scope: usize,
    bit: &Bit,
) -> Option<Driver>
    requires is { IsHierarchy design.now }
    requires tables { AllZip (λ m found. IsNetTable m.nets found) design.now.modules.now tables.now }
    requires there { HasBit design.now scope bit.now }
    ensures { (found : ModuleInstance) → slice_get (scopes_in design.now) scope ≡ Some found → IsDriverByNumberOf design.now (origin_at found.path bit.now) result }
{
    match bit {
        Bit::Net { name, index } => {
            let net = net_number(design, tables, scope, name, *index);
            Some(Driver::Net(net))
        }
        Bit::Constant(value) => value_driver(*value),
    }
}

/// What a constant drives a net with.
fn value_driver(value: Option<bool>) -> Option<Driver>
    ensures { result ≡ value_driver value }
{
    match value {
        Some(value) => Some(Driver::Value(value)),
        None => None,
    }
}

/// Adds an edge, where there is one.
pub(crate) fn add_row(rows: &mut List<DriverEdge>, row: Option<DriverEdge>) -> Result<(), NoMemory>
    ensures { OnOk result (rows.new ≡ rows.old ++ option_to_list row) }
{
    if let Some(row) = row {
        rows.push(row)?;
    }
    Ok(())
}
