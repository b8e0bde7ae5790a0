//! How many bits the nets and the ports of a module have, and how many pins a library cell.

ghost use Rattle.std.specs.Prelude.{◌≡◌, ◌<◌, IfOk, Some, length, map, slice_get};
ghost use Rattle.pin_types.specs.declared.library_cells.LibCell.{LibCell};
ghost use Rattle.flat_design.specs.Elaboration.{net_count, port_count};

use crate::elaborate::elaboration::capped;
use crate::ranges::width;
use sdc_base::{List, NoMemory};
use source_types::{Library, Module, Port, Wire};
use std::alloc::Global;

/// The number of bits of each module's nets.
pub(crate) fn net_counts(alloc: Global, modules: &[Module]) -> Result<List<u64>, NoMemory>
    ensures { IfOk result (λ counts. counts ≡ map (λ m. net_count m.nets) modules.now) }
{
    let mut counts = List::new(alloc);
    for body in modules {
        counts.push(net_count(body.nets.as_slice()))?;
    }
    Ok(counts)
}

/// The number of bits of nets, as far as a design may have.
fn net_count(nets: &[Wire]) -> u64
    ensures { result ≡ net_count nets.now }
{
    let mut count = 0;
    for net in nets {
        count = capped(count, width(net.range));
    }
    count
}

/// The number of bits of ports, as far as a design may have.
pub(crate) fn port_count(ports: &[Port]) -> u64
    ensures { result ≡ port_count ports.now }
{
    let mut count = 0;
    for port in ports {
        count = capped(count, width(port.range));
    }
    count
}

/// The number of pins of the library cell at a place.
pub(crate) fn pin_count(library: &Library, kind: usize) -> u64
    requires { kind < length library.now.cells }
    ensures { (cell : LibCell) → slice_get library.now.cells kind ≡ Some cell → result ≡ length cell.pins }
{
    library.cells.as_slice()[kind].pins.len() as u64
}
