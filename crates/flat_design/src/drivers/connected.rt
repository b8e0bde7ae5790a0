//! What a terminal of an instance is connected to (IEEE 1364-2005, connection by order and by name).

ghost use Rattle.std.specs.Prelude.{◌≡◌, IfOk, List, Some, map, slice_get, ℕ};
ghost use Rattle.flat_model.specs.Connections.{connected, ordered_bits};
ghost use Rattle.flat_design.specs.Connected.{IsLinkTable, bits_found, link_names, named_at, ordered_at, shown};
ghost use Rattle.flat_design.specs.Names.{IsTable};

use crate::names::named::{place, stands_first, table};
use indexmap::IndexMap;
use sdc_base::{List, NoMemory};
use source_types::{Bit, Link, Links};
use std::alloc::Global;

/// The places of the connections by name of an instance; none where they stand by order.
pub(crate) fn link_table(alloc: Global, links: &Links) -> Result<IndexMap<&str, usize>, NoMemory>
    ensures { IfOk result (IsLinkTable links.now) }
{
    match links {
        Links::Ordered(_) => Ok(IndexMap::new(alloc)),
        Links::Named(all) => table(alloc, all.as_slice()),
    }
}

/// The connection of the terminal of a name at a place, where it has one, by tables of all terminals and of the links.
pub(crate) fn connected_at<'a>(
    terminals: &IndexMap<&str, usize>,
    links: &'a Links,
    link_places: &IndexMap<&str, usize>,
    at: usize,
    name: &str,
) -> Option<&'a List<Bit>>
    ensures { (names : List (List ℕ)) → IsTable terminals.now names → IsLinkTable links.now link_places.now
        → slice_get names at ≡ Some name.now → slice_get (connected names links.now) at ≡ Some (shown result) }
{
    match links {
        Links::Ordered(connections) => ordered_at(connections.as_slice(), at),
        Links::Named(all) => named_at(terminals, all.as_slice(), link_places, at, name),
    }
}

/// The connection at a place, where there is one.
fn ordered_at(connections: &[List<Bit>], at: usize) -> Option<&List<Bit>>
    ensures { shown result ≡ ordered_at connections.now at }
{
    connections.get(at)
}

/// The connection that names a terminal, where one does and the terminal is the first of its name.
fn named_at<'a>(
    terminals: &IndexMap<&str, usize>,
    links: &'a [Link],
    link_places: &IndexMap<&str, usize>,
    at: usize,
    name: &str,
) -> Option<&'a List<Bit>>
    ensures { (names : List (List ℕ)) → IsTable terminals.now names → IsTable link_places.now (link_names links.now)
        → shown result ≡ named_at names links.now at name.now }
{
    if stands_first(place(terminals, name), at) {
        bits_found(links, place(link_places, name))
    } else {
        None
    }
}

/// The bits of the link at a place, where there is one.
fn bits_found(links: &[Link], found: Option<usize>) -> Option<&List<Bit>>
    ensures { shown result ≡ bits_found links.now found }
{
    match found {
        Some(at) => bits_at(links, at),
        None => None,
    }
}

/// The bits of the link at a place, where there is one.
fn bits_at(links: &[Link], at: usize) -> Option<&List<Bit>>
    ensures { shown result ≡ bits_found links.now (Some at) }
{
    match links.get(at) {
        Some(link) => Some(&link.bits),
        None => None,
    }
}
