//! Whether the connections of an instance fit what they connect (IEEE 1364-2005, connection by order and by name).

ghost use Rattle.std.specs.Prelude.{◌≡◌, [], IfOk, List};
ghost use Rattle.indexmap.specs.IndexMap.{get_by};
ghost use Rattle.std.specs.Str.{bytes_eq};
ghost use Rattle.flat_model.specs.Connections.{Terminal, fits, links_fit, named_fit, names_of, ordered_fit};
ghost use Rattle.flat_design.specs.Fitting.{fit_from, fits_at, fits_first_by, named_by, place_fits, widths_of};
ghost use Rattle.flat_design.specs.Names.{IsTable};

use crate::names::named::{place, stands_first, table};
use indexmap::IndexMap;
use sdc_base::{List, NoMemory};
use source_types::{Bit, Link, Links};
use std::alloc::Global;

/// Whether the connections of an instance fit terminals, which are given by a table of their names and by their widths.
pub(crate) fn links_fit(
    alloc: Global,
    terminals: &IndexMap<&str, usize>,
    widths: &[u64],
    links: &Links,
) -> Result<bool, NoMemory>
    ensures { (all : List Terminal) → IsTable terminals.now (names_of all) → widths.now ≡ widths_of all
        → IfOk result (λ fit. fit ≡ links_fit all links.now) }
{
    match links {
        Links::Ordered(connections) => Ok(ordered_fit(widths, connections.as_slice())),
        Links::Named(links) => named_fit(alloc, terminals, widths, links.as_slice()),
    }
}

/// Whether connections by name fit terminals: each names a terminal that it fits, and none names one that an earlier
/// one names.
fn named_fit(
    alloc: Global,
    terminals: &IndexMap<&str, usize>,
    widths: &[u64],
    links: &[Link],
) -> Result<bool, NoMemory>
    ensures { (all : List Terminal) → IsTable terminals.now (names_of all) → widths.now ≡ widths_of all
        → IfOk result (λ fit. fit ≡ named_fit all [] links.now) }
{
    let names = table(alloc, links)?;
    Ok(fit_by_name(&names, terminals, widths, links))
}

/// Whether each connection is the first of its name, and fits.
fn fit_by_name(
    names: &IndexMap<&str, usize>,
    terminals: &IndexMap<&str, usize>,
    widths: &[u64],
    links: &[Link],
) -> bool
    ensures { result ≡ named_by names.now terminals.now widths.now 0 links.now }
{
    for (at, link) in links.iter().enumerate() {
        if !fits_first(names, terminals, widths, at, link) {
            return false;
        }
    }
    true
}

/// Whether the connection at a place is the first of its name, and fits.
fn fits_first(
    names: &IndexMap<&str, usize>,
    terminals: &IndexMap<&str, usize>,
    widths: &[u64],
    at: usize,
    link: &Link,
) -> bool
    ensures { result ≡ fits_first_by names.now terminals.now widths.now at link.now }
{
    stands_first(place(names, link.port.as_str()), at) && link_fits(terminals, widths, link)
}

/// Whether connections by order fit terminals, which are given by their widths: they are no more, and each fits.
fn ordered_fit(widths: &[u64], connections: &[List<Bit>]) -> bool
    ensures { (terminals : List Terminal) → widths.now ≡ widths_of terminals → result ≡ ordered_fit terminals connections.now }
{
    fit_in_order(widths, connections)
}

/// Whether there is a terminal at the place of each connection, and the connection fits it.
fn fit_in_order(widths: &[u64], connections: &[List<Bit>]) -> bool
    ensures { result ≡ fit_from widths.now 0 connections.now }
{
    for (place, bits) in connections.iter().enumerate() {
        if !fits_at(widths, place, bits) {
            return false;
        }
    }
    true
}

/// Whether a connection by name names a terminal that it fits.
fn link_fits(terminals: &IndexMap<&str, usize>, widths: &[u64], link: &Link) -> bool
    ensures { result ≡ place_fits widths.now (get_by (λ k. bytes_eq link.now.port k.now) terminals.now) link.now.bits }
{
    fits_found(widths, place(terminals, link.port.as_str()), &link.bits)
}

/// Whether there is a place of a terminal, and the connection fits the terminal.
fn fits_found(widths: &[u64], found: Option<usize>, bits: &List<Bit>) -> bool
    ensures { result ≡ place_fits widths.now found bits.now }
{
    match found {
        Some(place) => fits_at(widths, place, bits),
        None => false,
    }
}

/// Whether there is a terminal at a place, and a connection fits it.
fn fits_at(widths: &[u64], place: usize, bits: &List<Bit>) -> bool
    ensures { result ≡ fits_at widths.now place bits.now }
{
    match widths.get(place) {
        Some(width) => fits(*width, bits),
        None => false,
    }
}

/// Whether a connection fits a terminal of a width: it is empty, or has that width.
fn fits(width: u64, bits: &List<Bit>) -> bool
    ensures { result ≡ fits width bits.now }
{
    bits.len() == 0 || bits.len() as u64 == width
}
