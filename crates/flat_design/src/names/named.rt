//! Tables from names to places.

ghost use Rattle.std.specs.Prelude.{◌≡◌, IfOk, List, ℕ, map};
ghost use Rattle.flat_design.specs.Fitting.{stands_first};
ghost use Rattle.flat_design.specs.Names.{IsOneMore, IsTable};
ghost use Rattle.indexmap.specs.IndexMap.{get_by};
ghost use Rattle.std.specs.Str.{bytes_eq};

use indexmap::IndexMap;
use pin_types::{LibCell, LibPin};
use sdc_base::{NoMemory, Text};
use source_types::{Link, Module, Port, Wire};
use std::alloc::Global;

/// What has a name.
pub(crate) trait Named {
    ghost name: { Self → List ℕ };

    /// The name.
    fn name(&self) -> &str
        ensures { result.now ≡ name self.now };
}

impl Named for Module {
    ghost name = { λ m. m.name };

    fn name(&self) -> &str {
        self.name.as_str()
    }
}

impl Named for LibCell {
    ghost name = { λ cell. cell.name };

    fn name(&self) -> &str {
        self.name.as_str()
    }
}

impl Named for Port {
    ghost name = { λ port. port.name };

    fn name(&self) -> &str {
        self.name.as_str()
    }
}

impl Named for LibPin {
    ghost name = { λ pin. pin.name };

    fn name(&self) -> &str {
        self.name.as_str()
    }
}

impl Named for Wire {
    ghost name = { λ wire. wire.name };

    fn name(&self) -> &str {
        self.name.as_str()
    }
}

impl Named for Link {
    ghost name = { λ link. link.port };

    fn name(&self) -> &str {
        self.port.as_str()
    }
}

impl Named for Text {
    ghost name = { λ text. text };

    fn name(&self) -> &str {
        self.as_str()
    }
}

/// The place of the first thing of each name.
pub(crate) fn table<T: Named>(
    alloc: Global,
    things: &[T],
) -> Result<IndexMap<&str, usize>, NoMemory>
    ensures { IfOk result (λ table. IsTable table (map T.name things.now)) }
{
    let mut table = IndexMap::new(alloc);
    for (place, thing) in things.iter().enumerate() {
        table = with_first(table, thing.name(), place)?;
    }
    Ok(table)
}

/// A table with one more name and its place. Where it has the name already, that place stays.
fn with_first<'a>(
    table: IndexMap<&'a str, usize>,
    name: &'a str,
    place: usize,
) -> Result<IndexMap<&'a str, usize>, NoMemory>
    ensures { IfOk result (λ more. IsOneMore table.entry more name.now place) }
{
    let mut table = table;
    if table.contains_key(name) {
        return Ok(table);
    }
    table.insert(name, place)?;
    Ok(table)
}

/// The place that a table gives a name.
pub(crate) fn place(table: &IndexMap<&str, usize>, name: &str) -> Option<usize>
    ensures { result ≡ get_by (λ k. bytes_eq name.now k.now) table.now }
{
    table.get(name).copied()
}

/// Whether a place is there, and it is this one.
pub(crate) fn stands_first(found: Option<usize>, at: usize) -> bool
    ensures { result ≡ stands_first found at }
{
    match found {
        Some(place) => place == at,
        None => false,
    }
}
