//! Whether following sources from a net comes back to it.

ghost use Rattle.std.specs.Prelude.{◌≡◌, ◌<◌, ◌==◌, ◌||◌, IfOk, OnOk, length};
ghost use Rattle.flat_design.specs.Sources.{driven_by};
ghost use Rattle.flat_design.specs.SourceTable.{IsLinked, IsNetWithin};
ghost use Rattle.flat_design.specs.Searches.{IsBegun, ReachesMore, TellsReturn, has_net, is_net};

use crate::drivers::driver_edges::Driver;
use crate::drivers::source_table::SourceTable;
use crate::items::item_at;
use sdc_base::NoMemory;
use std::alloc::Global;

/// A search along sources: which nets were reached, and those of them that are left to be looked at.
#[derive(Drop)]
struct Search {
    reached: Vec<bool>,
    left: Vec<usize>,
}

impl Search {
    /// A search among so many nets, of which none was reached yet.
    fn new(alloc: Global, nets: usize) -> Result<Search, NoMemory>
        ensures { IfOk result (IsBegun nets) }
    {
        Ok(Search {
            reached: vec![in alloc; false; nets]?,
            left: Vec::new(alloc),
        })
    }

    /// Reaches a net, which is left to be looked at where it was not reached before.
    fn reach(&mut self, net: usize) -> Result<(), NoMemory>
        requires { net < length self.old.reached.items }
        ensures { OnOk result (ReachesMore (λ other. net == other) self.old self.new) }
    {
        if !self.reached[net] {
            self.reached[net] = true;
            self.left.push(net)?;
        }
        Ok(())
    }

    /// Reaches a net where it is a source.
    fn reach_source(&mut self, source: Driver) -> Result<(), NoMemory>
        requires { IsNetWithin (length self.old.reached.items) source }
        ensures { OnOk result (ReachesMore (λ net. is_net net source) self.old self.new) }
    {
        match source {
            Driver::Net(net) => self.reach(net as usize),
            Driver::Value(_) | Driver::Pin(_) => Ok(()),
        }
    }

    /// Reaches the nets among the sources of a net, and tells whether a wanted one is among them.
    fn reach_sources(
        &mut self,
        table: &SourceTable<'_>,
        net: usize,
        wanted: usize,
    ) -> Result<bool, NoMemory>
        requires table { IsLinked table.now }
        requires net { net < length table.now.last }
        requires count { length self.old.reached.items ≡ length table.now.last }
        ensures wanted { IfOk result (λ found. found ≡ has_net (driven_by table.now.rows.now net) wanted) }
        ensures reaches { OnOk result (ReachesMore (has_net (driven_by table.now.rows.now net)) self.old self.new) }
    {
        let mut found = false;
        let mut last = *item_at(table.last.as_slice(), net);
        while last > 0 {
            let place = last - 1;
            let source = item_at(table.rows, place).from;
            found = found_in(found, source, wanted);
            self.reach_source(source)?;
            last = *item_at(table.earlier.as_slice(), place);
        }
        Ok(found)
    }
}

/// Whether a net was found, or is this source.
fn found_in(found: bool, source: Driver, net: usize) -> bool
    ensures { result ≡ (found || is_net net source) }
{
    found || is_net(source, net)
}

/// Whether a source is a net.
fn is_net(source: Driver, net: usize) -> bool
    ensures { result ≡ is_net net source }
{
    match source {
        Driver::Net(other) => other == net as u64,
        Driver::Value(_) | Driver::Pin(_) => false,
    }
}

/// Whether following sources from a net comes back to it.
pub(crate) fn returns(alloc: Global, table: &SourceTable<'_>, net: usize) -> Result<bool, NoMemory>
    requires table { IsLinked table.now }
    requires net { net < length table.now.last }
    ensures { IfOk result (TellsReturn table.now.rows.now net) }
{
    let mut search = Search::new(alloc, table.last.len())?;
    search.left.push(net)?;
    while let Some(from) = search.left.pop() {
        if search.reach_sources(table, from, net)? {
            return Ok(true);
        }
    }
    Ok(false)
}
