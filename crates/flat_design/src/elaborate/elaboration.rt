//! What stands in a design: its module instances and its cells, by the places of modules and instances.

ghost use Rattle.std.specs.Prelude.{◌≡◌, ◌<◌, ◌≤◌, ◌+◌, OnErr, OnOk};
ghost use Rattle.flat_design.specs.Elaboration.{capped, is_too_large, with_cell, with_scope};

use sdc_base::{List, NoMemory};
use std::alloc::Global;

/// The most pins of a design.
pub(crate) const MOST_PINS: u64 = 1_000_000;
/// The most nets of a design, and the most instances.
pub(crate) const MOST_THINGS: u64 = 4_000_000;
/// Where counts stand still: beyond each limit, also with the top among the instances.
const CAP: u64 = 4_000_002;

/// An instance in a module instance, both by their places.
#[derive(Clone, Copy)]
pub(crate) struct Outer {
    pub(crate) scope: usize,
    pub(crate) instance: usize,
}

/// A module instance: its place, the instance that it stands for, and the number of its first net.
#[derive(Clone, Copy)]
pub(crate) struct ModuleInstanceRow {
    pub(crate) body: usize,
    pub(crate) outer: Option<Outer>,
    pub(crate) first_net: u64,
}

/// A cell: the instance that it is, its library cell by its place, and the number of its first pin.
#[derive(Clone, Copy)]
pub(crate) struct CellRow {
    pub(crate) at: Outer,
    pub(crate) kind: usize,
    pub(crate) first_pin: u64,
}

/// Module instances and cells in the order of the design, with the numbers of nets and pins so far.
#[derive(Drop)]
pub(crate) struct Elaboration {
    pub(crate) scopes: List<ModuleInstanceRow>,
    pub(crate) cells: List<CellRow>,
    pub(crate) nets: u64,
    pub(crate) pins: u64,
}

/// A sum that stands still beyond each limit.
pub(crate) fn capped(a: u64, b: u64) -> u64
    ensures { result ≡ capped a b }
{
    a.saturating_add(b).min(CAP)
}

impl Elaboration {
    /// Whether there are more pins, nets or instances than are taken.
    pub(crate) fn is_too_large(&self) -> bool
        ensures { result ≡ is_too_large self.now }
    {
        let things = capped(self.scopes.len() as u64, self.cells.len() as u64);
        self.pins > MOST_PINS || self.nets > MOST_THINGS || things > MOST_THINGS + 1
    }

    /// Adds a module instance, with so many nets.
    pub(crate) fn add_instance(
        &mut self,
        body: usize,
        outer: Option<Outer>,
        nets: u64,
    ) -> Result<(), NoMemory>
        ensures { OnOk result (self.new ≡ with_scope self.old body outer nets) }
    {
        self.scopes.push(ModuleInstanceRow {
            body,
            outer,
            first_net: self.nets,
        })?;
        self.nets = capped(self.nets, nets);
        Ok(())
    }

    /// Adds a cell with so many pins.
    pub(crate) fn add_cell(&mut self, at: Outer, kind: usize, pins: u64) -> Result<(), NoMemory>
        ensures { OnOk result (self.new ≡ with_cell self.old at kind pins) }
    {
        self.cells.push(CellRow {
            at,
            kind,
            first_pin: self.pins,
        })?;
        self.pins = capped(self.pins, pins);
        Ok(())
    }
}
