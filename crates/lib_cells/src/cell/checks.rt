//! The checks of a library cell (Liberty, `timing`), each once.

ghost use Rattle.std.specs.Prelude.{◌≡◌, [], map, IfOk, OnOk};
ghost use Rattle.std.specs.List.{filter_map, fold};
ghost use Rattle.library_model.specs.LibertyArcs as liberty;
ghost use Rattle.pin_types.specs.Nodes.{side_number as number_of_side};
ghost use Rattle.pin_types.specs.Nodes.{edge_number as number_of_edge};
ghost use Rattle.lib_cells.specs.CheckKeys as keys;
ghost use Rattle.lib_cells.specs.RelatedPins.{related_seen};

use crate::cell::related::Related;
use crate::cell::timing::check_of;
use pin_types::{Edge, LibCheck, Side};
use sdc_base::{List, NoMemory};
use std::alloc::Global;
use std::collections::BTreeSet;

/// The number of a transition.
fn edge_number(edge: Edge) -> u16
    ensures { result ≡ number_of_edge edge }
{
    match edge {
        Edge::Rise => 0,
        Edge::Fall => 1,
    }
}

/// The number of a side.
fn side_number(side: Side) -> u16
    ensures { result ≡ number_of_side side }
{
    match side {
        Side::Setup => 0,
        Side::Hold => 1,
    }
}

/// What tells a check from others: its pins, its edge and its side.
fn check_key(check: &LibCheck) -> [u16; 4]
    ensures { result ≡ keys.check_key check.now }
{
    [
        check.pin,
        check.clock,
        edge_number(check.clock_edge),
        side_number(check.side),
    ]
}

/// Adds a check, if it is not there yet. The one error is want of memory.
fn add_check(
    checks: &mut List<LibCheck>,
    known: &mut BTreeSet<[u16; 4]>,
    check: LibCheck,
) -> Result<(), NoMemory>
    requires { keys.HasKeys known.old checks.old }
    ensures joined { OnOk result (checks.new ≡ liberty.with_check checks.old check) }
    ensures found { OnOk result (keys.HasKeys known.new checks.new) }
{
    let key = check_key(&check);
    if known.contains(&key) {
        return Ok(());
    }
    known.insert(key)?;
    checks.push(check)?;
    Ok(())
}

/// The check that a related pin gives, if it gives one.
fn check_if(related: &Related) -> Option<LibCheck>
    ensures { result ≡ liberty.check_if (related_seen related.now) }
{
    check_of(related.from, related.to, related.timing)
}

/// The checks of a cell, given the related pins of its pins. The one error is want of memory.
pub fn checks_of(alloc: Global, related: &[Related]) -> Result<List<LibCheck>, NoMemory>
    ensures { IfOk result (λ checks. checks ≡ fold liberty.with_check [] (filter_map liberty.check_if (map related_seen related.now))) }
{
    let mut checks = List::new(alloc);
    let mut known = BTreeSet::new(alloc);
    for one in related {
        if let Some(check) = check_if(one) {
            add_check(&mut checks, &mut known, check)?;
        }
    }
    Ok(checks)
}
