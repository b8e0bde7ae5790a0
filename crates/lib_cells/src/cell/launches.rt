//! Outputs of a cell that are launched from two pins, for which the cell is refused. This project's own rule.

ghost use Rattle.std.specs.Prelude.{◌≡◌, ◌+◌, ◌&&◌, min, IfOk};
ghost use Rattle.std.specs.List.{list_any};
ghost use Rattle.library_model.specs.LibertyArcs as liberty;
ghost use Rattle.pin_types.specs.declared.library_cells.LibArc.{LibArc};
ghost use Rattle.lib_cells.specs.Launches.{AreCounts, twice_at, with_launch};

use crate::cell::arcs::{direction_at, is_output};
use crate::cell::pins::Pin;
use pin_types::LibArc;
use sdc_base::NoMemory;
use std::alloc::Global;

/// The count of one more launch arc, two and more being counted as two.
fn one_more(count: u8) -> u8
    ensures { result ≡ min 2 (count + 1) }
{
    if count < 2 { count + 1 } else { 2 }
}

/// Counts an arc, if it launches and ends at one of the pins.
fn count_arc(counts: &mut Vec<u8>, arc: &LibArc)
    ensures { counts.new.items ≡ with_launch counts.old.items arc.now }
{
    let place = usize::from(arc.to);
    if !arc.launch || counts.len() <= place {
        return;
    }
    counts[place] = one_more(counts[place]);
}

/// The number of launch arcs that end at each of so many pins, two and more being counted as two. The one error is want
/// of memory.
#[tactic(auto, using(crate::proofs::LaunchFacts::counts_none, crate::proofs::LaunchFacts::counts_more, crate::proofs::LaunchFacts::counts_all))]
fn launch_counts(alloc: Global, pins: usize, arcs: &[LibArc]) -> Result<Vec<u8>, NoMemory>
    ensures { IfOk result (λ counts. AreCounts counts.items pins arcs.now) }
{
    let mut counts = vec![in alloc; 0_u8; pins]?;
    for arc in arcs {
        count_arc(&mut counts, arc);
    }
    Ok(counts)
}

/// Whether an arc ends at an output that two arcs launch.
fn is_launched_twice(pins: &[Pin<'_>], counts: &[u8], arc: &LibArc) -> bool
    ensures { result ≡ twice_at pins.now counts.now arc.now }
{
    let place = usize::from(arc.to);
    if counts.len() <= place {
        return false;
    }
    is_output(direction_at(pins, arc.to)) && counts[place] > 1
}

/// Whether an output of a cell is launched from two pins. The one error is want of memory.
#[tactic(auto, using(crate::proofs::LaunchFacts::twice_same))]
pub fn has_two_launches(alloc: Global, pins: &[Pin<'_>], arcs: &[LibArc]) -> Result<bool, NoMemory>
    ensures { IfOk result (λ twice. twice ≡ list_any (λ (arc : LibArc). liberty.is_output (liberty.direction_at pins.now arc.to) && liberty.is_launched_twice arcs.now arc.to) arcs.now) }
{
    let counts = launch_counts(alloc, pins.len(), arcs)?;
    Ok(any_twice(pins, counts.as_slice(), arcs))
}

/// Whether one of some arcs ends at an output that two arcs launch.
fn any_twice(pins: &[Pin<'_>], counts: &[u8], arcs: &[LibArc]) -> bool
    ensures { result ≡ list_any (twice_at pins.now counts.now) arcs.now }
{
    arcs.iter().any(|arc| is_launched_twice(pins, counts, arc))
}
