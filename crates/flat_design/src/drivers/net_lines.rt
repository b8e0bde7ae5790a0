//! The line of a net: that of the module of its module instance.

ghost use Rattle.std.specs.Prelude.{◌≡◌, ◌<◌, Some, length, nat_le, slice_get};
ghost use Rattle.std.specs.List.{prefix_len};
ghost use Rattle.flat_model.specs.FlatFaults.{net_line};
ghost use Rattle.flat_model.specs.FlatNets.{FlatNet};
ghost use Rattle.flat_design.specs.declared.elaborate.elaboration.ModuleInstanceRow.{ModuleInstanceRow};
ghost use Rattle.flat_design.specs.Hierarchy.{IsHierarchy, scopes_in};
ghost use Rattle.flat_design.specs.NamedFaults.{flat_of};

use crate::elaborate::elaboration::ModuleInstanceRow;
use crate::elaborate::hierarchy::{Hierarchy, body_at};

/// The line of the net of a number.
pub(crate) fn line_of(design: &Hierarchy<'_>, net: usize) -> u32
    requires is { IsHierarchy design.now }
    requires within { net < design.now.elaboration.nets }
    ensures { (found : FlatNet) → slice_get (flat_of design.now).nets net ≡ Some found → result ≡ net_line found }
{
    body_at(design, scope_of(design, net)).line
}

/// The place of the module where the net of a number stands: the last one whose nets begin no later.
fn scope_of(design: &Hierarchy<'_>, net: usize) -> usize
    requires is { IsHierarchy design.now }
    requires within { net < design.now.elaboration.nets }
    ensures { (found : FlatNet) → slice_get (flat_of design.now).nets net ≡ Some found
        → slice_get (scopes_in design.now) result ≡ Some found.scope }
{
    begun(design.elaboration.scopes.as_slice(), net as u64) - 1
}

/// How many of these modules come before the first one whose nets begin after a net.
fn begun(rows: &[ModuleInstanceRow], net: u64) -> usize
    ensures { result ≡ prefix_len (λ (row : ModuleInstanceRow). nat_le row.first_net net) rows.now }
{
    rows.iter().take_while(|row| row.first_net <= net).count()
}
