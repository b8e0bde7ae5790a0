//! The rows of a design's pins: what a design says of them beside their names.

ghost use Rattle.std.specs.Prelude.{◌≡◌};
ghost use Rattle.flat_model.specs.FlatDesign.{port_role};
ghost use Rattle.design_model.specs.WellFormedDesign.{role_in_cell};

use pin_types::Direction;
use timing_types::{Role, Source};

/// A pin of a design without its name.
#[derive(Clone, Copy)]
pub(crate) struct PinRow {
    pub(crate) role: Role,
    pub(crate) cell: Option<u32>,
    pub(crate) lib_pin: u16,
    pub(crate) driver: Source,
}

/// What a bit of a port is.
pub(crate) fn port_role(direction: Direction) -> Role
    ensures { result ≡ port_role direction }
{
    match direction {
        Direction::Input => Role::InPort,
        Direction::Output => Role::OutPort,
        Direction::Other => Role::OutPort,
    }
}

/// What a pin of a cell is.
pub(crate) fn role_in_cell(direction: Direction) -> Role
    ensures { result ≡ role_in_cell direction }
{
    match direction {
        Direction::Input => Role::CellIn,
        Direction::Output => Role::CellOut,
        Direction::Other => Role::CellOther,
    }
}
