//! The flat design is put together: its pins, cells and nets.

pub(crate) mod building;
pub(crate) mod cell_pins;
pub(crate) mod design;
pub(crate) mod design_cells;
pub(crate) mod design_nets;
pub(crate) mod design_pins;
pub(crate) mod pin_drivers;
pub(crate) mod pin_rows;
pub(crate) mod port_pins;
