//! What drives each net of a design, with the first fault of a net.

pub(crate) mod all_drivers;
pub(crate) mod cell_connections;
pub(crate) mod cell_drivers;
pub(crate) mod connected;
pub(crate) mod cycles;
pub(crate) mod driver_edges;
pub(crate) mod ends;
pub(crate) mod net_ends;
pub(crate) mod net_faults;
pub(crate) mod net_lines;
pub(crate) mod net_numbers;
pub(crate) mod port_drivers;
pub(crate) mod returning;
pub(crate) mod source_table;
