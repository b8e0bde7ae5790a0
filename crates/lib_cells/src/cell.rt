//! A cell of a library: its pins, functions, arcs and checks.

pub mod arcs;
pub mod cell_names;
pub mod cells;
pub mod checks;
pub mod functions;
pub mod launches;
pub mod pins;
pub mod related;
pub mod timing;
