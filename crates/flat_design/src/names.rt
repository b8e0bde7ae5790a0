//! The names of what stands in a design, with the first fault of a cell.

pub(crate) mod cell_faults;
pub(crate) mod full_names;
pub(crate) mod name_marks;
pub(crate) mod named;
pub(crate) mod object_names;
pub(crate) mod pin_names;
pub(crate) mod repeated;
