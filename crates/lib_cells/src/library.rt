//! The library that a text is, or its first fault.

pub mod cell_faults;
pub mod libraries;
pub mod library_faults;
pub mod units;
