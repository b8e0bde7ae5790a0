//! The faults of modules whose names are looked up.

pub mod faults;
pub mod names;
pub mod repeats;
pub mod uses;
