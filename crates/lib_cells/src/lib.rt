//! Libraries of cells (Liberty).
//!
//! It gives the layer above `read_lib`, which reads the bytes of a file: the library that they mean, or their first
//! fault with its line. It leaves to others what a design makes of the cells, and what the functions of pins compute.
#![tactic(auto)]

mod cell;
mod library;
mod read;
mod scanning;
mod syntax;

pub use read::read_lib;
pub use source_types::Library;
