//! The plain types that sources and timing share: pins, transitions, clock edges, library cells, and the faults of a
//! mode's analysis.
//!
//! Data with public fields and `Duplicate`, whose answer equals the original, and no behaviour. Its definitions say how
//! nodes and clock edges are numbered and ordered.
#![tactic(auto)]

mod copies;
mod functions;
mod library_cells;
mod mode_faults;
mod pins;

pub use copies::both;
pub use functions::Expr;
pub use library_cells::{Direction, LibArc, LibCell, LibCheck, LibPin};
pub use mode_faults::ModeKind;
pub use pins::{ClockEdge, Edge, Node, Pin, Side};
