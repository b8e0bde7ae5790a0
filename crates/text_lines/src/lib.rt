//! Lines of a text, counted by its newlines.
//!
//! It gives the layer above the line of a place (`line_at`), of the last byte (`last_line`), and of the first byte that
//! is no UTF-8 (`no_text_line`), and the line after one byte for readers that go byte by byte. It leaves to others
//! what stands on the lines.
#![tactic(auto)]

mod lines;

pub use lines::{last_line, line_at, line_past, no_text_line};
