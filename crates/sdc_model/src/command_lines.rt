//! Command lines of the tool, and what a run writes.

use sdc_base::{List, Text};

/// What a command line asks for.
#[derive(Drop)]
pub enum CommandLine {
    /// The relations of the clock edges of each of these files.
    Edges(List<Text>),
    /// These modes, merged into the file of a name.
    Merge(Text, List<Text>),
}

/// What a run writes: the bytes of the merged file, where one is made, and of the report.
#[derive(Drop)]
pub struct Output {
    pub merged: List<u8>,
    pub report: List<u8>,
}
