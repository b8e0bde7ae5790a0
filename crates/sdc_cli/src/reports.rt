//! The reports of the tool that are JSON, as plain data. This project's own rule.

use sdc_base::{List, Text};

/// A report.
#[derive(Debug, Drop, PartialEq, Eq, PartialOrd, Ord)]
pub enum Report {
    /// The report of a merge of modes.
    Merge(MergeReport),
}

/// What a merge of modes did: the clocks of the merged mode, the relations of endpoints that it times
/// without need or too strictly, and the commands of the modes that it left out.
#[derive(Debug, Drop, PartialEq, Eq, PartialOrd, Ord)]
pub struct MergeReport {
    pub clocks: List<ClockRow>,
    pub listed: List<ListedRow>,
    pub not_carried: List<LeftRow>,
}

/// A clock of the merged mode, and the clocks of the modes that it stands for.
#[derive(Debug, Drop, PartialEq, Eq, PartialOrd, Ord)]
pub struct ClockRow {
    pub name: Text,
    pub modes: List<ModeClock>,
}

/// A clock of a mode: the mode's file, and the clock's name there.
#[derive(Debug, Drop, PartialEq, Eq, PartialOrd, Ord)]
pub struct ModeClock {
    pub file: Text,
    pub name: Text,
}

/// A relation of an endpoint with a path that no mode times and the merged mode does, or that it times more
/// strictly than every mode that times it. Edges are written `CLOCK rise`, nodes `r1/CK rise`.
#[derive(Debug, Drop, PartialEq, Eq, PartialOrd, Ord)]
pub struct ListedRow {
    pub end: Text,
    pub launch: Text,
    pub capture: Text,
    /// `setup` or `hold`.
    pub side: Text,
    /// The nodes of one such path.
    pub path: List<Text>,
    /// The limit of the merged mode on the path, in femtoseconds.
    pub merged: i64,
    /// The strictest limit of a mode on the path, in femtoseconds; none where no mode times it.
    pub required: Option<i64>,
}

/// A command of a mode, by its file and line, that the merged mode does not have.
#[derive(Debug, Drop, PartialEq, Eq, PartialOrd, Ord)]
pub struct LeftRow {
    pub file: Text,
    /// Counted from 1.
    pub line: u32,
    pub command: Text,
}
