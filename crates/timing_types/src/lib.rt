//! The plain types of timing: designs, modes, graphs, keys, and what a check, an explanation or a merge answers.
//!
//! Data with public fields and `Duplicate`, whose answer equals the original, and no behaviour. It stands beside
//! `source_types`, over `pin_types`.
#![tactic(auto)]

mod analyses;
mod class_sets;
mod clocks;
mod constraints;
mod designs;
mod edge_times;
mod given;
mod graphs;
mod identities;
mod keys;
mod merges;
mod modes;
mod objects;
mod paths;
mod reports;
mod views;

pub use analyses::{Constants, Cycle, Waves};
pub use class_sets::{Budget, Class, ClassSets, Launched, Met, Pool};
pub use clocks::{Clock, Early, Form, Latency, Pair, Shape, Wave};
pub use constraints::{CaseSet, Disable, ExCommand, Exception, IoDelay, Points, Through};
pub use designs::{CellInfo, Design, NetInfo, PinInfo, Role, Source};
pub use edge_times::{Relation, TimedEdge};
pub use given::{Given, GivenPoints, Normal, Sides};
pub use graphs::{Arc, ArcKind, Check, Graph};
pub use identities::{Definition, Identity, Standing};
pub use keys::{ClassResult, KeyResult, RelationResult};
pub use merges::{Left, Listed, MergeStop, Merged};
pub use modes::Mode;
pub use objects::{Kept, Note, NoteKind, Object, Value};
pub use paths::{Path, PathFacts, Periods};
pub use reports::{CheckStop, ExplainStop, Explained, Finding, FindingKind, RelationReport};
pub use views::{Arrivals, ClockMap, View};
