//! The kinds of fault of a mode's analysis.

use crate::pins::Pin;
use sdc_base::{Duplicate, NoMemory};
use std::alloc::Global;
use thiserror::Error;

/// Faults of a mode over its design.
#[derive(Clone, Copy, Debug, PartialEq, Eq, Error)]
pub enum ModeKind {
    #[error("a pin is set to another value than the design gives it")]
    CaseConflict { pin: Pin, set: bool, derived: bool },
    #[error("not one clock arrives at the source of a generated clock")]
    MasterUnclear { count: u32 },
    #[error("a clock is generated from itself")]
    MasterCycle,
    #[error("a period or a pulse cannot be divided without a rest")]
    NotExact { rest: i64 },
    #[error("a period is out of range")]
    PeriodRange,
}

impl Duplicate for ModeKind {
    fn copy(&self, _alloc: Global) -> Result<ModeKind, NoMemory> {
        Ok(*self)
    }
}
