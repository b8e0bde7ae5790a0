//! A mode: all that one constraint file says.

use crate::clocks::{Clock, Pair};
use crate::constraints::{CaseSet, Disable, Exception, IoDelay};
use crate::objects::{Kept, Note};
use pin_types::both;
use sdc_base::{Duplicate, List, NoMemory};
use std::alloc::Global;

/// A mode. Clocks, exceptions, kept commands and notes stand in order of execution; exclusive pairs in order,
/// each once; cases by pin; disabled pins by pin, then pairs; delays by port, clock and edge.
#[derive(Drop)]
pub struct Mode {
    pub clocks: List<Clock>,
    pub exclusive: List<Pair>,
    pub cases: List<CaseSet>,
    pub disabled: List<Disable>,
    pub delays: List<IoDelay>,
    pub exceptions: List<Exception>,
    pub kept: List<Kept>,
    pub notes: List<Note>,
}

impl Duplicate for Mode {
    fn copy(&self, alloc: Global) -> Result<Mode, NoMemory> {
        let (clocks, exclusive) = both(alloc, &self.clocks, &self.exclusive)?;
        let (cases, disabled) = both(alloc, &self.cases, &self.disabled)?;
        let (delays, exceptions) = both(alloc, &self.delays, &self.exceptions)?;
        let (kept, notes) = both(alloc, &self.kept, &self.notes)?;
        Ok(Mode {
            clocks,
            exclusive,
            cases,
            disabled,
            delays,
            exceptions,
            kept,
            notes,
        })
    }
}
