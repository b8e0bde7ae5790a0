//! What of a clock decides which merged clock it is. This project's own rule; `specs/ClockIdentity.antt` says it in full.

use crate::clocks::{Form, Latency, Wave};
use pin_types::Pin;
use sdc_base::{Duplicate, List, NoMemory, Text};
use std::alloc::Global;

/// The definition of a clock, all times in whole femtoseconds: what two clocks share where they may be one.
#[derive(Drop, PartialEq, Eq, PartialOrd, Ord)]
pub struct Definition {
    pub sources: List<Pin>,
    pub wave: Wave,
    /// A master in it is a merged clock.
    pub form: Form,
    pub latency: Latency,
    pub setup_uncertainty: i64,
    pub hold_uncertainty: i64,
    pub propagated: bool,
}

impl Duplicate for Definition {
    fn copy(&self, alloc: Global) -> Result<Definition, NoMemory> {
        let sources = self.sources.copy(alloc)?;
        Ok(Definition {
            sources,
            wave: self.wave,
            form: self.form,
            latency: self.latency,
            setup_uncertainty: self.setup_uncertainty,
            hold_uncertainty: self.hold_uncertainty,
            propagated: self.propagated,
        })
    }
}

/// A clock as the ranks of its mode see it: its definition, its name, and its place in the mode.
#[derive(Drop, PartialEq, Eq, PartialOrd, Ord)]
pub struct Standing {
    pub definition: Definition,
    pub name: Text,
    pub place: usize,
}

impl Duplicate for Standing {
    fn copy(&self, alloc: Global) -> Result<Standing, NoMemory> {
        let definition = self.definition.copy(alloc)?;
        let name = self.name.copy(alloc)?;
        Ok(Standing {
            definition,
            name,
            place: self.place,
        })
    }
}

/// What makes clocks one: their definition, and their rank by name among the equal definitions of their mode.
#[derive(Drop, PartialEq, Eq, PartialOrd, Ord)]
pub struct Identity {
    pub definition: Definition,
    pub rank: usize,
}

impl Duplicate for Identity {
    fn copy(&self, alloc: Global) -> Result<Identity, NoMemory> {
        let definition = self.definition.copy(alloc)?;
        Ok(Identity {
            definition,
            rank: self.rank,
        })
    }
}
