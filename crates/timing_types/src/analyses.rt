//! What is derived from a mode over a design. This project's own forms.

use crate::clocks::Wave;
use pin_types::Node;
use sdc_base::{Duplicate, List, NoMemory};
use std::alloc::Global;

/// The value of each pin that is constant, by pin. `specs/ConstantValues.antt` says which.
#[derive(Drop)]
pub struct Constants {
    pub values: List<Option<bool>>,
}

impl Duplicate for Constants {
    fn copy(&self, alloc: Global) -> Result<Constants, NoMemory> {
        let values = self.values.copy(alloc)?;
        Ok(Constants { values })
    }
}

/// The waveform of each clock of a mode, and the clock of the same mode that it is generated from, where it is a
/// generated one. `specs/GeneratedWaves.antt` says which.
#[derive(Drop)]
pub struct Waves {
    pub waves: List<Wave>,
    pub masters: List<Option<u32>>,
}

impl Duplicate for Waves {
    fn copy(&self, alloc: Global) -> Result<Waves, NoMemory> {
        let waves = self.waves.copy(alloc)?;
        let masters = self.masters.copy(alloc)?;
        Ok(Waves { waves, masters })
    }
}

/// A cycle of arcs that launch nothing: its nodes in the direction of the arcs, the last joined to the first.
/// `specs/Loops.antt` says which one is answered.
#[derive(Debug, Drop, PartialEq, Eq)]
pub struct Cycle {
    pub nodes: List<Node>,
}

impl Duplicate for Cycle {
    fn copy(&self, alloc: Global) -> Result<Cycle, NoMemory> {
        let nodes = self.nodes.copy(alloc)?;
        Ok(Cycle { nodes })
    }
}
