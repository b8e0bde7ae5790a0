//! Modes as an analysis sees them, and the clocks of several modes as one list.

use crate::clocks::{Clock, Wave};
use crate::modes::Mode;
use pin_types::{ClockEdge, both};
use sdc_base::{Duplicate, List, NoMemory};
use std::alloc::Global;

/// The clock edges that arrive at each node of a graph, the nodes by number, the edges of a node in order.
#[derive(Drop)]
pub struct Arrivals {
    pub at: List<List<ClockEdge>>,
}

impl Duplicate for Arrivals {
    fn copy(&self, alloc: Global) -> Result<Arrivals, NoMemory> {
        let at = self.at.copy(alloc)?;
        Ok(Arrivals { at })
    }
}

/// A mode, with what is derived from it: the waveform of each clock, where clock edges arrive, and which merged
/// clock each clock is.
#[derive(Drop)]
pub struct View {
    pub mode: Mode,
    pub waves: List<Wave>,
    pub arrivals: Arrivals,
    pub clock_map: List<u32>,
}

impl Duplicate for View {
    fn copy(&self, alloc: Global) -> Result<View, NoMemory> {
        let (mode, waves) = both(alloc, &self.mode, &self.waves)?;
        let (arrivals, clock_map) = both(alloc, &self.arrivals, &self.clock_map)?;
        Ok(View {
            mode,
            waves,
            arrivals,
            clock_map,
        })
    }
}

/// The merged clocks of several modes with their waveforms, and for each mode the merged clock that each of its
/// clocks is.
#[derive(Drop)]
pub struct ClockMap {
    pub clocks: List<Clock>,
    pub waves: List<Wave>,
    pub maps: List<List<u32>>,
}

impl Duplicate for ClockMap {
    fn copy(&self, alloc: Global) -> Result<ClockMap, NoMemory> {
        let clocks = self.clocks.copy(alloc)?;
        let waves = self.waves.copy(alloc)?;
        let maps = self.maps.copy(alloc)?;
        Ok(ClockMap {
            clocks,
            waves,
            maps,
        })
    }
}
