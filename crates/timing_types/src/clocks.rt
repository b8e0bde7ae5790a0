//! Clocks as a mode defines them (SDC 2.1, `create_clock` and `create_generated_clock`), all times in whole
//! femtoseconds.

use pin_types::Pin;
use sdc_base::{Duplicate, List, NoMemory, Text};
use std::alloc::Global;

/// The waveform of a clock: its period, and the times of its first rise and of the fall after it.
#[derive(Clone, Copy, PartialEq, Eq, PartialOrd, Ord)]
pub struct Wave {
    pub period: i64,
    pub rise: i64,
    pub fall: i64,
}

impl Duplicate for Wave {
    fn copy(&self, _alloc: Global) -> Result<Wave, NoMemory> {
        Ok(*self)
    }
}

/// How the waveform of a generated clock is made of its master's.
#[derive(Clone, Copy, PartialEq, Eq, PartialOrd, Ord)]
pub enum Shape {
    Divide(u32),
    Multiply(u32),
    /// The master's edges, counted from 1, of its rise, its fall and its next rise.
    Edges(u32, u32, u32),
}

impl Duplicate for Shape {
    fn copy(&self, _alloc: Global) -> Result<Shape, NoMemory> {
        Ok(*self)
    }
}

/// Whether a clock has a waveform of its own or is generated from a master.
#[derive(Clone, Copy, PartialEq, Eq, PartialOrd, Ord)]
pub enum Form {
    Primary {
        wave: Wave,
    },
    Generated {
        source: Pin,
        master: Option<u32>,
        shape: Shape,
        invert: bool,
    },
}

impl Duplicate for Form {
    fn copy(&self, _alloc: Global) -> Result<Form, NoMemory> {
        Ok(*self)
    }
}

/// A value for each transition of a clock.
#[derive(Clone, Copy, PartialEq, Eq, PartialOrd, Ord)]
pub struct Early {
    pub rise: i64,
    pub fall: i64,
}

impl Duplicate for Early {
    fn copy(&self, _alloc: Global) -> Result<Early, NoMemory> {
        Ok(*self)
    }
}

/// The latencies of a clock, outside the design (source) and in it (network).
#[derive(Clone, Copy, PartialEq, Eq, PartialOrd, Ord)]
pub struct Latency {
    pub source_early: Early,
    pub source_late: Early,
    pub network_early: Early,
    pub network_late: Early,
}

impl Duplicate for Latency {
    fn copy(&self, _alloc: Global) -> Result<Latency, NoMemory> {
        Ok(*self)
    }
}

/// A clock of a mode. A clock without sources is virtual.
#[derive(Drop)]
pub struct Clock {
    /// The line of the command that made it.
    pub line: u32,
    pub name: Text,
    pub sources: List<Pin>,
    pub form: Form,
    pub latency: Latency,
    pub setup_uncertainty: i64,
    pub hold_uncertainty: i64,
    pub propagated: bool,
}

impl Duplicate for Clock {
    fn copy(&self, alloc: Global) -> Result<Clock, NoMemory> {
        let name = self.name.copy(alloc)?;
        let sources = self.sources.copy(alloc)?;
        Ok(Clock {
            line: self.line,
            name,
            sources,
            form: self.form,
            latency: self.latency,
            setup_uncertainty: self.setup_uncertainty,
            hold_uncertainty: self.hold_uncertainty,
            propagated: self.propagated,
        })
    }
}

/// Two clocks of a mode that are exclusive, the lesser place first.
#[derive(Clone, Copy, PartialEq, Eq, PartialOrd, Ord)]
pub struct Pair {
    pub first: u32,
    pub second: u32,
}

impl Duplicate for Pair {
    fn copy(&self, _alloc: Global) -> Result<Pair, NoMemory> {
        Ok(*self)
    }
}
