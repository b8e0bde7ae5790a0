//! A library of cells (Liberty).

use pin_types::LibCell;
use sdc_base::{Duplicate, List, NoMemory};
use std::alloc::Global;

/// A library: its time unit in femtoseconds, and its cells.
#[derive(Drop)]
pub struct Library {
    pub unit: i64,
    pub cells: List<LibCell>,
}

impl Duplicate for Library {
    fn copy(&self, alloc: Global) -> Result<Library, NoMemory> {
        let cells = self.cells.copy(alloc)?;
        Ok(Library {
            unit: self.unit,
            cells,
        })
    }
}
