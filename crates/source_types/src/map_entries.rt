//! A clock map that a report gives: which clock of a mode file is which clock of the merged file. This project's own.

use sdc_base::{Duplicate, NoMemory, Text};
use std::alloc::Global;

/// A clock of a file, by name, and the name of the merged clock that it is.
#[derive(Drop)]
pub struct MapEntry {
    pub file: Text,
    pub clock: Text,
    pub merged: Text,
}

impl Duplicate for MapEntry {
    fn copy(&self, alloc: Global) -> Result<MapEntry, NoMemory> {
        let file = self.file.copy(alloc)?;
        let clock = self.clock.copy(alloc)?;
        let merged = self.merged.copy(alloc)?;
        Ok(MapEntry {
            file,
            clock,
            merged,
        })
    }
}
