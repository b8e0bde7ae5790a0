//! Want of memory, and refusals beside it.

ghost use Rattle.sdc_base.specs.declared.memory.Stop.TheVariants as stop;
ghost use Rattle.std.specs.Prelude.{◌≡◌};

use crate::duplicate::Duplicate;
use std::alloc::{AllocError, AllocFailed, Global};
use thiserror::Error;

/// Memory ran out.
#[derive(Clone, Copy, Debug, PartialEq, Eq, Error)]
#[error("out of memory")]
pub struct NoMemory;

impl From<AllocError> for NoMemory {
    fn from(_error: AllocError) -> NoMemory {
        NoMemory
    }
}

impl<T: Drop> From<AllocFailed<T>> for NoMemory {
    fn from(_failed: AllocFailed<T>) -> NoMemory {
        NoMemory
    }
}

/// Why a call stopped short: it refused its input, for the cause that it names, or memory ran out.
#[derive(Debug, Drop)]
pub enum Stop<E> {
    Refused(E),
    NoMemory,
}

impl<E> From<NoMemory> for Stop<E> {
    ghost from_gives = { λ _ answer. answer ≡ stop.NoMemory };

    fn from(_error: NoMemory) -> Stop<E> {
        Stop::NoMemory
    }
}

impl<E> From<AllocError> for Stop<E> {
    ghost from_gives = { λ _ answer. answer ≡ stop.NoMemory };

    fn from(_error: AllocError) -> Stop<E> {
        Stop::NoMemory
    }
}

impl<E, T: Drop> From<AllocFailed<T>> for Stop<E> {
    ghost from_gives = { λ _ answer. answer ≡ stop.NoMemory };

    fn from(_failed: AllocFailed<T>) -> Stop<E> {
        Stop::NoMemory
    }
}

/// What was found at a line of a source, lines counted from 1.
#[derive(Clone, Copy, Debug, Drop)]
pub struct At<K> {
    pub line: u32,
    pub kind: K,
}

impl<K: Duplicate> Duplicate for At<K> {
    fn copy(&self, alloc: Global) -> Result<At<K>, NoMemory> {
        let line = self.line;
        let kind = self.kind.copy(alloc)?;
        Ok(At { line, kind })
    }
}
