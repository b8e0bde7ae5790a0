//! Copies that equal their original.

ghost use Rattle.std.specs.Prelude.{◌≡◌, IfOk};

use crate::memory::NoMemory;
use std::alloc::Global;

/// A value that can be copied, into memory of its own where it holds any.
pub trait Duplicate: Sized {
    /// A copy that equals the original. The one error is want of memory.
    fn copy(&self, alloc: Global) -> Result<Self, NoMemory>
        ensures { IfOk result (λ copy. copy ≡ self.now) };
}

impl Duplicate for u8 {
    fn copy(&self, _alloc: Global) -> Result<u8, NoMemory> {
        Ok(*self)
    }
}

impl Duplicate for u16 {
    fn copy(&self, _alloc: Global) -> Result<u16, NoMemory> {
        Ok(*self)
    }
}

impl Duplicate for u32 {
    fn copy(&self, _alloc: Global) -> Result<u32, NoMemory> {
        Ok(*self)
    }
}

impl Duplicate for u64 {
    fn copy(&self, _alloc: Global) -> Result<u64, NoMemory> {
        Ok(*self)
    }
}

impl Duplicate for usize {
    fn copy(&self, _alloc: Global) -> Result<usize, NoMemory> {
        Ok(*self)
    }
}

impl Duplicate for i64 {
    fn copy(&self, _alloc: Global) -> Result<i64, NoMemory> {
        Ok(*self)
    }
}

impl Duplicate for i128 {
    fn copy(&self, _alloc: Global) -> Result<i128, NoMemory> {
        Ok(*self)
    }
}

impl Duplicate for bool {
    fn copy(&self, _alloc: Global) -> Result<bool, NoMemory> {
        Ok(*self)
    }
}

impl<T: Duplicate> Duplicate for Option<T> {
    fn copy(&self, alloc: Global) -> Result<Option<T>, NoMemory> {
        match self {
            None => Ok(None),
            Some(value) => {
                let copied = value.copy(alloc)?;
                Ok(Some(copied))
            }
        }
    }
}
