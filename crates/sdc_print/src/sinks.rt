//! Where printed bytes go: into a text, or into a count of them.

ghost use Rattle.std.specs.Prelude.{◌≡◌, ◌+◌, ◌^◌, ◌≤◌, IfOk, OnOk, OnErr};
ghost use Rattle.sdc_print.specs.Added.{added, Overflows};

use sdc_base::{List, NoMemory};

/// Where printed bytes go.
#[derive(Drop)]
pub enum Sink {
    /// The bytes.
    Bytes(List<u8>),
    /// Their number.
    Count(u64),
}

impl Sink {
    /// Adds bytes at the end. The one error is want of memory. A count takes no memory: there it is the answer where
    /// the number passes 64 bits, and nowhere else.
    #[tactic(auto, unfolding(crate::specs::Added::added, crate::specs::Added::Overflows))]
    pub fn push(&mut self, more: &[u8]) -> Result<(), NoMemory>
        ensures adds { OnOk result (self.new ≡ added self.old more.now) }
        ensures limit { OnErr result (Overflows (added self.old more.now)) }
    {
        match self {
            Sink::Bytes(bytes) => bytes.extend_from_slice(more)?,
            Sink::Count(count) => *count = sum(*count, more.len() as u64)?,
        }
        Ok(())
    }
}

/// The sum of two counts. The one error is the answer where it passes 64 bits.
pub fn sum(first: u64, second: u64) -> Result<u64, NoMemory>
    ensures adds { IfOk result (λ total. total ≡ first + second) }
    ensures limit { OnErr result (2 ^ 64 ≤ first + second) }
{
    first.checked_add(second).ok_or(NoMemory)
}
