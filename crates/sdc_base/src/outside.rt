//! The outside as two traits: files that are read, and channels that are written.

ghost use Rattle.std.specs.Prelude.{◌≡◌, ◌<◌, ◌≤◌, ℕ, Option, length, IfOk, OnOk};
ghost use Rattle.sdc_base.specs.Counting.{Rose};
ghost use Rattle.sdc_base.specs.Files.{Reading, Begins, Reads};
ghost use Rattle.sdc_base.specs.Channels.{Written, Creates, Writes};
ghost use Rattle.sdc_base.specs.declared.outside.Refusal.TheVariants as refusal;

use crate::lists::List;
use crate::memory::NoMemory;
use crate::texts::Text;
use thiserror::Error;

/// Why a call of the outside did not do its work.
#[derive(Clone, Copy, Debug, PartialEq, Eq, Error)]
pub enum Refusal {
    /// The outside failed, and the count of faults tells it.
    #[error("the outside failed")]
    Failed,
    #[error("out of memory")]
    NoMemory,
}

impl From<NoMemory> for Refusal {
    ghost from_gives = { λ _ answer. answer ≡ refusal.NoMemory };

    fn from(_error: NoMemory) -> Refusal {
        Refusal::NoMemory
    }
}

/// Where a piece of output goes.
#[derive(Clone, Copy)]
pub enum Channel {
    /// What the command found.
    Report,
    /// One line that names a refusal.
    Faults,
    /// The merged constraint file.
    Merged,
}

/// A file in memory.
#[derive(Drop)]
pub struct NamedBytes {
    pub name: Text,
    pub bytes: List<u8>,
}

/// Files that are read one at a time. An object may tell its files, and whether it does never changes.
pub trait Inputs {
    /// The files and how far they were read, where the object tells it.
    ghost contents: { Self → Option Reading };

    /// The number of faults so far.
    ghost faults: { Self → ℕ };

    /// Begins the file of a name, from its start. A refusal leaves the begun file and its offset.
    fn begin(&mut self, name: &str) -> Result<(), Refusal>
        ensures begins { Begins name.now result (contents self.old) (contents self.new) }
        ensures faults { faults self.old ≤ faults self.new }
        ensures quiet { OnOk result (faults self.new ≡ faults self.old) }
        ensures failed { result ≡ Err Refusal.Failed → Rose (faults self.old) (faults self.new) };

    /// Reads the next bytes of the begun file to the front of the buffer, and answers how many; 0 for a
    /// buffer with room means the end. A refusal leaves the begun file and its offset.
    fn read(&mut self, buffer: &mut [u8]) -> Result<usize, Refusal>
        ensures within { IfOk result (λ count. count ≤ length buffer.old) }
        ensures reads { Reads (length buffer.old) buffer.new result
            (contents self.old) (contents self.new) }
        ensures faults { faults self.old ≤ faults self.new }
        ensures quiet { OnOk result (faults self.new ≡ faults self.old) }
        ensures failed { result ≡ Err Refusal.Failed → Rose (faults self.old) (faults self.new) };
}

/// Channels that are written piece by piece. An object may tell what was written, and whether it does
/// never changes.
pub trait Outputs {
    /// What stands in the channels, where the object tells it.
    ghost contents: { Self → Option Written };

    /// The number of faults so far.
    ghost faults: { Self → ℕ };

    /// Makes the file after `Merged`, empty and under a name. A refusal changes nothing.
    fn create(&mut self, name: &str) -> Result<(), Refusal>
        ensures creates { Creates name.now result (contents self.old) (contents self.new) }
        ensures faults { faults self.old ≤ faults self.new }
        ensures quiet { OnOk result (faults self.new ≡ faults self.old) }
        ensures failed { result ≡ Err Refusal.Failed → Rose (faults self.old) (faults self.new) };

    /// Adds the first bytes of a piece to the end of a channel, and answers how many, at least one of a
    /// piece that is not empty. A refusal changes nothing.
    fn write(&mut self, channel: Channel, piece: &[u8]) -> Result<usize, Refusal>
        ensures within { IfOk result (λ count. count ≤ length piece.now) }
        ensures some { IfOk result (λ count. 0 < length piece.now → 0 < count) }
        ensures writes { Writes channel piece.now result (contents self.old) (contents self.new) }
        ensures faults { faults self.old ≤ faults self.new }
        ensures quiet { OnOk result (faults self.new ≡ faults self.old) }
        ensures failed { result ≡ Err Refusal.Failed → Rose (faults self.old) (faults self.new) };
}
