//! What a run of the tool answers.

ghost use Rattle.std.specs.Prelude.{◌≡◌};
ghost use Rattle.sdc_model.specs.declared.answers.Status.TheVariants as status;

use pin_types::Pin;
use sdc_base::NoMemory;
use source_types::Fault;
use timing_types::Cycle;

/// The answer of a run. Its exit number is the tool's exit status.
#[derive(Debug, Drop, PartialEq, Eq)]
pub enum Status {
    /// The work is done, and its list is empty, or it has none.
    Done,
    /// The work is done, and its list is not empty.
    Findings,
    /// The words are no command line; no file was read.
    Usage,
    /// A source has this first fault.
    Source(Fault),
    /// The arcs have this cycle.
    Loop(Cycle),
    /// The pin is a clock source in one mode, and a clock of another mode, in which it is none, arrives at it.
    Conflict {
        pin: Pin,
        source_mode: u32,
        passing_mode: u32,
    },
    /// There are more classes than this.
    Budget(u64),
    /// A file could not be read; the place of its word.
    ReadFault(u32),
    /// The outputs could not be written.
    WriteFault,
    /// Memory ran out.
    NoMemory,
    /// The merged text would have so many bytes, more than 268,435,456.
    TooLarge(u64),
}

impl From<NoMemory> for Status {
    ghost from_gives = { λ _ answer. answer ≡ status.NoMemory };

    fn from(_error: NoMemory) -> Status {
        Status::NoMemory
    }
}
