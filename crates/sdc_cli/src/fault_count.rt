//! Answers of the operating system in the terms of the traits of the outside, their errors counted.

ghost use Rattle.std.specs.Prelude.{◌≡◌, ◌≤◌, OnErr};
ghost use Rattle.sdc_base.specs.Counting.{Rose};
ghost use Rattle.std.specs.IoError.{error_kind};
ghost use Rattle.sdc_cli.specs.Refusals.{refusal_of, answer_of, count_after};

use sdc_base::{Refusal, next_count};
use std::io;
use std::io::ErrorKind;

/// The refusal that an error is.
fn refusal(error: &io::Error) -> Refusal
    ensures { result ≡ refusal_of (error_kind error.now) }
{
    match error.kind() {
        ErrorKind::OutOfMemory => Refusal::NoMemory,
        _ => Refusal::Failed,
    }
}

/// The same answer, its error counted and as a refusal.
pub(crate) fn counted<T>(answer: io::Result<T>, faults: &mut u64) -> Result<T, Refusal>
    ensures answer { result ≡ answer_of answer }
    ensures faults { faults.new ≡ count_after answer faults.old }
    ensures never_falls { faults.old ≤ faults.new }
    ensures rose { OnErr result (Rose faults.old faults.new) }
{
    match answer {
        Ok(value) => Ok(value),
        Err(error) => {
            *faults = next_count(*faults);
            Err(refusal(&error))
        }
    }
}

#[cfg(test)]
mod tests {
    use super::*;

    #[test]
    fn errors_are_counted_up_to_the_last_count(rt: HostRuntime) {
        for (kind, before, refused, after) in [
            (ErrorKind::NotFound, 0, Refusal::Failed, 1),
            (ErrorKind::OutOfMemory, 1, Refusal::NoMemory, 2),
            (ErrorKind::Other, u64::MAX - 1, Refusal::Failed, u64::MAX),
            (ErrorKind::Other, u64::MAX, Refusal::Failed, u64::MAX),
        ] {
            let mut faults = before;
            let answer: io::Result<usize> = Err(kind.into());
            assert_eq!(rt; counted(answer, &mut faults), Err(refused), "at {before}");
            assert_eq!(rt; faults, after);
        }
    }
}
