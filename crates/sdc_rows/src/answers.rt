//! What runs have to answer, and what they have to leave.

use crate::runs::{NO_FAILS, Outcome, outcome_of};
use sdc_cli::Status;
use source_types::{Fault, Kind, SdcKind};
use std::alloc::Global;
use std::process::Abort;
use std::test::Fail;

/// A file that is out of profile, at this place among the words.
pub fn out_of_profile(file: u32) -> Status {
    fault(file, Kind::Sdc(SdcKind::OutOfProfile))
}

/// More clocks than a run takes, with the file at this place.
pub fn too_many(file: u32) -> Status {
    fault(file, Kind::Sdc(SdcKind::TooMany))
}

/// A fault of the file at this place, on any line.
fn fault(file: u32, kind: Kind) -> Status {
    Status::Source(Fault {
        file,
        line: 0,
        kind,
    })
}

/// Whether two answers are the same, but for the line of a fault.
fn is_on_any_line(answer: &Status, wanted: &Status) -> bool {
    match (answer, wanted) {
        (Status::Source(fault), Status::Source(other)) => {
            fault.file == other.file && fault.kind == other.kind
        }
        _ => answer == wanted,
    }
}

/// Whether a run ended with this answer, and wrote nothing but its line.
pub fn has_stopped(outcome: &Outcome, status: Status) -> bool {
    is_on_any_line(&outcome.status, &status) && has_no_output(outcome)
}

/// Whether nothing is written to the merged file and the report, and the file was not made.
pub fn has_no_output(outcome: &Outcome) -> bool {
    outcome.name.is_empty() && outcome.merged.is_empty() && outcome.report.is_empty()
}

/// Whether a run took its words for no command line, read nothing, and wrote nothing but its line.
fn has_refused(outcome: &Outcome) -> bool {
    outcome.refusals.as_str() == "wrong command line\n"
        && outcome.reads == 0
        && has_stopped(outcome, Status::Usage)
}

/// Whether a run was done, and made a merged file of this name, or none where it is empty.
fn has_named(outcome: &Outcome, name: &str) -> bool {
    outcome.status == Status::Done && outcome.name.as_str() == name
}

/// Whether a run was done, and left these texts in the merged file and in the report, and no line.
pub fn has_written(outcome: &Outcome, merged: &str, report: &str) -> bool {
    has_left(outcome, Status::Done, merged, report) && outcome.refusals.is_empty()
}

/// Whether a run ended with this answer, and left these texts in the merged file and in the report.
pub fn has_left(outcome: &Outcome, status: Status, merged: &str, report: &str) -> bool {
    outcome.status == status
        && outcome.merged.as_str() == merged
        && outcome.report.as_str() == report
}

/// Runs these words over these files, and sees that the answer is this one, on any line, and that nothing is
/// written but its line.
pub fn stops(
    rt: &impl Abort,
    alloc: Global,
    words: &str,
    files: &[(&str, &str)],
    status: Status,
) -> Result<(), Fail> {
    let stopped = outcome_of(alloc, words, files, 4096, NO_FAILS)?;
    assert!(rt; has_stopped(&stopped, status), "{words:?}: {stopped:?}");
    Ok(())
}

/// Runs these words over these files, and sees that they are no command line, so that no file is begun.
pub fn is_usage(
    rt: &impl Abort,
    alloc: Global,
    words: &str,
    files: &[(&str, &str)],
) -> Result<(), Fail> {
    let usage = outcome_of(alloc, words, files, 16, NO_FAILS)?;
    assert!(rt; has_refused(&usage), "{words:?}: {usage:?}");
    Ok(())
}

/// Runs these words over these files, and sees that all is done, and that the merged file has this name.
pub fn names(
    rt: &impl Abort,
    alloc: Global,
    words: &str,
    files: &[(&str, &str)],
    name: &str,
) -> Result<(), Fail> {
    let done = outcome_of(alloc, words, files, 16, NO_FAILS)?;
    assert!(rt; has_named(&done, name), "{words:?}: {done:?}");
    Ok(())
}

/// Runs these words over these files, and sees that all is done, and what stands in the merged file and in the report.
pub fn writes(
    rt: &impl Abort,
    alloc: Global,
    words: &str,
    files: &[(&str, &str)],
    merged: &str,
    report: &str,
) -> Result<(), Fail> {
    let done = outcome_of(alloc, words, files, 16, NO_FAILS)?;
    assert!(rt; has_written(&done, merged, report), "{words:?}: {done:?}");
    Ok(())
}
