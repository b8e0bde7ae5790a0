//! `merge` where a read or a write fails, or a mode is refused.

use crate::answers::{has_left, has_stopped, has_written, out_of_profile, stops, too_many};
use crate::merge::{M1, M2, SHARED, SHARED_REPORT};
use crate::runs::{Fails, NO_FAILS, Outcome, equal_clocks, is_proper_front, outcome_of};
use sdc_cli::Status;
use std::alloc::Global;
use std::process::Abort;
use std::test::Fail;

const WORDS: &str = "merge - - - o.sdc m1.sdc m2.sdc";

static FILES: [(&str, &str); 2] = [("m1.sdc", M1), ("m2.sdc", M2)];

/// Sees that nothing is written where this call of the inputs fails, a call on the file at this place.
fn read_fails(rt: &impl Abort, alloc: Global, read: u64, place: u32) -> Result<(), Fail> {
    let failed = outcome_of(alloc, WORDS, &FILES, 16, Fails { read, write: 0 })?;
    assert!(rt;
        has_stopped(&failed, Status::ReadFault(place)),
        "call {read}: {failed:?}"
    );
    Ok(())
}

/// Whether a run was done with so many calls of the inputs.
fn has_read(outcome: &Outcome, reads: u64) -> bool {
    outcome.status == Status::Done && outcome.reads == reads
}

// Each call of the inputs fails in turn. The 113 bytes of the first mode, 16 a call, take ten calls: the
// begin, eight reads and the one at the end. The 64 bytes of the second take six.
#[test]
fn failing_reads(rt: HostRuntime) -> Result<(), Fail> {
    for read in 1..=10 {
        read_fails(&rt, rt.alloc(), read, 5)?;
    }
    for read in 11..=16 {
        read_fails(&rt, rt.alloc(), read, 6)?;
    }
    let done = outcome_of(rt.alloc(), WORDS, &FILES, 16, Fails { read: 17, write: 0 })?;
    assert!(rt; has_read(&done, 16), "{done:?}");
    Ok(())
}

/// Whether a write failed, and what stands is what the writes before it left: the name is there once the file is made,
/// then comes a front of the file, then all of it, and at last a front of the report, too.
fn stands(outcome: &Outcome, write: u64) -> bool {
    let (merged, report) = (outcome.merged.as_str(), outcome.report.as_str());
    let is_right = match write {
        1..=10 => is_proper_front(merged, SHARED) && report.is_empty(),
        11 => merged == SHARED && report.is_empty(),
        _ => merged == SHARED && is_proper_front(report, SHARED_REPORT),
    };
    is_right && has_failed(outcome, if write == 1 { "" } else { "o.sdc" })
}

/// Whether a write failed, and the line says so, with a merged file of this name, or none where it is empty.
fn has_failed(outcome: &Outcome, name: &str) -> bool {
    outcome.status == Status::WriteFault
        && outcome.name.as_str() == name
        && outcome.refusals.as_str() == "cannot write\n"
}

/// Sees what stands where this call of the outputs fails.
fn write_fails(rt: &impl Abort, alloc: Global, write: u64) -> Result<(), Fail> {
    let failed = outcome_of(alloc, WORDS, &FILES, 16, Fails { read: 0, write })?;
    assert!(rt; stands(&failed, write), "call {write}: {failed:?}");
    Ok(())
}

// Each call of the outputs fails in turn: first the making of the file, then the writes of its 138 bytes, 16
// a call, then those of the report.
#[test]
fn failing_writes(rt: HostRuntime) -> Result<(), Fail> {
    let whole = outcome_of(rt.alloc(), WORDS, &FILES, 16, NO_FAILS)?;
    assert!(rt; has_written(&whole, SHARED, SHARED_REPORT), "{whole:?}");
    for write in 1..=whole.writes {
        write_fails(&rt, rt.alloc(), write)?;
    }
    Ok(())
}

// The making of the file, a write of ten bytes, and a write that fails.
#[test]
fn a_write_that_fails_after_ten_bytes(rt: HostRuntime) -> Result<(), Fail> {
    let failed = outcome_of(rt.alloc(), WORDS, &FILES, 10, Fails { read: 0, write: 3 })?;
    let has_left_ten = has_left(&failed, Status::WriteFault, "set sdc_ve", "");
    assert!(rt; has_left_ten, "{failed:?}");
    Ok(())
}

static ONE_BAD: [(&str, &str); 2] = [("m1.sdc", M1), ("bad", "foo")];

/// Words, and the place of the first file that is refused; `--` and `--tags` with its number are not counted.
static PLACES_OF_REFUSED: [(&str, u32); 7] = [
    ("merge - - - o bad", 5),
    ("merge - - - o m1.sdc bad bad", 6),
    ("merge - - - o m1.sdc m1.sdc bad missing", 7),
    ("merge --tags 5 - - - o m1.sdc bad", 6),
    ("merge - - - o m1.sdc --tags=5 bad", 6),
    ("merge --tags 5 - -- - - o m1.sdc bad", 6),
    ("merge - - - o m1.sdc bad --", 6),
];

#[test]
fn places_of_refused_modes(rt: HostRuntime) -> Result<(), Fail> {
    for (words, place) in PLACES_OF_REFUSED.iter() {
        stops(&rt, rt.alloc(), words, &ONE_BAD, out_of_profile(*place))?;
    }
    Ok(())
}

/// Words, and the place of the first file that is missing, before or after one that is refused.
static PLACES_OF_MISSING: [(&str, u32); 3] = [
    ("merge - - - o missing bad", 5),
    ("merge - - - o m1.sdc missing", 6),
    ("merge --tags 5 -- - - - o m1.sdc missing", 6),
];

#[test]
fn places_of_missing_modes(rt: HostRuntime) -> Result<(), Fail> {
    for (words, place) in PLACES_OF_MISSING.iter() {
        stops(&rt, rt.alloc(), words, &ONE_BAD, Status::ReadFault(*place))?;
    }
    Ok(())
}

// 16,384 clocks are read, as the missing file after them shows; one more is too many.
#[test]
fn clocks_of_all_modes(rt: HostRuntime) -> Result<(), Fail> {
    let most = equal_clocks(rt.alloc(), 16_384)?;
    let files = [
        ("most", most.as_str()),
        ("one", "create_clock -name A -period 10\n"),
    ];
    for (words, status) in [
        ("merge - - - o most one missing", too_many(6)),
        ("merge - - - o one most missing", too_many(6)),
        ("merge - - - o most missing", Status::ReadFault(6)),
    ] {
        stops(&rt, rt.alloc(), words, &files, status)?;
    }
    Ok(())
}
