//! `edges` over mode files.

use crate::answers::{has_stopped, has_written, is_usage, names, out_of_profile, stops};
use crate::runs::{Fails, NO_FAILS, Outcome, is_proper_front, outcome_of};
use sdc_cli::Status;
use std::alloc::Global;
use std::process::Abort;
use std::test::Fail;

pub const TWO_CLOCKS: &str = "create_clock -name A -period 10\ncreate_clock -name B -period 15\n";

pub const TWO_CLOCKS_REPORT: &str = "a.sdc: A rise -> A rise setup 10 hold 0
a.sdc: A rise -> A fall setup 5 hold -5
a.sdc: A rise -> B rise setup 5 hold 0
a.sdc: A rise -> B fall setup 2.5 hold -2.5
a.sdc: A fall -> A rise setup 5 hold -5
a.sdc: A fall -> A fall setup 10 hold 0
a.sdc: A fall -> B rise setup 5 hold 0
a.sdc: A fall -> B fall setup 2.5 hold -2.5
a.sdc: B rise -> A rise setup 5 hold 0
a.sdc: B rise -> A fall setup 5 hold 0
a.sdc: B rise -> B rise setup 15 hold 0
a.sdc: B rise -> B fall setup 7.5 hold -7.5
a.sdc: B fall -> A rise setup 2.5 hold -2.5
a.sdc: B fall -> A fall setup 2.5 hold -2.5
a.sdc: B fall -> B rise setup 7.5 hold -7.5
a.sdc: B fall -> B fall setup 15 hold 0
";

const THREE_FEMTOSECONDS_REPORT: &str = "a.sdc: A rise -> A rise setup 0.000003 hold 0
a.sdc: A rise -> A fall setup 0.000001 hold -0.000002
a.sdc: A fall -> A rise setup 0.000002 hold -0.000001
a.sdc: A fall -> A fall setup 0.000003 hold 0
";

const EARLY_FALL_REPORT: &str = "a.sdc: A rise -> A rise setup 10 hold 0
a.sdc: A rise -> A fall setup 4 hold -6
a.sdc: A fall -> A rise setup 6 hold -4
a.sdc: A fall -> A fall setup 10 hold 0
";

/// Texts of a file and the report of it, worked out by hand.
static REPORTS: [(&str, &str); 10] = [
    ("", ""),
    (" ;;\n\t\n", ""),
    (TWO_CLOCKS, TWO_CLOCKS_REPORT),
    (
        ";create_clock  -name\tA -period 1E1;create_clock -name B -period +15.",
        TWO_CLOCKS_REPORT,
    ),
    ("# no clock {", ""),
    (
        "# two\ncreate_clock -name \"A\" \\\n  -period 10\r\ncreate_clock -name \\B -period 15\r\n",
        TWO_CLOCKS_REPORT,
    ),
    (
        "create_clock -name A -period 0.000003",
        THREE_FEMTOSECONDS_REPORT,
    ),
    (
        "create_clock -name A -period .0000025",
        THREE_FEMTOSECONDS_REPORT,
    ),
    (
        "create_clock -name A -period 10 -waveform {0 4}",
        EARLY_FALL_REPORT,
    ),
    (
        "create_clock -waveform {0 4} -period 10 -name A",
        EARLY_FALL_REPORT,
    ),
];

/// Sees that a file of this text has this report.
fn has_report(rt: &impl Abort, alloc: Global, text: &str, report: &str) -> Result<(), Fail> {
    let done = outcome_of(alloc, "edges a.sdc", &[("a.sdc", text)], 16, NO_FAILS)?;
    assert!(rt; has_written(&done, "", report), "{text:?}: {done:?}");
    Ok(())
}

#[test]
fn reports_of_clock_files(rt: HostRuntime) -> Result<(), Fail> {
    for (text, report) in REPORTS.iter() {
        has_report(&rt, rt.alloc(), text, report)?;
    }
    Ok(())
}

// Only the pair of rising edges of the clocks of 4 and 6 ns.
#[test]
fn a_relation_by_the_common_divisor(rt: HostRuntime) -> Result<(), Fail> {
    let text = "create_clock -name A -period 4\ncreate_clock -name B -period 6\n";
    let done = outcome_of(rt.alloc(), "edges a.sdc", &[("a.sdc", text)], 16, NO_FAILS)?;
    assert!(rt;
        done.report
            .contains("a.sdc: A rise -> B rise setup 2 hold 0\n")
    );
    Ok(())
}

/// Texts that are out of profile.
static NOT_READ: [&str; 14] = [
    "create_clock -name A",
    "create_clock -nam A -period 10",
    "create_clock -name A -period 10 -waveform {4}",
    "create_clock -name A -period 10 -waveform {4 4}",
    "create_clock -name A -period 10 -waveform {5 15}",
    "create_clock -name A -period 10 -waveform {-1 4}",
    "create_clock -name A -period 10 -waveform {0 4 5 6}",
    "create_clock -name A -period 0.000001",
    "create_clock -name A -period 1000000.000001",
    "create_clock -name A -period ten",
    "create_clock -name A.B -period 10",
    "create_clock -name A -period 10\ncreate_clock -name A -period 20",
    "create_clock -name A -period 10 -add",
    "foo",
];

/// Sees that a file of this text is out of profile, and that nothing is written.
fn is_not_read(rt: &impl Abort, alloc: Global, text: &str) -> Result<(), Fail> {
    let refused = outcome_of(alloc, "edges a.sdc", &[("a.sdc", text)], 16, NO_FAILS)?;
    assert!(rt;
        has_stopped(&refused, out_of_profile(1)),
        "{text:?}: {refused:?}"
    );
    Ok(())
}

#[test]
fn what_is_not_read(rt: HostRuntime) -> Result<(), Fail> {
    for text in NOT_READ.iter() {
        is_not_read(&rt, rt.alloc(), text)?;
    }
    Ok(())
}

/// Words that are no command line.
static NO_COMMAND_LINES: [&str; 7] = [
    "",
    "edges",
    "edge a.sdc",
    "-- edges a.sdc",
    "edges -x",
    "edges --tags 5 a.sdc",
    "edges --",
];

#[test]
fn wrong_command_lines(rt: HostRuntime) -> Result<(), Fail> {
    for words in NO_COMMAND_LINES.iter() {
        is_usage(&rt, rt.alloc(), words, &[("a.sdc", TWO_CLOCKS)])?;
    }
    Ok(())
}

/// Words after `--` and those that look like options and are none, with the file that they name.
static NAMES: [(&str, &str); 5] = [
    ("edges -- -x", "-x"),
    ("edges -", "-"),
    ("edges -- --", "--"),
    ("edges ", ""),
    ("edges a.sdc --", "a.sdc"),
];

#[test]
fn names_of_files(rt: HostRuntime) -> Result<(), Fail> {
    for (words, name) in NAMES.iter() {
        names(&rt, rt.alloc(), words, &[(name, "")], "")?;
    }
    Ok(())
}

const ONE_FILE: [(&str, &str); 1] = [("a.sdc", TWO_CLOCKS)];

/// Sees that nothing is written where this call of the inputs fails.
fn read_fails(rt: &impl Abort, alloc: Global, read: u64) -> Result<(), Fail> {
    let fails = Fails { read, write: 0 };
    let failed = outcome_of(alloc, "edges a.sdc", &ONE_FILE, 16, fails)?;
    assert!(rt;
        has_stopped(&failed, Status::ReadFault(1)),
        "call {read}: {failed:?}"
    );
    Ok(())
}

/// Whether a write failed, and a front of the report stands.
fn has_left_a_front(outcome: &Outcome) -> bool {
    outcome.status == Status::WriteFault
        && is_proper_front(outcome.report.as_str(), TWO_CLOCKS_REPORT)
}

/// Sees that a front of the report stands where this call of the outputs fails.
fn write_fails(rt: &impl Abort, alloc: Global, write: u64) -> Result<(), Fail> {
    let fails = Fails { read: 0, write };
    let failed = outcome_of(alloc, "edges a.sdc", &ONE_FILE, 16, fails)?;
    assert!(rt; has_left_a_front(&failed), "call {write}: {failed:?}");
    Ok(())
}

// Each call of the inputs fails in turn, each of the outputs, and a file is missing.
#[test]
fn failing_reads_and_writes(rt: HostRuntime) -> Result<(), Fail> {
    let whole = outcome_of(rt.alloc(), "edges a.sdc", &ONE_FILE, 16, NO_FAILS)?;
    for read in 1..=whole.reads {
        read_fails(&rt, rt.alloc(), read)?;
    }
    for write in 1..=whole.writes {
        write_fails(&rt, rt.alloc(), write)?;
    }
    stops(
        &rt,
        rt.alloc(),
        "edges b.sdc",
        &ONE_FILE,
        Status::ReadFault(1),
    )
}
