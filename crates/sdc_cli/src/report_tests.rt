//! Tests of reports as texts.

use crate::report_tree::report_bytes;
use crate::reports::{ClockRow, LeftRow, ListedRow, MergeReport, ModeClock, Report};
use sdc_base::{List, NoMemory, Text};
use std::alloc::Global;
use std::process::Abort;
use std::test::Fail;

/// Two modes that share two clocks.
const SHARED_REPORT: &str =
    r#"{"clocks":[{"modes":[["m1.sdc","A"],["m2.sdc","A"]],"name":"A"},{"modes":[["m1.sdc","B"],["m2.sdc","C"]],"name":"B"}],"listed":[],"not_carried":[]}
"#;

/// Two modes that share one clock.
const HALF_SHARED_REPORT: &str =
    r#"{"clocks":[{"modes":[["m1.sdc","A"],["m2.sdc","A"]],"name":"A"},{"modes":[["m1.sdc","B"]],"name":"B"}],"listed":[],"not_carried":[]}
"#;

/// An empty mode.
const EMPTY_REPORT: &str = r#"{"clocks":[],"listed":[],"not_carried":[]}
"#;

/// A file with a name of a quote, a backslash, two control characters and a letter beyond ASCII.
const ODD_NAME_REPORT: &str =
    r#"{"clocks":[{"modes":[["a\"\\\u0001\né/.sdc","A"]],"name":"A"}],"listed":[],"not_carried":[]}
"#;

/// Two relations that are listed, the first with no required limit, and a command that is left out.
const ROWS_REPORT: &str =
    r#"{"clocks":[],"listed":[{"capture":"d fall","end":"r2/D","launch":"c rise","merged":10000000,"path":["r1/CK rise","r2/D fall"],"required":null,"side":"setup"},{"capture":"d fall","end":"r2/D","launch":"c rise","merged":-500000,"path":["r1/CK rise","r2/D fall"],"required":0,"side":"hold"}],"not_carried":[{"command":"set_false_path","file":"m1.sdc","line":2}]}
"#;

/// A clock of a merged mode, by the file and the name of each clock that it stands for.
fn clock(alloc: Global, name: &str, modes: &[(&str, &str)]) -> Result<ClockRow, NoMemory> {
    let mut clocks = List::new(alloc);
    for (file, name) in modes {
        clocks.push(ModeClock {
            file: Text::from_str(alloc, file)?,
            name: Text::from_str(alloc, name)?,
        })?;
    }
    Ok(ClockRow {
        name: Text::from_str(alloc, name)?,
        modes: clocks,
    })
}

/// The report of a merge that lists and leaves out nothing.
fn report_of_clocks(alloc: Global, clocks: List<ClockRow>) -> Report {
    Report::Merge(MergeReport {
        clocks,
        listed: List::new(alloc),
        not_carried: List::new(alloc),
    })
}

/// The report of a merge with one clock A.
fn report_of_one(alloc: Global, a: &[(&str, &str)]) -> Result<Report, NoMemory> {
    let mut clocks = List::new(alloc);
    clocks.push(clock(alloc, "A", a)?)?;
    Ok(report_of_clocks(alloc, clocks))
}

/// The report of a merge with two clocks A and B.
fn report_of_two(
    alloc: Global,
    a: &[(&str, &str)],
    b: &[(&str, &str)],
) -> Result<Report, NoMemory> {
    let mut clocks = List::new(alloc);
    clocks.push(clock(alloc, "A", a)?)?;
    clocks.push(clock(alloc, "B", b)?)?;
    Ok(report_of_clocks(alloc, clocks))
}

/// A relation of r2/D that is listed with a path of two nodes.
fn listed(
    alloc: Global,
    side: &str,
    merged: i64,
    required: Option<i64>,
) -> Result<ListedRow, NoMemory> {
    let mut path = List::new(alloc);
    path.push(Text::from_str(alloc, "r1/CK rise")?)?;
    path.push(Text::from_str(alloc, "r2/D fall")?)?;
    Ok(ListedRow {
        end: Text::from_str(alloc, "r2/D")?,
        launch: Text::from_str(alloc, "c rise")?,
        capture: Text::from_str(alloc, "d fall")?,
        side: Text::from_str(alloc, side)?,
        path,
        merged,
        required,
    })
}

/// The report of a merge that lists two relations and leaves out one command.
fn report_of_rows(alloc: Global) -> Result<Report, NoMemory> {
    let mut rows = List::new(alloc);
    rows.push(listed(alloc, "setup", 10_000_000, None)?)?;
    rows.push(listed(alloc, "hold", -500_000, Some(0))?)?;
    let mut left = List::new(alloc);
    left.push(LeftRow {
        file: Text::from_str(alloc, "m1.sdc")?,
        line: 2,
        command: Text::from_str(alloc, "set_false_path")?,
    })?;
    Ok(Report::Merge(MergeReport {
        clocks: List::new(alloc),
        listed: rows,
        not_carried: left,
    }))
}

/// Sees that a report is written as this text.
fn is_written(rt: &impl Abort, alloc: Global, report: &Report, text: &str) -> Result<(), Fail> {
    let bytes = report_bytes(alloc, report)?;
    assert_eq!(rt; bytes.as_slice(), text.as_bytes(), "{text:?}");
    Ok(())
}

/// The clock A of two modes.
static BOTH: [(&str, &str); 2] = [("m1.sdc", "A"), ("m2.sdc", "A")];

// Merges of two modes that share two clocks and one, of an empty mode, and of a file with an odd name.
#[test]
fn reports_of_clocks(rt: HostRuntime) -> Result<(), Fail> {
    let alloc = rt.alloc();
    let shared = report_of_two(alloc, &BOTH, &[("m1.sdc", "B"), ("m2.sdc", "C")])?;
    let half_shared = report_of_two(alloc, &BOTH, &[("m1.sdc", "B")])?;
    let empty = report_of_clocks(alloc, List::new(alloc));
    let oddly_named = report_of_one(alloc, &[("a\"\\\u{1}\n\u{e9}/.sdc", "A")])?;
    is_written(&rt, alloc, &shared, SHARED_REPORT)?;
    is_written(&rt, alloc, &half_shared, HALF_SHARED_REPORT)?;
    is_written(&rt, alloc, &empty, EMPTY_REPORT)?;
    is_written(&rt, alloc, &oddly_named, ODD_NAME_REPORT)
}

// A limit that is required and none, a negative time, and a command that is left out.
#[test]
fn report_of_listed_relations(rt: HostRuntime) -> Result<(), Fail> {
    let report = report_of_rows(rt.alloc())?;
    is_written(&rt, rt.alloc(), &report, ROWS_REPORT)
}
