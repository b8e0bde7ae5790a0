//! What `merge` over the empty design writes.

use crate::answers::has_written;
use crate::runs::{NO_FAILS, Outcome, outcome_of};
use std::alloc::Global;
use std::process::Abort;
use std::test::Fail;

pub const M1: &str = "create_clock -name A -period 10
create_clock -name B -period 15
set_clock_groups -asynchronous -group A -group B
";

pub const M2: &str = "create_clock -name A -period 10
create_clock -name C -period 15
";

pub const SHARED: &str = "set sdc_version 2.1
set_units -time 1ns
create_clock -name A -period 10 -waveform {0 5}
create_clock -name B -period 15 -waveform {0 7.5}
";

pub const SHARED_REPORT: &str =
    r#"{"clocks":[{"modes":[["m1.sdc","A"],["m2.sdc","A"]],"name":"A"},{"modes":[["m1.sdc","B"],["m2.sdc","C"]],"name":"B"}],"listed":[],"not_carried":[]}
"#;

const APART: &str = "set sdc_version 2.1
set_units -time 1ns
create_clock -name A -period 10 -waveform {0 5}
create_clock -name B -period 15 -waveform {0 7.5}
set_clock_groups -asynchronous -group [get_clocks {A}] -group [get_clocks {B}]
";

const APART_REPORT: &str =
    r#"{"clocks":[{"modes":[["m1.sdc","A"],["a.sdc","A"]],"name":"A"},{"modes":[["m1.sdc","B"]],"name":"B"}],"listed":[],"not_carried":[]}
"#;

const AGAIN_REPORT: &str =
    r#"{"clocks":[{"modes":[["apart.sdc","A"]],"name":"A"},{"modes":[["apart.sdc","B"]],"name":"B"}],"listed":[],"not_carried":[]}
"#;

const EMPTY: &str = "set sdc_version 2.1
set_units -time 1ns
";

const EMPTY_REPORT: &str = r#"{"clocks":[],"listed":[],"not_carried":[]}
"#;

const MOVED: &str = "set sdc_version 2.1
set_units -time 1ns
create_clock -name W -period 10 -waveform {2 7}
";

const MOVED_REPORT: &str =
    r#"{"clocks":[{"modes":[["w.sdc","W"],["v.sdc","V"]],"name":"W"}],"listed":[],"not_carried":[]}
"#;

const RENAMED: &str = "set sdc_version 2.1
set_units -time 1ns
create_clock -name A -period 10 -waveform {0 5}
create_clock -name A_1 -period 20 -waveform {0 10}
set_clock_groups -asynchronous -group [get_clocks {A}] -group [get_clocks {A_1}]
";

const RENAMED_REPORT: &str =
    r#"{"clocks":[{"modes":[["a.sdc","A"]],"name":"A"},{"modes":[["slow.sdc","A"]],"name":"A_1"}],"listed":[],"not_carried":[]}
"#;

const RANKED: &str = "set sdc_version 2.1
set_units -time 1ns
create_clock -name B -period 10 -waveform {0 5}
create_clock -name A -period 10 -waveform {0 5}
";

const RANKED_REPORT: &str =
    r#"{"clocks":[{"modes":[["r.sdc","B"]],"name":"B"},{"modes":[["r.sdc","A"],["c.sdc","C"]],"name":"A"}],"listed":[],"not_carried":[]}
"#;

const QUOTED: &str = "set sdc_version 2.1
set_units -time 1ns
create_clock -name A -period 10 -waveform {0 5}
";

const QUOTED_REPORT: &str =
    r#"{"clocks":[{"modes":[["a\"b.sdc","A"]],"name":"A"}],"listed":[],"not_carried":[]}
"#;

static FILES: [(&str, &str); 11] = [
    ("m1.sdc", M1),
    ("m2.sdc", M2),
    ("a.sdc", "create_clock -name A -period 10\n"),
    ("a\"b.sdc", "create_clock -name A -period 10\n"),
    ("slow.sdc", "create_clock -name A -period 20\n"),
    ("c.sdc", "create_clock -name C -period 10\n"),
    (
        "r.sdc",
        "create_clock -name B -period 10\ncreate_clock -name A -period 10\n",
    ),
    (
        "w.sdc",
        "create_clock -name W -period 10 -waveform {12 17}\n",
    ),
    ("v.sdc", "create_clock -name V -period 10 -waveform {2 7}\n"),
    ("e.sdc", ""),
    ("apart.sdc", APART),
];

/// Words, the merged file and the report, worked out by hand. The last row reads a merged file again.
static MERGES: [(&str, &str, &str); 9] = [
    ("merge - - - o.sdc m1.sdc m2.sdc", SHARED, SHARED_REPORT),
    ("merge - - - o.sdc m1.sdc a.sdc", APART, APART_REPORT),
    ("merge - - - o.sdc e.sdc", EMPTY, EMPTY_REPORT),
    ("merge - - - o.sdc e.sdc e.sdc", EMPTY, EMPTY_REPORT),
    ("merge - - - o.sdc w.sdc v.sdc", MOVED, MOVED_REPORT),
    ("merge - - - o.sdc a.sdc slow.sdc", RENAMED, RENAMED_REPORT),
    ("merge - - - o.sdc r.sdc c.sdc", RANKED, RANKED_REPORT),
    ("merge - - - o.sdc a\"b.sdc", QUOTED, QUOTED_REPORT),
    ("merge - - - o.sdc apart.sdc", APART, AGAIN_REPORT),
];

/// Whether a merge into `o.sdc` was done, and left these texts in the merged file and in the report.
fn is_merged(outcome: &Outcome, merged: &str, report: &str) -> bool {
    outcome.name.as_str() == "o.sdc" && has_written(outcome, merged, report)
}

/// Sees that a merge into `o.sdc` is done, and what stands in the merged file and in the report.
fn merges(
    rt: &impl Abort,
    alloc: Global,
    words: &str,
    merged: &str,
    report: &str,
) -> Result<(), Fail> {
    let done = outcome_of(alloc, words, &FILES, 16, NO_FAILS)?;
    assert!(rt; is_merged(&done, merged, report), "{words}: {done:?}");
    Ok(())
}

#[test]
fn merged_files_and_reports(rt: HostRuntime) -> Result<(), Fail> {
    for (words, merged, report) in MERGES.iter() {
        merges(&rt, rt.alloc(), words, merged, report)?;
    }
    Ok(())
}
