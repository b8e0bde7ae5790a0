//! `edges` over several files, with waveforms and clock groups.

use crate::answers::{has_written, is_usage, out_of_profile, stops, too_many, writes};
use crate::edges::{TWO_CLOCKS, TWO_CLOCKS_REPORT};
use crate::runs::{NO_FAILS, equal_clocks, outcome_of};
use sdc_cli::Status;
use std::alloc::Global;
use std::process::Abort;
use std::test::Fail;

const ONE_CLOCK: &str = "create_clock -name A -period 10\n";

const MOVED_CLOCK: &str =
    "create_clock -name A -period 10\ncreate_clock -name W -period 10 -waveform {12 17}\n";

const TWO_FILES_REPORT: &str = "a.sdc: A rise -> A rise setup 10 hold 0
a.sdc: A rise -> A fall setup 5 hold -5
a.sdc: A fall -> A rise setup 5 hold -5
a.sdc: A fall -> A fall setup 10 hold 0
w.sdc: A rise -> A rise setup 10 hold 0
w.sdc: A rise -> A fall setup 5 hold -5
w.sdc: A rise -> W rise setup 2 hold -8
w.sdc: A rise -> W fall setup 7 hold -3
w.sdc: A fall -> A rise setup 5 hold -5
w.sdc: A fall -> A fall setup 10 hold 0
w.sdc: A fall -> W rise setup 7 hold -3
w.sdc: A fall -> W fall setup 2 hold -8
w.sdc: W rise -> A rise setup 8 hold -2
w.sdc: W rise -> A fall setup 3 hold -7
w.sdc: W rise -> W rise setup 10 hold 0
w.sdc: W rise -> W fall setup 5 hold -5
w.sdc: W fall -> A rise setup 3 hold -7
w.sdc: W fall -> A fall setup 8 hold -2
w.sdc: W fall -> W rise setup 5 hold -5
w.sdc: W fall -> W fall setup 10 hold 0
";

static THREE_FILES: [(&str, &str); 3] = [
    ("a.sdc", ONE_CLOCK),
    ("e.sdc", ""),
    ("w.sdc", MOVED_CLOCK),
];

// Two files, the second with a waveform past one period; an empty file among them leaves no line.
#[test]
fn reports_of_two_files(rt: HostRuntime) -> Result<(), Fail> {
    for words in ["edges a.sdc w.sdc", "edges e.sdc a.sdc e.sdc w.sdc"] {
        writes(&rt, rt.alloc(), words, &THREE_FILES, "", TWO_FILES_REPORT)?;
    }
    Ok(())
}

/// Clock groups in each form, and the lines before them that a printed file has.
static GROUPS: [&str; 4] = [
    "set_clock_groups -asynchronous -group A -group B\n",
    "set_clock_groups -asynchronous -group {A} -group { B A }\n",
    "set_clock_groups -asynchronous -group [get_clocks {A}] -group [get_clocks {A B}]\n",
    "set sdc_version 2.1\nset_units -time 1ns\n",
];

/// Sees that the report of two clocks is the same with these lines after them.
fn plays_no_part(rt: &impl Abort, alloc: Global, lines: &str) -> Result<(), Fail> {
    let text = format!(in alloc; "{TWO_CLOCKS}{lines}")?;
    let files = [("a.sdc", text.as_str())];
    let done = outcome_of(alloc, "edges a.sdc", &files, 64, NO_FAILS)?;
    assert!(rt;
        has_written(&done, "", TWO_CLOCKS_REPORT),
        "{lines}: {done:?}"
    );
    Ok(())
}

#[test]
fn groups_play_no_part(rt: HostRuntime) -> Result<(), Fail> {
    for lines in GROUPS.iter() {
        plays_no_part(&rt, rt.alloc(), lines)?;
    }
    Ok(())
}

/// Files of clocks A and B, in which a group may come too early.
static EARLY_GROUPS: [(&str, &str); 3] = [
    ("b.sdc", "create_clock -name B -period 10\n"),
    (
        "between.sdc",
        "create_clock -name A -period 10
set_clock_groups -asynchronous -group A -group B
create_clock -name B -period 10
",
    ),
    (
        "without.sdc",
        "create_clock -name A -period 10
set_clock_groups -asynchronous -group A -group B
",
    ),
];

// A name in a group that is a clock's only further down, or only in another file.
#[test]
fn groups_of_later_clocks(rt: HostRuntime) -> Result<(), Fail> {
    for (words, place) in [
        ("edges between.sdc", 1),
        ("edges b.sdc without.sdc", 2),
        ("edges b.sdc b.sdc between.sdc without.sdc", 3),
    ] {
        stops(&rt, rt.alloc(), words, &EARLY_GROUPS, out_of_profile(place))?;
    }
    Ok(())
}

// 16 files are read, 17 are no command line.
#[test]
fn sixteen_files(rt: HostRuntime) -> Result<(), Fail> {
    let files = [("f", ONE_CLOCK)];
    let one = "f: A rise -> A rise setup 10 hold 0
f: A rise -> A fall setup 5 hold -5
f: A fall -> A rise setup 5 hold -5
f: A fall -> A fall setup 10 hold 0
";
    let all = one.repeat(rt.alloc(), 16)?;
    let sixteen = "edges f f f f f f f f f f f f f f f f";
    let seventeen = "edges f f f f f f f f f f f f f f f f f";
    writes(&rt, rt.alloc(), sixteen, &files, "", all.as_str())?;
    is_usage(&rt, rt.alloc(), seventeen, &files)
}

// 1,024 clocks in three files are read, as the missing fourth file shows; 1,025 are too many.
#[test]
fn clocks_of_three_files(rt: HostRuntime) -> Result<(), Fail> {
    let half = equal_clocks(rt.alloc(), 512)?;
    let less = equal_clocks(rt.alloc(), 511)?;
    let files = [
        ("half", half.as_str()),
        ("less", less.as_str()),
        ("one", ONE_CLOCK),
        ("bad", "foo"),
    ];
    for (words, status) in [
        ("edges half half one missing", too_many(3)),
        ("edges one half half bad", too_many(3)),
        ("edges half half bad", out_of_profile(3)),
        ("edges half less one one", too_many(4)),
        ("edges half less one missing", Status::ReadFault(4)),
    ] {
        stops(&rt, rt.alloc(), words, &files, status)?;
    }
    Ok(())
}
