//! The line that a run writes where its work is not done, as a person sees it, with the exit number.

use crate::answers::has_no_output;
use crate::runs::{Fails, NO_FAILS, Outcome, equal_clocks, outcome_of};
use sdc_cli::exit_number;
use std::alloc::Global;
use std::process::Abort;
use std::test::Fail;

/// Whether a run ended with this exit number and line, and no output.
fn has_ended(outcome: &Outcome, exit: u8, line: &str) -> bool {
    exit_number(&outcome.status) == exit && has_said(outcome, line) && has_no_output(outcome)
}

/// Whether a run wrote this line, or nothing where it is empty.
pub fn has_said(outcome: &Outcome, line: &str) -> bool {
    outcome.refusals.as_str() == line
}

/// Sees how a run of these words over these files ends, whose calls of the outputs take 16 bytes each.
pub fn ends(
    rt: &impl Abort,
    alloc: Global,
    words: &str,
    files: &[(&str, &str)],
    fails: Fails,
    exit: u8,
    line: &str,
) -> Result<(), Fail> {
    let ended = outcome_of(alloc, words, files, 16, fails)?;
    assert!(rt; has_ended(&ended, exit, line), "{words:?}: {ended:?}");
    Ok(())
}

static FILES: [(&str, &str); 4] = [
    ("a.sdc", "create_clock -name A -period 10\n"),
    ("bad", "foo"),
    (
        "open",
        "\n# two\\\nlines\n\\\n create_clock -name A -period 1\n {",
    ),
    (
        "twice",
        "create_clock -name A \\\n-period 1;\ncreate_clock -name A -period 1",
    ),
];

/// Words, the exit number, and the line.
static LINES: [(&str, u8, &str); 12] = [
    ("", 2, "wrong command line\n"),
    ("edges -x", 2, "wrong command line\n"),
    ("merge - - - o", 2, "wrong command line\n"),
    ("edges bad", 3, "bad:1: OutOfProfile\n"),
    ("edges a.sdc open bad", 3, "open:6: Unclosed\n"),
    ("edges a.sdc a.sdc twice", 3, "twice:3: OutOfProfile\n"),
    ("merge - - - bad a.sdc twice", 3, "twice:3: OutOfProfile\n"),
    ("merge --tags 5 - - - o -- bad", 3, "bad:1: OutOfProfile\n"),
    (
        "merge - - - o a.sdc --tags=5 bad",
        3,
        "bad:1: OutOfProfile\n",
    ),
    ("edges a.sdc nowhere bad", 7, "cannot read nowhere\n"),
    ("edges ", 7, "cannot read \n"),
    ("merge - - - o nowhere", 7, "cannot read nowhere\n"),
];

#[test]
fn lines_of_faults(rt: HostRuntime) -> Result<(), Fail> {
    for (words, exit, line) in LINES.iter() {
        ends(&rt, rt.alloc(), words, &FILES, NO_FAILS, *exit, line)?;
    }
    Ok(())
}

// The first clock beyond the most that `edges` takes.
#[test]
fn the_line_of_one_clock_too_many(rt: HostRuntime) -> Result<(), Fail> {
    let text = equal_clocks(rt.alloc(), 1_025)?;
    let files = [("many", text.as_str())];
    ends(
        &rt,
        rt.alloc(),
        "edges many",
        &files,
        NO_FAILS,
        3,
        "many:1025: TooMany\n",
    )
}

/// The call of the outputs that fails, and what is left of the line, 16 bytes a call: its failing changes no exit
/// number.
static CUT_LINES: [(u64, &str); 3] = [
    (1, ""),
    (2, "bad:1: OutOfProf"),
    (3, "bad:1: OutOfProfile\n"),
];

#[test]
fn lines_that_cannot_be_written(rt: HostRuntime) -> Result<(), Fail> {
    for (write, line) in CUT_LINES.iter() {
        let fails = Fails {
            read: 0,
            write: *write,
        };
        ends(&rt, rt.alloc(), "edges bad", &FILES, fails, 3, line)?;
    }
    Ok(())
}
