//! `merge` where the merged text would have more bytes than a file may have.

use crate::answers::has_stopped;
use crate::fault_lines::has_said;
use crate::runs::{NO_FAILS, outcome_of};
use sdc_base::NoMemory;
use sdc_cli::Status;
use std::alloc::Global;
use std::test::Fail;

/// A file of 256 clocks of a period, with names of 4,096 bytes that begin with a letter.
fn clocks_of_long_names(alloc: Global, letter: &str, period: u32) -> Result<String, NoMemory> {
    let front = letter.repeat(alloc, 4_093)?;
    let mut text = String::new(alloc);
    for at in 100..356 {
        let line = format!(in alloc; "create_clock -name {front}{at} -period {period}\n")?;
        text.push_str(line.as_str())?;
    }
    Ok(text)
}

// No two clocks are one, and no mode has a clock of each file, so each clock of the first file is exclusive with all
// of the second. That makes 40 bytes of the header, 256 clock lines of 4,143 bytes and 256 of 4,144, and 256 group
// lines of 1,053,004 bytes, each with 257 names.
#[test]
fn a_merged_text_that_is_too_large(rt: HostRuntime) -> Result<(), Fail> {
    let alloc = rt.alloc();
    let fast = clocks_of_long_names(alloc, "f", 10)?;
    let slow = clocks_of_long_names(alloc, "s", 20)?;
    let files = [("fast", fast.as_str()), ("slow", slow.as_str())];
    let refused = outcome_of(alloc, "merge - - - o fast slow", &files, 65_536, NO_FAILS)?;
    assert!(rt;
        has_stopped(&refused, Status::TooLarge(271_690_536)),
        "{refused:?}"
    );
    assert!(rt;
        has_said(&refused, "merged file would have 271690536 bytes\n"),
        "{refused:?}"
    );
    Ok(())
}
