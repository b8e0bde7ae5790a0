//! Types and senses of timing as they stand in libraries, with the arcs and checks that a reader of the rules counts by
//! hand.

use crate::cells::means;
use sdc_base::NoMemory;
use std::alloc::Global;
use std::process::Abort;
use std::test::Fail;

/// What a `timing` group of an output says, and what the cell has by it: its pin 0 is an input, its pin 1 the output.
static TIMINGS: [(&str, &str); 38] = [
    // types
    ("", " 0>1 rr rf fr ff"),
    ("timing_type : combinational;", " 0>1 rr rf fr ff"),
    ("timing_type : three_state_enable;", " 0>1 rr rf fr ff"),
    ("timing_type : three_state_disable;", " 0>1 rr rf fr ff"),
    ("timing_type : combinational_rise;", " 0>1 rr fr"),
    ("timing_type : combinational_fall;", " 0>1 rf ff"),
    ("timing_type : rising_edge;", " 0>1 launch rr rf"),
    ("timing_type : falling_edge;", " 0>1 launch fr ff"),
    ("timing_type : setup_rising;", " Setup 1 at 0 Rise"),
    ("timing_type : setup_falling;", " Setup 1 at 0 Fall"),
    ("timing_type : recovery_rising;", " Setup 1 at 0 Rise"),
    ("timing_type : recovery_falling;", " Setup 1 at 0 Fall"),
    ("timing_type : hold_rising;", " Hold 1 at 0 Rise"),
    ("timing_type : hold_falling;", " Hold 1 at 0 Fall"),
    ("timing_type : removal_rising;", " Hold 1 at 0 Rise"),
    ("timing_type : removal_falling;", " Hold 1 at 0 Fall"),
    ("timing_type : min_pulse_width;", ""),
    ("timing_type : clear;", ""),
    ("timing_type : preset;", ""),
    ("timing_type : skew_rising;", ""),
    ("timing_type : \" combinational\";", ""),
    // senses
    ("timing_sense : positive_unate;", " 0>1 rr ff"),
    ("timing_sense : negative_unate;", " 0>1 rf fr"),
    ("timing_sense : non_unate;", " 0>1 rr rf fr ff"),
    ("timing_sense : other;", " 0>1 rr rf fr ff"),
    (
        "timing_sense : positive_unate; timing_type : combinational_rise;",
        " 0>1 rr",
    ),
    (
        "timing_sense : negative_unate; timing_type : combinational_rise;",
        " 0>1 fr",
    ),
    (
        "timing_sense : positive_unate; timing_type : combinational_fall;",
        " 0>1 ff",
    ),
    (
        "timing_sense : negative_unate; timing_type : combinational_fall;",
        " 0>1 rf",
    ),
    (
        "timing_sense : negative_unate; timing_type : rising_edge;",
        " 0>1 launch rr rf",
    ),
    (
        "timing_sense : non_unate; timing_type : combinational_fall;",
        " 0>1 rf ff",
    ),
    (
        "timing_sense : positive_unate; timing_type : falling_edge;",
        " 0>1 launch fr ff",
    ),
    (
        "timing_sense : positive_unate; timing_type : hold_rising;",
        " Hold 1 at 0 Rise",
    ),
    // the last one counts, in its simple form, directly in its group
    (
        "timing_type : setup_rising; timing_type : hold_falling;",
        " Hold 1 at 0 Fall",
    ),
    ("timing_type (setup_rising);", " 0>1 rr rf fr ff"),
    (
        "timing_sense : positive_unate; timing_sense : negative_unate;",
        " 0>1 rf fr",
    ),
    ("timing_sense (positive_unate);", " 0>1 rr rf fr ff"),
    ("x () { timing_type : setup_rising; }", " 0>1 rr rf fr ff"),
];

/// Sees what a cell has by a `timing` group.
fn times(rt: &impl Abort, alloc: Global, said: &str, wanted: &str) -> Result<(), NoMemory> {
    let text = format!(in alloc;
        "library (a) {{ cell (X) {{ pin (A) {{ direction : input; }} pin (Z) {{ direction : output; timing () {{ related_pin : A; {said} }} }} }} }}"
    )?;
    let wanted = format!(in alloc; "1000000 [X] A:Input Z:Output{wanted}")?;
    means(rt, alloc, text.as_str(), wanted.as_str())
}

#[test]
fn types_and_senses_of_timing(rt: HostRuntime) -> Result<(), Fail> {
    for (said, wanted) in TIMINGS.iter() {
        times(&rt, rt.alloc(), said, wanted)?;
    }
    Ok(())
}
