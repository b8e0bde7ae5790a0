//! Printed files as a person wrote them down.

ghost use Rattle.mode_model.specs.PrintedFile.{IsPrintable};

use crate::printable_modes::{Case, Row, pairs_of, printable};
use sdc_base::{List, NoMemory};
use sdc_print::{length_with_group, print, printed_length};
use std::alloc::Global;
use std::process::Abort;
use std::test::Fail;
use timing_types::Pair;

const NANOSECOND: i64 = 1_000_000;

/// Whether a mode is printed as this text, and the length of it is counted.
fn is_printed_as(alloc: Global, case: &Case, want: &str) -> Result<bool, NoMemory>
    requires { IsPrintable case.now.design case.now.mode }
{
    let text = print(alloc, &case.design, &case.mode)?;
    let length = printed_length(&case.design, &case.mode)?;
    Ok(text.as_slice() == want.as_bytes() && length == want.len() as u64)
}

/// Sees that a mode is printed as this text.
fn check(
    rt: &impl Abort,
    alloc: Global,
    unit: i64,
    rows: &[Row],
    pairs: &[(u32, u32)],
    want: &str,
) -> Result<(), Fail> {
    let is_printed = match printable(alloc, unit, rows, pairs)? {
        Some(case) => is_printed_as(alloc, &case, want)?,
        None => false,
    };
    assert!(rt; is_printed, "{want}");
    Ok(())
}

const NO_CLOCKS_TEXT: &str = "set sdc_version 2.1\nset_units -time 1ns\n";

static ONE_CLOCK: [Row; 1] = [("clk", 10_000_000, 0, 5_000_000)];

const ONE_CLOCK_TEXT: &str = "set sdc_version 2.1
set_units -time 1ns
create_clock -name clk -period 10 -waveform {0 5}
";

static FEMTOSECONDS: [Row; 3] = [
    ("a", 2_500_001, 1, 1_250_000),
    ("b_2", 7_500_000, 7_400_000, 14_800_000),
    ("C", 3, 2, 4),
];

const FEMTOSECONDS_TEXT: &str = "set sdc_version 2.1
set_units -time 1ns
create_clock -name a -period 2.500001 -waveform {0.000001 1.25}
create_clock -name b_2 -period 7.5 -waveform {7.4 14.8}
create_clock -name C -period 0.000003 -waveform {0.000002 0.000004}
";

static FOUR_CLOCKS: [Row; 4] = [
    ("A", 10_000_000, 0, 5_000_000),
    ("B", 15_000_000, 0, 7_500_000),
    ("C", 20_000_000, 0, 10_000_000),
    ("D", 100_000_000, 50_000_000, 100_000_000),
];

const GROUPS_TEXT: &str = "set sdc_version 2.1
set_units -time 1ns
create_clock -name A -period 10 -waveform {0 5}
create_clock -name B -period 15 -waveform {0 7.5}
create_clock -name C -period 20 -waveform {0 10}
create_clock -name D -period 100 -waveform {50 100}
set_clock_groups -asynchronous -group [get_clocks {A}] -group [get_clocks {C D}]
set_clock_groups -asynchronous -group [get_clocks {B}] -group [get_clocks {D}]
";

#[test]
fn modes_of_clocks_and_groups(rt: HostRuntime) -> Result<(), Fail> {
    let alloc = rt.alloc();
    check(&rt, alloc, NANOSECOND, &[], &[], NO_CLOCKS_TEXT)?;
    check(&rt, alloc, NANOSECOND, &ONE_CLOCK, &[], ONE_CLOCK_TEXT)?;
    check(
        &rt,
        alloc,
        NANOSECOND,
        &FEMTOSECONDS,
        &[],
        FEMTOSECONDS_TEXT,
    )?;
    check(
        &rt,
        alloc,
        NANOSECOND,
        &FOUR_CLOCKS,
        &[(0, 2), (0, 3), (1, 3)],
        GROUPS_TEXT,
    )
}

static THREE_CLOCKS: [Row; 3] = [
    ("A", 10_000_000, 0, 5_000_000),
    ("long_name", 15_000_000, 0, 7_500_000),
    ("C", 20_000_000, 0, 10_000_000),
];

/// The length of seven bytes and of the line of the first clock with these pairs.
fn length_after_seven(case: &Case, pairs: &List<Pair>) -> Result<Option<u64>, NoMemory> {
    match case.mode.clocks.get(0) {
        Some(clock) => Ok(Some(length_with_group(7, clock, &case.mode.clocks, pairs)?)),
        None => Ok(None),
    }
}

/// Sees that the line of the first of three clocks with these pairs is as long as this one.
fn check_group(
    rt: &impl Abort,
    alloc: Global,
    pairs: &[(u32, u32)],
    line: &str,
) -> Result<(), Fail> {
    let pairs = pairs_of(alloc, pairs)?;
    let length = match printable(alloc, NANOSECOND, &THREE_CLOCKS, &[])? {
        Some(case) => length_after_seven(&case, &pairs)?,
        None => None,
    };
    assert_eq!(rt; length, Some(7 + line.len() as u64), "{line}");
    Ok(())
}

const SHORT_LINE: &str =
    "set_clock_groups -asynchronous -group [get_clocks {A}] -group [get_clocks {C}]\n";

const LONG_LINE: &str =
    "set_clock_groups -asynchronous -group [get_clocks {A}] -group [get_clocks {long_name C}]\n";

#[test]
fn lengths_of_groups(rt: HostRuntime) -> Result<(), Fail> {
    check_group(&rt, rt.alloc(), &[], "")?;
    check_group(&rt, rt.alloc(), &[(0, 2)], SHORT_LINE)?;
    check_group(&rt, rt.alloc(), &[(0, 1), (0, 2)], LONG_LINE)
}

static ODD_CLOCK: [Row; 1] = [("c", 2_500_001, 100, 1_250_000)];

/// Units in femtoseconds, and the file of a clock in them.
static UNITS: [(i64, &str); 3] = [
    (
        1_000,
        "set sdc_version 2.1
set_units -time 1ps
create_clock -name c -period 2500.001 -waveform {0.1 1250}
",
    ),
    (
        10_000,
        "set sdc_version 2.1
set_units -time 10ps
create_clock -name c -period 250.0001 -waveform {0.01 125}
",
    ),
    (
        100_000,
        "set sdc_version 2.1
set_units -time 100ps
create_clock -name c -period 25.00001 -waveform {0.001 12.5}
",
    ),
];

#[test]
fn units(rt: HostRuntime) -> Result<(), Fail> {
    for (unit, want) in UNITS.iter() {
        check(&rt, rt.alloc(), *unit, &ODD_CLOCK, &[], want)?;
    }
    Ok(())
}
