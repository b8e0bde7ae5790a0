//! Clocks of files.

use super::says;
use std::alloc::Global;
use std::process::Abort;
use std::test::Fail;

/// Sees that one clock of a period and a waveform says this.
fn wave_says(
    rt: &impl Abort,
    alloc: Global,
    period: &str,
    waveform: &str,
    wanted: &str,
) -> Result<(), Fail> {
    let text = format!(in alloc; "create_clock -name a -period {period} -waveform {{{waveform}}}")?;
    says(rt, alloc, text.as_str(), wanted)
}

/// A period, a waveform, and what they say.
static WAVEFORMS: [(&str, &str, &str); 12] = [
    // within one period
    ("10", "0 5", "a 10000000 0 5000000;"),
    ("10", "2 5", "a 10000000 2000000 5000000;"),
    ("10", "0 9.999999", "a 10000000 0 9999999;"),
    ("10", "\t 2 \t 5 ", "a 10000000 2000000 5000000;"),
    // other spellings of the list
    ("10", "0 {5}", "a 10000000 0 5000000;"),
    ("10", "\"2\"\t5\r", "a 10000000 2000000 5000000;"),
    // the fall in the next period
    ("10", "9 18.999999", "a 10000000 9000000 18999999;"),
    // moved down
    ("10", "12 15", "a 10000000 2000000 5000000;"),
    ("10", "10 15", "a 10000000 0 5000000;"),
    ("10", "29 38", "a 10000000 9000000 18000000;"),
    ("10", "999995 1000000", "a 10000000 5000000 10000000;"),
    ("0.000002", "0.000003 0.000004", "a 2 1 2;"),
];

#[test]
fn waveforms_of_clocks(rt: HostRuntime) -> Result<(), Fail> {
    for (period, waveform, wanted) in WAVEFORMS.iter() {
        wave_says(&rt, rt.alloc(), period, waveform, wanted)?;
    }
    Ok(())
}

/// Waveforms that a clock of 10 ns has not.
static NO_WAVEFORMS: [&str; 14] = [
    // the fall not after the rise, or not before the next one
    "0 0",
    "5 5",
    "5 4",
    "0 10",
    "2 12",
    // times out of range
    "-1 5",
    "999999 1000000.000001",
    // no two times
    "",
    "5",
    "0 5 6",
    "0 x",
    "{0 5}",
    // no list
    "\"0 5",
    "{0}5",
];

#[test]
fn waveforms_of_another_form(rt: HostRuntime) -> Result<(), Fail> {
    for waveform in NO_WAVEFORMS.iter() {
        wave_says(&rt, rt.alloc(), "10", waveform, "Sdc(OutOfProfile) 1")?;
    }
    Ok(())
}

/// Texts, and what they say.
static CLOCKS_OF_FILES: [(&str, &str); 10] = [
    ("create_clock -name a -period 10", "a 10000000 0 5000000;"),
    ("create_clock -name a -period 0.000003", "a 3 0 1;"),
    ("create_clock -name a -period 0.000002", "a 2 0 1;"),
    (
        "set sdc_version 2.1\nset_units -time 1ns\ncreate_clock -name a -period 1000000",
        "a 1000000000000 0 500000000000;",
    ),
    (
        "create_clock -name b -period 2\ncreate_clock -name a -period {4}",
        "b 2000000 0 1000000;a 4000000 0 2000000;",
    ),
    // options in another order, and other values of variables
    (
        "create_clock -waveform {2 5} -period 10 -name a",
        "a 10000000 2000000 5000000;",
    ),
    ("set sdc_version 2.0\nset_units -time 1ns; # none", ""),
    // values of variables, scripts and loops
    (
        "set T 2\nforeach n {a b} {\n  create_clock -name $n -period $T\n  set T [expr $T * 2]\n}",
        "a 2000000 0 1000000;b 4000000 0 2000000;",
    ),
    (
        "if {1 < 2} {create_clock -name \"a\" -period [llength {a b}]}",
        "a 2000000 0 1000000;",
    ),
    (
        "create_clock -name a -period 4 -waveform [list 0 [expr 3 / 2.0]]",
        "a 4000000 0 1500000;",
    ),
];

#[test]
fn clocks_of_files(rt: HostRuntime) -> Result<(), Fail> {
    for (text, wanted) in CLOCKS_OF_FILES.iter() {
        says(&rt, rt.alloc(), text, wanted)?;
    }
    Ok(())
}

/// Commands that are not read.
static OTHER_COMMANDS: [&str; 19] = [
    // periods out of range, and no periods
    "create_clock -name a -period 0.000001",
    "create_clock -name a -period 1000000.000001",
    "create_clock -name a -period -1",
    "create_clock -name a -period ten",
    "create_clock -name a -period [list 1 2]",
    // names that are none
    "create_clock -name a.b -period 10",
    "create_clock -name {} -period 10",
    // other options, and options that are not given once
    "create_clock -name a -period 10 x",
    "create_clock -name a -period 10 -add",
    "create_clock -name a -period 10 -name b",
    "create_clock -nam a -period 10",
    "create_clock -name a",
    "create_clock -name a -period",
    "create_clock",
    // other commands
    "set_units -time 1ps",
    "set_units -time ns",
    "set_units",
    "get_clocks a",
    "foo",
];

#[test]
fn commands_of_another_form(rt: HostRuntime) -> Result<(), Fail> {
    for text in OTHER_COMMANDS.iter() {
        says(&rt, rt.alloc(), text, "Sdc(OutOfProfile) 1")?;
    }
    Ok(())
}

#[test]
fn a_name_twice(rt: HostRuntime) -> Result<(), Fail> {
    let text = "create_clock -name a -period 10\ncreate_clock -name a -period 20";
    says(&rt, rt.alloc(), text, "Sdc(OutOfProfile) 2")
}

/// Scripts, and their first fault with its line.
static FAULTS: [(&str, &str); 9] = [
    ("set a {1", "Tcl(Unclosed) 1"),
    ("set a {1}2", "Tcl(ExtraAfterBrace) 1"),
    ("set a $b(1)", "Tcl(BadWord) 1"),
    ("set a $x\nset b {", "Tcl(UnknownVariable) 1"),
    ("set", "Tcl(WrongArgs) 1"),
    ("expr x + 1", "Tcl(BadExpr) 1"),
    ("\nexpr 1 / 0", "Tcl(Number(DivideByZero)) 2"),
    // the first fault in order of execution, with the line of the outermost command
    ("foo\nset a {", "Sdc(OutOfProfile) 1"),
    (
        "set a 1\nforeach n {a b} {\n  foo\n}",
        "Sdc(OutOfProfile) 2",
    ),
];

#[test]
fn first_faults_of_scripts(rt: HostRuntime) -> Result<(), Fail> {
    for (text, wanted) in FAULTS.iter() {
        says(&rt, rt.alloc(), text, wanted)?;
    }
    Ok(())
}
