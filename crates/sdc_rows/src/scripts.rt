//! Mode files that are scripts (Tcl): what they say, and the line of each fault as a person sees it.

use crate::answers::writes;
use crate::edges::TWO_CLOCKS_REPORT;
use crate::fault_lines::ends;
use crate::runs::NO_FAILS;
use sdc_base::NoMemory;
use std::alloc::Global;
use std::process::Abort;
use std::test::Fail;

/// Scripts that make the clocks A of 10 ns and B of 15 ns.
static SCRIPTS: [&str; 5] = [
    "set period 10
foreach clock {A B} {
  create_clock -name $clock -period $period
  set period [expr $period + 5]
}",
    "foreach {clock} [list B A] { set last $clock }
create_clock -period 10 -name $last; create_clock -name B -period [expr 30 / 2]",
    "if {[llength {a b}] == 2} {create_clock -name A -period 10} else {create_clock -name C -period 1}
create_clock -name [lindex {A B} 1] -period 1.5e1",
    "create_clock -name A -period 10
create_clock -name B -period 15
if 1 {set_clock_groups -asynchronous -group [get_clocks {A B}]}",
    "set make create_clock
set p \"-period\"
$make -name A $p 10
$make -name B $p 15",
];

#[test]
fn clocks_made_by_scripts(rt: HostRuntime) -> Result<(), Fail> {
    for script in SCRIPTS.iter() {
        let files = [("a.sdc", *script)];
        writes(
            &rt,
            rt.alloc(),
            "edges a.sdc",
            &files,
            "",
            TWO_CLOCKS_REPORT,
        )?;
    }
    Ok(())
}

/// Scripts, and the line of their first fault.
static FAULTS: [(&str, &str); 13] = [
    ("\nset a {1", "f:2: Unclosed\n"),
    ("set a {1}2", "f:1: ExtraAfterBrace\n"),
    ("set a 1\nset b $a(1)", "f:2: BadWord\n"),
    ("set a $x\nset b {", "f:1: UnknownVariable\n"),
    ("# none\n\nexpr x + 1", "f:3: BadExpr\n"),
    ("set", "f:1: WrongArgs\n"),
    ("set a 1\nset b [expr $a / 0]", "f:2: Number\n"),
    ("expr 1e15 * 10", "f:1: Number\n"),
    // a fault of a body has the line of the outermost command
    (
        "foreach a {1 2} {\n\n  set b $c\n}",
        "f:1: UnknownVariable\n",
    ),
    ("if 1 {\n  foo\n}", "f:1: OutOfProfile\n"),
    // what is not run has no fault
    ("if 0 {\n  foo\n}\nfoo", "f:4: OutOfProfile\n"),
    ("if {1 || $x} {}\nlist {", "f:2: Unclosed\n"),
    // the commands before a fault count for the next one
    (
        "create_clock -name A -period 1\ncreate_clock -name A -period 1\nset",
        "f:2: OutOfProfile\n",
    ),
];

#[test]
fn faults_of_scripts(rt: HostRuntime) -> Result<(), Fail> {
    for (script, line) in FAULTS.iter() {
        let files = [("f", *script)];
        ends(&rt, rt.alloc(), "edges f", &files, NO_FAILS, 3, line)?;
    }
    Ok(())
}

/// A command with brackets so deep in each other.
fn nested(alloc: Global, depth: usize) -> Result<String, NoMemory> {
    let opened = "[list ".repeat(alloc, depth)?;
    let closed = "]".repeat(alloc, depth)?;
    Ok(format!(in alloc; "list {}1{}", opened.as_str(), closed.as_str())?)
}

// 100 levels are run, as the missing file after them shows; 101 are too deep.
#[test]
fn a_hundred_levels(rt: HostRuntime) -> Result<(), Fail> {
    let most = nested(rt.alloc(), 100)?;
    let more = nested(rt.alloc(), 101)?;
    let files = [("most", most.as_str()), ("more", more.as_str())];
    let missing = "cannot read missing\n";
    let words = "edges most missing";
    ends(&rt, rt.alloc(), words, &files, NO_FAILS, 7, missing)?;
    let words = "edges most more";
    ends(
        &rt,
        rt.alloc(),
        words,
        &files,
        NO_FAILS,
        3,
        "more:1: TooDeep\n",
    )
}
