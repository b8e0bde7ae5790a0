//! Groups of clocks of files.

use super::says;
use crate::mode_file::read_mode;
use sdc_base::NoMemory;
use std::alloc::Global;
use std::process::Abort;
use std::test::Fail;

/// Four clocks, with the places 0 to 3.
const CLOCKS: &str = "create_clock -name a -period 2
create_clock -name b -period 2
create_clock -name c -period 2
create_clock -name d -period 2";

/// What these clocks say.
const SAID_CLOCKS: &str =
    "a 2000000 0 1000000;b 2000000 0 1000000;c 2000000 0 1000000;d 2000000 0 1000000;";

/// The arguments of groups after these clocks, and the exclusive pairs that they make.
static GROUPS: [(&str, &str); 24] = [
    // a name, a list and a query, the lesser place first
    (" -group a -group b", " 0-1"),
    (" -group d -group a", " 0-3"),
    (" -group {c b} -group {a d}", " 0-1 0-2 1-3 2-3"),
    (
        " -group [get_clocks {b}] -group [ get_clocks\t{ c d } ]",
        " 1-2 1-3",
    ),
    (" -group { b\t} -group [get_clocks {a}]", " 0-1"),
    // other spellings of lists
    (" -group {a {b}} -group b", " 0-1"),
    (" -group a -group [get_clocks {{b} \"c\"}]", " 0-1 0-2"),
    (" -group a -group [get_clocks b]", " 0-1"),
    (
        " -group [get_clocks [get_clocks {d c}]] -group {a}",
        " 0-2 0-3",
    ),
    (
        " -group [concat [get_clocks a] [get_clocks d]] -group b",
        " 0-1 1-3",
    ),
    (
        " -asynchronous -group a -group \"[get_clocks {c b}]\"",
        " 0-1 0-2",
    ),
    // every two of more groups
    (" -group a -group b -group c", " 0-1 0-2 1-2"),
    (" -group {a b} -group d -group c", " 0-2 0-3 1-2 1-3 2-3"),
    // one group alone, against all other clocks
    (" -group b", " 0-1 1-2 1-3"),
    (" -group {d a}", " 0-1 0-2 1-3 2-3"),
    (" -group [get_clocks {a b c d}]", ""),
    // a clock is not exclusive with itself
    (" -group a -group a", ""),
    (" -group {a b} -group {b a}", " 0-1"),
    // a name twice, and no name
    (" -group {a a} -group {c c c}", " 0-2"),
    (" -group {} -group {a b}", ""),
    (" -group [get_clocks { }] -group a", ""),
    (" -group a -group b -group {}", ""),
    (" -group {}", ""),
    // pairs of two commands, in order and each once
    (
        " -group c -group d\nset_clock_groups -asynchronous -group {d b} -group {a c}",
        " 0-1 0-3 1-2 2-3",
    ),
];

/// Sees that these groups after the four clocks make these pairs exclusive.
fn groups_make(rt: &impl Abort, alloc: Global, groups: &str, pairs: &str) -> Result<(), Fail> {
    let text = format!(in alloc; "{CLOCKS}\nset_clock_groups -asynchronous{groups}")?;
    let wanted = format!(in alloc; "{SAID_CLOCKS}{pairs}")?;
    says(rt, alloc, text.as_str(), wanted.as_str())
}

#[test]
fn exclusive_pairs_of_groups(rt: HostRuntime) -> Result<(), Fail> {
    for (groups, pairs) in GROUPS.iter() {
        groups_make(&rt, rt.alloc(), groups, pairs)?;
    }
    Ok(())
}

/// Arguments of groups that are not read after these clocks.
static OTHER_GROUPS: [&str; 14] = [
    // names that are no clocks
    "-asynchronous -group a -group e",
    "-asynchronous -group {a e} -group b",
    "-asynchronous -group {{a b}} -group b",
    "-asynchronous -group a -group [get_clocks *]",
    // no lists
    "-asynchronous -group {\"a b} -group b",
    // queries of another form
    "-asynchronous -group a -group [get_clocks b c]",
    "-asynchronous -group a -group [get_clocks -quiet b]",
    "-asynchronous -group a -group [get_ports {b}]",
    "-asynchronous -group a -group [get_clocks]",
    // options of another form
    "-asynchronous",
    "-asynchronous -group a -group b -group",
    "-group a -group b",
    "-physically_exclusive -group a -group b",
    "-asynchronous -group a -groups b",
];

/// Sees that these groups after the four clocks are not read.
fn groups_fail(rt: &impl Abort, alloc: Global, groups: &str) -> Result<(), Fail> {
    let text = format!(in alloc; "{CLOCKS}\nset_clock_groups {groups}")?;
    says(rt, alloc, text.as_str(), "Sdc(OutOfProfile) 5")
}

#[test]
fn groups_of_another_form(rt: HostRuntime) -> Result<(), Fail> {
    for groups in OTHER_GROUPS.iter() {
        groups_fail(&rt, rt.alloc(), groups)?;
    }
    Ok(())
}

#[test]
fn a_group_alone_stands_against_later_clocks(rt: HostRuntime) -> Result<(), Fail> {
    let text = "create_clock -name a -period 2
set_clock_groups -asynchronous -group a
create_clock -name b -period 2";
    says(
        &rt,
        rt.alloc(),
        text,
        "a 2000000 0 1000000;b 2000000 0 1000000; 0-1",
    )
}

#[test]
fn names_come_before_groups(rt: HostRuntime) -> Result<(), Fail> {
    let text = "create_clock -name a -period 2
set_clock_groups -asynchronous -group a -group b
create_clock -name b -period 2";
    says(&rt, rt.alloc(), text, "Sdc(OutOfProfile) 2")
}

/// A text of so many clocks, one a line.
fn many_clocks(alloc: Global, count: u32) -> Result<String, NoMemory> {
    let mut text = String::new(alloc);
    for i in 0..count {
        let line = format!(in alloc; "create_clock -name c{i} -period 10\n")?;
        text.push_str(line.as_str())?;
    }
    Ok(text)
}

#[test]
fn pairs_of_many_clocks(rt: HostRuntime) -> Result<(), Fail> {
    let mut text = many_clocks(rt.alloc(), 3000)?;
    text.push_str("set_clock_groups -asynchronous -group c2999 -group {c7 c1}")?;
    let read = read_mode(rt.alloc(), text.as_bytes(), 16384);
    assert!(rt; read.is_ok(), "3,000 clocks are read");
    if let Ok(mode) = read {
        assert_eq!(rt; mode.clocks.len(), 3000);
        assert_eq!(rt; mode.exclusive.len(), 2);
    }
    Ok(())
}
