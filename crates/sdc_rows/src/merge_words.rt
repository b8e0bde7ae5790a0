//! The words of `merge`.

use crate::answers::{is_usage, names};
use std::test::Fail;

/// Words that are no command line.
static NO_COMMAND_LINES: [&str; 33] = [
    "merge",
    "merge - - -",
    "merge - - - o",
    "merge t - - o m",
    "merge - l - o m",
    "merge - - n o m",
    "merge t l - o m",
    "merge t - n o m",
    "merge - l n o m",
    "merge t l n o m",
    "merge - - o m",
    "merge - - - o m m m m m m m m m m m m m m m m m",
    "merge --bad - - - o m",
    "merge - - - o m -x",
    "merge --tag 5 - - - o m",
    "merge --tags",
    "merge - - - o m --tags",
    "merge --tags - - - o m",
    "merge --tags 0 - - - o m",
    "merge --tags=0 - - - o m",
    "merge --tags= - - - o m",
    "merge --tags 10000001 - - - o m",
    "merge --tags=10000001 - - - o m",
    "merge --tags 5.0 - - - o m",
    "merge --tags -5 - - - o m",
    "merge --tags ++5 - - - o m",
    "merge --tags + - - - o m",
    "merge --tags 18446744073709551617 - - - o m",
    "merge --tags 5 --tags 5 - - - o m",
    "merge --tags=5 - - - o m --tags=5",
    "merge --tags -- - - - o m",
    "--tags 5 merge - - - o m",
    "-- merge - - - o m",
];

#[test]
fn wrong_command_lines_of_merge(rt: HostRuntime) -> Result<(), Fail> {
    for words in NO_COMMAND_LINES.iter() {
        is_usage(&rt, rt.alloc(), words, &[("m", "")])?;
    }
    Ok(())
}

static EMPTY_FILES: [(&str, &str); 4] = [("m", ""), ("--", ""), ("--tags", ""), ("5", "")];

/// Where the option may stand, and the words after `--`, which are arguments; with the name of the merged file.
static OPTIONS: [(&str, &str); 18] = [
    ("merge - - - o m m m m m m m m m m m m m m m m", "o"),
    ("merge --tags 1 - - - o m", "o"),
    ("merge --tags 10000000 - - - o m", "o"),
    ("merge --tags=10000000 - - - o m", "o"),
    ("merge --tags=5 - - - o m", "o"),
    ("merge --tags +5 - - - o m", "o"),
    ("merge --tags=+5 - - - o m", "o"),
    ("merge --tags 0005 - - - o m", "o"),
    ("merge - - --tags 5 - o m", "o"),
    ("merge - - - o --tags 5 m", "o"),
    ("merge - - - o m --tags 5", "o"),
    ("merge -- - - - o m", "o"),
    ("merge - - - o m --", "o"),
    ("merge - - - -- o --", "o"),
    ("merge - - - -- --tags --tags 5", "--tags"),
    ("merge --tags 5 -- - - - -x --tags 5", "-x"),
    ("merge - - - - m", "-"),
    ("merge - - -  m", ""),
];

#[test]
fn options_of_merge(rt: HostRuntime) -> Result<(), Fail> {
    for (words, name) in OPTIONS.iter() {
        names(&rt, rt.alloc(), words, &EMPTY_FILES, name)?;
    }
    Ok(())
}
