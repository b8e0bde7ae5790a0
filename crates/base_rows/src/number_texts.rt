//! Texts of numbers, whose values come from outside: Python's decimal module computed them.
use crate::arithmetic::shown;
use sdc_base::{Fixed, NoMemory};
use std::alloc::Global;
use std::process::Abort;
use std::test::Fail;

// A text that is read, and the text of the number.
static TEXTS: [(&str, &str); 18] = [
    ("1.50", "1.5"),
    ("007", "7"),
    ("-0", "0"),
    ("-0.0", "0.0"),
    ("1e3", "1000.0"),
    ("5.", "5.0"),
    ("-.5", "-0.5"),
    ("1e-9", "0.000000001"),
    ("-1e-9", "-0.000000001"),
    ("100", "100"),
    ("-100", "-100"),
    ("0.1", "0.1"),
    ("0.10000000", "0.1"),
    ("12.000000340", "12.00000034"),
    ("999999999999999", "999999999999999"),
    ("-999999999999999.999999999", "-999999999999999.999999999"),
    ("0.9999999999", "1.0"),
    ("-1e-30", "0.0"),
];

/// Sees that a number that is read has this text.
fn reads_as(rt: &impl Abort, alloc: Global, read: &str, want: &str) -> Result<(), NoMemory> {
    let text = shown(alloc, Fixed::read(read))?;
    assert!(rt; text.as_str() == want, "at {read}");
    Ok(())
}

#[test]
fn texts_of_what_is_read(rt: HostRuntime) -> Result<(), Fail> {
    for (read, want) in TEXTS.iter() {
        reads_as(&rt, rt.alloc(), read, want)?;
    }
    Ok(())
}
