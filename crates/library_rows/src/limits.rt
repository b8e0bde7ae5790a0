//! Libraries as deep and as large as they go, and those one step beyond.

use crate::faults::refused_text;
use sdc_base::NoMemory;
use source_types::LibKind;
use std::alloc::Global;
use std::test::Fail;

/// So many times a text, before another text and so many times a third one.
fn wrapped(
    alloc: Global,
    times: usize,
    before: &str,
    inner: &str,
    after: &str,
) -> Result<String, NoMemory> {
    let mut text = String::new(alloc);
    for _ in 0..times {
        text.push_str(before)?;
    }
    text.push_str(inner)?;
    for _ in 0..times {
        text.push_str(after)?;
    }
    Ok(text)
}

/// Groups in a library, so many of them, each in the one before it on a line of its own.
fn nested(alloc: Global, groups: usize) -> Result<String, NoMemory> {
    let inside = wrapped(alloc, groups, "a ()\n{", "", "}")?;
    wrapped(alloc, 1, "library (a) {", inside.as_str(), "}")
}

#[test]
fn groups_as_deep_as_they_go(rt: HostRuntime) -> Result<(), Fail> {
    let alloc = rt.alloc();
    let deepest = nested(alloc, 99)?;
    refused_text(&rt, alloc, deepest.as_str(), 0, LibKind::LibForm);
    let too_deep = nested(alloc, 100)?;
    refused_text(&rt, alloc, too_deep.as_str(), 101, LibKind::LibForm);
    let far_too_deep = nested(alloc, 5000)?;
    refused_text(&rt, alloc, far_too_deep.as_str(), 101, LibKind::LibForm);
    Ok(())
}

/// A cell of so many pins, with a function that names none of them.
fn many_pins(alloc: Global, pins: usize) -> Result<String, NoMemory> {
    let names = wrapped(alloc, pins, "A ", "", "")?;
    let before = "library (a) { cell (X) { ff (P, Q) { } pin (";
    let after = ") { function : B; } } }";
    let text = format!(in alloc; "{before}{names}{after}")?;
    Ok(text)
}

/// Sees that pins and state variables are counted together: a cell with too many of them is not read.
#[test]
fn cells_of_many_pins(rt: HostRuntime) -> Result<(), Fail> {
    let alloc = rt.alloc();
    let most = many_pins(alloc, 59_998)?;
    refused_text(&rt, alloc, most.as_str(), 1, LibKind::UnknownPin);
    let too_many = many_pins(alloc, 59_999)?;
    refused_text(&rt, alloc, too_many.as_str(), 0, LibKind::UnknownPin);
    Ok(())
}

/// A pin with a function.
fn pin_with(alloc: Global, function: &str) -> Result<String, NoMemory> {
    let text = format!(in alloc;
        "library (a) {{ cell (X) {{ pin (A) {{ function : {function}; }} }} }}"
    )?;
    Ok(text)
}

/// Sees that a function's bytes are counted as its value has them: a comment in it is one blank.
#[test]
fn functions_of_many_bytes(rt: HostRuntime) -> Result<(), Fail> {
    let alloc = rt.alloc();
    let terms = wrapped(alloc, 511, "A+", "!A", "")?;
    let longest = pin_with(alloc, terms.as_str())?;
    refused_text(&rt, alloc, longest.as_str(), 0, LibKind::FunctionForm);
    let terms = wrapped(alloc, 511, "A+", "!!A", "")?;
    let too_long = pin_with(alloc, terms.as_str())?;
    refused_text(&rt, alloc, too_long.as_str(), 1, LibKind::FunctionForm);
    let comment = wrapped(alloc, 1024, "x", "*/A", "")?;
    let commented = format!(in alloc; "A/*{comment}")?;
    let commented = pin_with(alloc, commented.as_str())?;
    refused_text(&rt, alloc, commented.as_str(), 0, LibKind::FunctionForm);
    Ok(())
}
