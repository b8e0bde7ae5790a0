//! What small files say, worked out by hand from the rules.

mod clocks;
mod groups;

use super::read_mode;
use sdc_base::{At, NoMemory, Stop};
use source_types::Kind;
use std::alloc::Global;
use std::process::Abort;
use std::test::Fail;
use timing_types::{Form, Mode};

/// Each clock with its period and its edges, and each exclusive pair.
fn show_mode(alloc: Global, mode: &Mode) -> Result<String, NoMemory> {
    let mut shown = String::new(alloc);
    for clock in mode.clocks.iter() {
        if let Form::Primary { wave } = &clock.form {
            let name = clock.name.as_str();
            let edges = format!(in alloc; "{name} {} {} {};", wave.period, wave.rise, wave.fall)?;
            shown.push_str(edges.as_str())?;
        }
    }
    for pair in mode.exclusive.iter() {
        let places = format!(in alloc; " {}-{}", pair.first, pair.second)?;
        shown.push_str(places.as_str())?;
    }
    Ok(shown)
}

/// What a script says, or the kind and the line of its fault.
fn show(alloc: Global, text: &str) -> Result<String, NoMemory> {
    match read_mode(alloc, text.as_bytes(), 16384) {
        Ok(mode) => show_mode(alloc, &mode),
        Err(Stop::Refused(At { line, kind })) => Ok(format!(in alloc; "{kind:?} {line}")?),
        Err(Stop::NoMemory) => Err(NoMemory),
    }
}

/// Sees that a script says this.
fn says(rt: &impl Abort, alloc: Global, text: &str, wanted: &str) -> Result<(), Fail> {
    let shown = show(alloc, text)?;
    assert_eq!(rt; shown.as_str(), wanted, "the text {text:?}");
    Ok(())
}

/// Bytes that are no text, and the line of the first one that is none.
static NO_TEXTS: [(&[u8], u32); 3] = [
    (b"\xff", 1),
    (b"set a 1\n\nset b \xc3(\n", 3),
    // the text before it counts for nothing
    (b"foo\n\xe2\x82", 2),
];

#[test]
fn bytes_that_are_no_text(rt: HostRuntime) -> Result<(), Fail> {
    for (bytes, wanted) in NO_TEXTS.iter() {
        let read = read_mode(rt.alloc(), bytes, 16384);
        assert!(rt; is_no_text(&read, *wanted), "the fault of line {wanted}");
    }
    Ok(())
}

/// Whether a file is no text from a line on.
fn is_no_text(read: &Result<Mode, Stop<At<Kind>>>, wanted: u32) -> bool {
    matches!(read, Err(Stop::Refused(At { line, kind: Kind::NotText })) if *line == wanted)
}
