//! What bytes are refused as, for tests.

use sdc_base::{At, Stop};
use source_types::VerilogKind;
use std::alloc::Global;
use std::process::Abort;
use verilog_net::read_verilog;

/// Sees that bytes are refused on a line with a fault, or taken where the line is 0.
pub fn refused(rt: &impl Abort, alloc: Global, bytes: &[u8], line: u32, kind: VerilogKind) {
    let found = match read_verilog(alloc, bytes) {
        Ok(_) => At { line: 0, kind },
        Err(Stop::Refused(fault)) => fault,
        Err(Stop::NoMemory) => At {
            line: u32::MAX,
            kind,
        },
    };
    assert!(rt;
        found.line == line && found.kind == kind,
        "{bytes:?}: {found:?}"
    );
}

/// Sees that a text is refused on a line with a fault, or taken where the line is 0.
fn refused_text(rt: &impl Abort, alloc: Global, text: &str, line: u32, kind: VerilogKind) {
    refused(rt, alloc, text.as_bytes(), line, kind);
}

/// Sees that texts have their first syntax error on these lines, or none where the line is 0.
pub fn broken(rt: &impl Abort, alloc: Global, rows: &[(&str, u32)]) {
    for (text, line) in rows {
        refused_text(rt, alloc, text, *line, VerilogKind::VerilogForm);
    }
}

/// Sees that texts are refused on these lines with these faults, or taken where the line is 0.
pub fn all_refused(rt: &impl Abort, alloc: Global, rows: &[(&str, u32, VerilogKind)]) {
    for (text, line, kind) in rows {
        refused_text(rt, alloc, text, *line, *kind);
    }
}
