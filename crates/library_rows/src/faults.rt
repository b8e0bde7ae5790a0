//! Libraries that have a fault, each with its line and its fault as a reader of the rules counts them.

use lib_cells::read_lib;
use sdc_base::{At, Stop};
use source_types::LibKind;
use std::alloc::Global;
use std::process::Abort;

/// Sees that bytes are refused on a line with a fault, or taken where the line is 0.
pub fn refused(rt: &impl Abort, alloc: Global, bytes: &[u8], line: u32, kind: LibKind) {
    let found = match read_lib(alloc, bytes) {
        Ok(_) => At { line: 0, kind },
        Err(Stop::Refused(fault)) => fault,
        Err(Stop::NoMemory) => At {
            line: u32::MAX,
            kind,
        },
    };
    assert!(rt;
        found.line == line && found.kind == kind,
        "{bytes:?}: {found:?}"
    );
}

/// Sees that a text is refused on a line with a fault, or taken where the line is 0.
pub fn refused_text(rt: &impl Abort, alloc: Global, text: &str, line: u32, kind: LibKind) {
    refused(rt, alloc, text.as_bytes(), line, kind);
}

static FAULTS: [(&str, u32, LibKind); 38] = [
    // units
    ("library (a) { time_unit : \"2ns\"; }", 1, LibKind::LibForm),
    ("library (a) { time_unit :\n1 ns; }", 1, LibKind::LibForm),
    ("library (a) { time_unit : 10ps; }", 0, LibKind::LibForm),
    ("library (a) { time_unit (\"2ns\"); }", 0, LibKind::LibForm),
    (
        "library (a) { time_unit : \"1 ns\";\ntime_unit : 1ns; }",
        1,
        LibKind::LibForm,
    ),
    (
        "library (a) { }\nlibrary (b) {\ntime_unit : 1ps; }",
        2,
        LibKind::LibForm,
    ),
    (
        "library (a) { }\nlibrary (b) {\ntime_unit : 1ns; }",
        0,
        LibKind::LibForm,
    ),
    (
        "library (a) { time_unit : 1ps; }\nlibrary (b) {\ntime_unit : 2ps; }",
        3,
        LibKind::LibForm,
    ),
    (
        "library (a) {\ntime_unit : 2ns; }\nlibrary (b) { time_unit : 1ps; }",
        2,
        LibKind::LibForm,
    ),
    // cells of one name
    (
        "library (a) { cell (X) { }\ncell (X) { } }",
        2,
        LibKind::DoubleCell,
    ),
    (
        "library (a) { cell (X) { } }\nlibrary (b) { cell (X, Y) { } }",
        2,
        LibKind::DoubleCell,
    ),
    (
        "library (a) { cell (X) { bus (B) { } }\ncell (X) { } }",
        2,
        LibKind::DoubleCell,
    ),
    (
        "library (a) { cell () { } cell (X) { }\ncell () { } }",
        2,
        LibKind::DoubleCell,
    ),
    // functions and related pins
    (
        "library (a) { cell (X) { pin (A) {\nfunction : A(A); } } }",
        2,
        LibKind::FunctionForm,
    ),
    (
        "library (a) { cell (X) { pin () {\nfunction : B; } } }",
        2,
        LibKind::UnknownPin,
    ),
    (
        "library (a) { cell (X) { pin (Z) {\ntiming () {\nrelated_pin : \"Z A\"; } } } }",
        3,
        LibKind::UnknownPin,
    ),
    (
        "library (a) { cell (X) { timing () { related_pin : A; } } }",
        0,
        LibKind::UnknownPin,
    ),
    (
        "library (a) { cell (X) { bus (D) { } pin (A) { function : A(A); } } }",
        0,
        LibKind::FunctionForm,
    ),
    (
        "library (a) { cell (X) { bundle (D) { } pin (A) { timing () { related_pin : B; } } } }",
        0,
        LibKind::UnknownPin,
    ),
    (
        "library (a) { cell (X) { pin (A) { function (\"A(A)\"); timing () { related_pin (B); } } } }",
        0,
        LibKind::UnknownPin,
    ),
    (
        "library (a) { cell (X) { pin () { timing () {\nrelated_pin : B; } } } }",
        2,
        LibKind::UnknownPin,
    ),
    (
        "library (a) { cell (X) { pin (A) { timing () {\nrelated_pin : B; related_pin : A; } } } }",
        2,
        LibKind::UnknownPin,
    ),
    (
        "library (a) { cell (X) { pin (A) { function : A;\nfunction : \"A +\"; function : A; } } }",
        2,
        LibKind::FunctionForm,
    ),
    (
        "library (a) { cell (X) { pin (A B) { timing () { related_pin : \"A, B\"; } } } }",
        1,
        LibKind::UnknownPin,
    ),
    (
        "library (a) { cell (X) { pin (A) { timing () { timing_type : clear;\nrelated_pin : B; } } } }",
        2,
        LibKind::UnknownPin,
    ),
    (
        "library (a) { cell (X) { ff (P) { } pin (A) {\nfunction : Q; } } }",
        2,
        LibKind::UnknownPin,
    ),
    (
        "library (a) { cell (X) { ff_bank (P, Q, R) { } pin (A) {\nfunction : R; } } }",
        2,
        LibKind::UnknownPin,
    ),
    (
        "library (a) { cell (X) { statetable (A, P) { } pin (A) {\nfunction : P; } } }",
        2,
        LibKind::UnknownPin,
    ),
    (
        "library (a) { cell (X) { pin (A B C D E F G H I J K) { direction : input; function : A B C D E F G H I J K;\nfunction : L; } } }",
        2,
        LibKind::UnknownPin,
    ),
    (
        "library (a) { cell (X) { pin (A B C D E F G H I J K) { direction : input; function : A B C D E F G H I J K;\nfunction : A(B); } } }",
        2,
        LibKind::FunctionForm,
    ),
    (
        "library (a) { cell (X) { pin (A B) { direction : input; } pin (Z) { direction : output; timing () { related_pin : \"A B\"; timing_type : rising_edge; }\ntiming () { related_pin : C; } } } }",
        2,
        LibKind::UnknownPin,
    ),
    (
        "library (a) { cell (X) { pin (A B) { direction : input; } pin (Z) { direction : output; timing () { related_pin : \"A B\"; timing_type : rising_edge; }\nfunction : A(B); } } }",
        2,
        LibKind::FunctionForm,
    ),
    // their order
    (
        "library (a) { cell (X) { pin (A) { function : B; } } cell (X) { } }",
        1,
        LibKind::UnknownPin,
    ),
    (
        "library (a) { cell (X) { } cell (X) { pin (A) { function : B; } } }",
        1,
        LibKind::DoubleCell,
    ),
    (
        "library (a) { cell (X) { pin (A) { function : \"+\"; timing () { related_pin : B; } } } }",
        1,
        LibKind::FunctionForm,
    ),
    (
        "library (a) { cell (X) { }\ncell (X) {\npin (A) { function : \"+\"; } } }",
        2,
        LibKind::DoubleCell,
    ),
    (
        "library (a) { cell (X) { pin (A) { function : B; } } }\nlibrary (b) { time_unit : 2ns; }",
        1,
        LibKind::UnknownPin,
    ),
    (
        "library (a) { time_unit : 2ns;\ncell (X) {\n",
        2,
        LibKind::LibForm,
    ),
];

#[test]
fn faults_of_libraries(rt: HostRuntime) {
    for (text, line, kind) in FAULTS.iter() {
        refused_text(&rt, rt.alloc(), text, *line, *kind);
    }
}
