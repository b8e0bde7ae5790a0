//! Texts that are no libraries, each with the line of its first syntax error as a reader of the grammar counts it.

use crate::faults::{refused, refused_text};
use source_types::LibKind;

static BREAKS: [(&str, u32); 53] = [
    // whole texts
    ("", 1),
    ("\n\n", 2),
    ("library (a) { }", 0),
    ("library (a) { } library () { }\n", 0),
    ("\nfoo (a) { } library (b) { }", 2),
    ("library (a) {\n", 1),
    ("library (a) {\n}\n}", 3),
    ("library\n(a)\n{", 3),
    ("library (a);", 1),
    ("library (a) { }\n;", 2),
    ("\"library\" (a) { }", 1),
    // arguments
    ("library (a, \"b\" c) { x (); }", 0),
    ("library (a,\n,b) { }", 2),
    ("library (\n,a) { }", 2),
    ("library (a,\n) { }", 2),
    ("library (\"a\"\n\"b\"\"c\") { }", 2),
    ("library (\"a\"/**/\"b\") { }", 0),
    ("library (a\n\"b\"c) { }", 2),
    ("library (\na\"b\") { }", 2),
    ("library (a\n(b)) { }", 2),
    // ends of attributes
    ("library (a) { x : y\nz : w }", 0),
    ("library (a) { x : y\n; }", 0),
    ("library (a) { x : y;\n; }", 2),
    ("library (a) { x : y; z : w\nv (b) u : t }", 2),
    ("library (a) { v (b)\nu : t }", 0),
    ("library (a) { v (b) { }\n; }", 2),
    // values
    ("library (a) { x :\ny\n}", 0),
    ("library (a) { x : a +\nb\n; }", 3),
    ("library (a) { x : a +\nb; }", 2),
    ("library (a) { x : (a +\nb) c\n }", 0),
    ("library (a) { x : \"a\"\n+ b }", 2),
    ("library (a) {\nx : \"a\" \"b\"; }", 2),
    ("library (a) {\nx : a { } }", 2),
    ("library (a) { x : a\n\n, b }", 3),
    ("library (a) { x : a\n: b }", 2),
    ("library (a) { x : a\n\"b\" }", 2),
    ("library (a) { x : ()\n }", 0),
    ("library (a) { x : (\n\"b\") }", 2),
    ("library (a) { x :\n; }", 2),
    // names
    ("library (a) { data[3:0] : b }", 0),
    ("library (a) { x : b[1:0\n] : c }", 0),
    ("library (a) { x : b\n[: c }", 2),
    // comments and continued lines
    ("library (a) { x : a /*\n*/ y : b; }", 2),
    ("library (a) { x : a \\\ny : b; }", 2),
    ("library (a) { x : a \\\r\n+ b; }", 0),
    ("library (a) { }\n/* b\n", 2),
    ("library (a) { }\n/*/", 2),
    ("library (a) { x : \"/*\" }", 0),
    // quotes
    ("library \n\"a", 2),
    ("library (a) { x :\n\"b }\n", 2),
    ("library (a) { x : \"b\nc }", 2),
    ("library \"b\nc }", 1),
    ("library (a) { x : \"b\\\" ; }", 0),
];

#[test]
fn errors_of_the_grammar(rt: HostRuntime) {
    for (text, line) in BREAKS.iter() {
        refused_text(&rt, rt.alloc(), text, *line, LibKind::LibForm);
    }
}

const CUT: &[u8] =
    b"library (a) { /* b */ time_unit : \"1ns\"; cell (X, \"Y\") { pin (D[1:0]) { direction : in\\\nput } x : (a + b) } }";

/// Sees that a text that is cut off is refused: all before its last byte are too short, and one line is continued.
#[test]
fn texts_that_are_cut_off(rt: HostRuntime) {
    for (len, _) in CUT.iter().enumerate() {
        let (front, _) = CUT.split_at(len);
        let line = if len > 88 { 2 } else { 1 };
        refused(&rt, rt.alloc(), front, line, LibKind::LibForm);
    }
    refused(&rt, rt.alloc(), CUT, 0, LibKind::LibForm);
}

static NO_TEXTS: [(&[u8], u32); 4] = [
    (b"\xff", 1),
    (b"library (a) { }\n\n\xc3", 3),
    (b"\n\xc3(", 2),
    (b"library (a {\n\"\xed\xa0\x80\"", 2),
];

#[test]
fn bytes_that_are_no_text(rt: HostRuntime) {
    for (bytes, line) in NO_TEXTS.iter() {
        refused(&rt, rt.alloc(), bytes, *line, LibKind::NotText);
    }
}
