//! Netlists that are no design for their instances, their cells or their library, each with the line of its first
//! fault and the fault.

use crate::shown::{Part, ROW_LIBRARY, shows};
use std::test::Fail;

/// Faults of instances.
static INSTANCES: [(&str, &str); 22] = [
    ("", "0: UnknownModule"),
    ("module other; endmodule", "0: UnknownModule"),
    ("module top; NAND9 u (); endmodule", "1: UnknownModule"),
    ("module top; NAND9\nu (); endmodule", "2: UnknownModule"),
    ("module top; top u (); endmodule", "1: ModuleCycle"),
    // a cycle is found before widths and before later instances
    (
        "module top; top u (x, y, z);\nNAND9 v (); endmodule",
        "1: ModuleCycle",
    ),
    (
        "module top; a\nu (); endmodule module a; b\nv (); endmodule module b; a\nw (); endmodule",
        "4: ModuleCycle",
    ),
    // instances in an inner module stand before the next instance
    (
        "module top; a u ();\nNAND9 v (); endmodule module a;\nNAND9 w (); endmodule",
        "3: UnknownModule",
    ),
    // and the instance itself stands before those in it
    (
        "module top; a u (x);\nendmodule module a;\nNAND9 w (); endmodule",
        "1: WidthMismatch",
    ),
    // widths of ports
    (
        "module top; wire [1:0] v; a u (.p(v)); endmodule module a (p); input p; endmodule",
        "1: WidthMismatch",
    ),
    (
        "module top; a u (.p(x)); endmodule module a (p); input [1:0] p; endmodule",
        "1: WidthMismatch",
    ),
    (
        "module top; a u (.q(x)); endmodule module a (p); input p; endmodule",
        "1: WidthMismatch",
    ),
    (
        "module top; a u (.p(x), .p(x)); endmodule module a (p); input p; endmodule",
        "1: WidthMismatch",
    ),
    (
        "module top; a u (.p(), .p(x)); endmodule module a (p); input p; endmodule",
        "1: WidthMismatch",
    ),
    (
        "module top; a u (x, y); endmodule module a (p); input p; endmodule",
        "1: WidthMismatch",
    ),
    (
        "module top; a u (x, ); endmodule module a (p); input p; endmodule",
        "1: WidthMismatch",
    ),
    // and of library cells
    ("module top; BUF u (x, y, z); endmodule", "1: WidthMismatch"),
    ("module top; BUF u (.X(x)); endmodule", "1: WidthMismatch"),
    (
        "module top; BUF u (.A(x), .A(x)); endmodule",
        "1: WidthMismatch",
    ),
    (
        "module top; wire [1:0] v; BUF u (.A(v)); endmodule",
        "1: WidthMismatch",
    ),
    // all faults of instances stand before those of nets
    (
        "module top; wire \\a*b ;\nNAND9 u (); endmodule",
        "2: UnknownModule",
    ),
    (
        "module top; wire a; assign a = a;\nNAND9 u (); endmodule",
        "2: UnknownModule",
    ),
];

#[test]
fn instances(rt: HostRuntime) -> Result<(), Fail> {
    for (netlist, wanted) in INSTANCES.iter() {
        shows(&rt, rt.alloc(), Part::Counts, ROW_LIBRARY, netlist, wanted)?;
    }
    Ok(())
}

/// Faults of cells.
static CELLS: [(&str, &str); 10] = [
    (
        "module m; BUF b (); endmodule module top; BUF \\a/b (); m a (); endmodule",
        "1: DoubleName",
    ),
    // the second one has the fault, and its line is that of the instance's name
    (
        "module top; BUF \\a/b (); m a (); endmodule module m; BUF\nb (); endmodule",
        "2: DoubleName",
    ),
    (
        "module top; BUF u (); BUF\nu (); endmodule",
        "2: DoubleName",
    ),
    // a pin of the name of a port
    (
        "module top (\\r1/D ); input \\r1/D ;\nDFF r1 (); endmodule",
        "2: DoubleName",
    ),
    ("module top; BUF\n\\a*b (); endmodule", "2: BadName"),
    ("module top; BUF \\-a (); endmodule", "1: BadName"),
    ("module top; BUF \\ (); endmodule", "1: BadName"),
    // an instance and a net may share a name
    (
        "module top; wire u; BUF u (); endmodule",
        " top 1000000 2 1 1 5",
    ),
    // names of instances of modules are no names of objects
    (
        "module top; m u (); m u (); endmodule module m; endmodule",
        " top 1000000 0 0 0 5",
    ),
    (
        "module top; m \\a*b (); endmodule module m; endmodule",
        " top 1000000 0 0 0 5",
    ),
];

#[test]
fn cells(rt: HostRuntime) -> Result<(), Fail> {
    for (netlist, wanted) in CELLS.iter() {
        shows(&rt, rt.alloc(), Part::Counts, ROW_LIBRARY, netlist, wanted)?;
    }
    Ok(())
}

/// Libraries with netlists over them, and their faults.
static LIBRARIES: [(&str, &str, &str); 12] = [
    (
        "library (a) { cell (B2) { bus (D) { } } }",
        "module top; B2 u (); endmodule",
        "1: UnsupportedCell",
    ),
    // before widths
    (
        "library (a) { cell (B2) { bus (D) { } } }",
        "module top; B2\nu (.X(a), .X(b)); endmodule",
        "2: UnsupportedCell",
    ),
    // two pins of one name
    (
        "library (a) { cell (C) { pin (A) { } pin (A) { } } }",
        "module top; C\nu (); endmodule",
        "2: DoubleName",
    ),
    // a pin with a bad name, and one without a name
    (
        "library (a) { cell (C) { pin (A*) { } } }",
        "module top; C u (); endmodule",
        "1: BadName",
    ),
    (
        "library (a) { cell (C) { pin (\"\") { } } }",
        "module top; C u (); endmodule",
        "1: BadName",
    ),
    // the other bytes that names of a library can have
    (
        "library (a) { cell (C) { pin (\"A B\") { } } }",
        "module top; C u (); endmodule",
        "1: BadName",
    ),
    (
        "library (a) { cell (C) { pin (\"A\tB\") { } } }",
        "module top; C u (); endmodule",
        "1: BadName",
    ),
    (
        "library (a) { cell (C) { pin (\"A\rB\") { } } }",
        "module top; C u (); endmodule",
        "1: BadName",
    ),
    (
        "library (a) { cell (C) { pin (\"A\nB\") { } } }",
        "module top; C u (); endmodule",
        "1: BadName",
    ),
    // of two outputs of one name the first drives the net, which has one source
    (
        "library (a) { cell (C) { pin (Z) { direction : output; } pin (Z) { direction : output; } } }",
        "module top; C\nu (.Z(n)); endmodule",
        "2: DoubleName",
    ),
    // two names before a bad one
    (
        "library (a) { cell (C) { pin (\"A*\") { } pin (\"A*\") { } } }",
        "module top; C u (); endmodule",
        "1: DoubleName",
    ),
    // a pin of another cell's name and pin
    (
        "library (a) { cell (C) { pin (\"b/A\") { } } cell (D) { pin (A) { } } }",
        "module top; C u (); m u (); endmodule module m; D\nb (); endmodule",
        "2: DoubleName",
    ),
];

#[test]
fn libraries(rt: HostRuntime) -> Result<(), Fail> {
    for (library, netlist, wanted) in LIBRARIES.iter() {
        shows(&rt, rt.alloc(), Part::Counts, library, netlist, wanted)?;
    }
    Ok(())
}
