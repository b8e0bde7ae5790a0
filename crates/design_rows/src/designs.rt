//! What stands in a design: pins, cells and nets in order, with their names.

use crate::shown::{Part, ROW_LIBRARY, shows};
use std::test::Fail;

/// Two registers, one after the other.
const TWO_REGISTERS: &str = "module top (clk, d, q); input clk, d; output q; wire n1; \
    DFF r1 (.D(d), .CK(clk), .Q(n1)); DFF r2 (.D(n1), .CK(clk), .Q(q)); endmodule";

/// The two registers: each part of their design.
static TWO_REGISTER_PARTS: [(Part, &str); 4] = [
    (
        Part::Pins,
        " clk d q=r2/Q r1/D=d r1/CK=clk r1/Q r2/D=r1/Q r2/CK=clk r2/Q",
    ),
    (Part::Cells, " r1:DFF 3+3 r2:DFF 6+3"),
    (Part::Nets, " clk=clk d=d q=r2/Q n1=r1/Q"),
    (Part::Counts, " top 1000000 9 2 4 5"),
];

#[test]
fn two_registers(rt: HostRuntime) -> Result<(), Fail> {
    for (part, wanted) in TWO_REGISTER_PARTS.iter() {
        shows(&rt, rt.alloc(), *part, ROW_LIBRARY, TWO_REGISTERS, wanted)?;
    }
    Ok(())
}

/// Netlists over the row library, with their pins.
static PINS: [(&str, &str); 8] = [
    ("module top; endmodule", ""),
    // bits of a vector from its left bound to its right one
    (
        "module top (v, w); input [2:1] v; output [0:1] w; assign w = v; endmodule",
        " v[2] v[1] w[0]=v[2] w[1]=v[1]",
    ),
    // cells of an inner module stand where its instance stands, with its name in front
    (
        "module top (i); input i; BUF a (.A(i)); half u (.p(i)); BUF z (.A(i)); endmodule \
        module half (p); input p; BUF b (.A(p)); quarter v (); endmodule module quarter; BUF c (); endmodule",
        " i a/A=i a/Z u/b/A=i u/b/Z u/v/c/A u/v/c/Z z/A=i z/Z",
    ),
    // connections in order, and as many as there are
    (
        "module top (i); input i; wire n; BUF a (i, n); BUF b (n); BUF c (, n2); BUF d (n2, ); endmodule",
        " i a/A=i a/Z b/A=a/Z b/Z c/A c/Z d/A=c/Z d/Z",
    ),
    // a module of the netlist hides the library cell of its name
    (
        "module top (i, o); input i; output o; BUF u (.A(i), .Z(o)); endmodule \
        module BUF (A, Z); input A; output Z; INV n (A, Z); endmodule",
        " i o=u/n/Z u/n/A=i u/n/Z",
    ),
    // an escaped name stands without its backslash
    (
        "module top (\\i+ ); input \\i+ ; BUF \\b/1 (.A(\\i+ )); endmodule",
        " i+ b/1/A=i+ b/1/Z",
    ),
    // ports in the order of the list, not of their declarations
    (
        "module top (b, a); input a; output b; assign b = a; endmodule",
        " b=a a",
    ),
    // the top may stand after modules that it does not use
    (
        "module other; NAND9 u (); endmodule module top (a); input a; endmodule",
        " a",
    ),
];

#[test]
fn pins_in_order(rt: HostRuntime) -> Result<(), Fail> {
    for (netlist, wanted) in PINS.iter() {
        shows(&rt, rt.alloc(), Part::Pins, ROW_LIBRARY, netlist, wanted)?;
    }
    Ok(())
}

/// Netlists over the row library, with their cells.
static CELLS: [(&str, &str); 2] = [
    (
        "module top; AND2 g (); half u (); MUX2 m (); endmodule module half; INV i (); endmodule",
        " g:AND2 0+3 u/i:INV 3+2 m:MUX2 5+4",
    ),
    (
        "module top (i); input [3:0] i; BUF b (.A(i[2])); endmodule",
        " b:BUF 4+2",
    ),
];

#[test]
fn cells_in_order(rt: HostRuntime) -> Result<(), Fail> {
    for (netlist, wanted) in CELLS.iter() {
        shows(&rt, rt.alloc(), Part::Cells, ROW_LIBRARY, netlist, wanted)?;
    }
    Ok(())
}

/// Netlists over the row library, with their nets.
static NETS: [(&str, &str); 7] = [
    // ports, then wires where they are declared or first used, then those of instances
    (
        "module top (i); input i; BUF b (i, k); wire m; half u (i); wire n; endmodule \
        module half (p); input p; wire q; endmodule",
        " i=i k=b/Z m n u/p=i u/q",
    ),
    // bits of a vector
    (
        "module top; wire [1:0] v; wire [0:1] w; assign v[0] = 1'b1; endmodule",
        " v[1] v[0]=1 w[0] w[1]",
    ),
    // ties
    (
        "module top; supply0 [1:0] g; supply1 p; endmodule",
        " g[1]=0 g[0]=0 p=1",
    ),
    // the source of a net is that of the net that drives it
    (
        "module top (p, o); input p; output o; wire w1, w2; AND2 a (.A(p), .B(w2), .Z(w1)); \
        AND2 b (.A(w1), .B(p), .Z(w2)); assign o = w1; endmodule",
        " p=p o=a/Z w1=a/Z w2=b/Z",
    ),
    // an output port of an inner module drives the net outside
    (
        "module top (o); output o; wire x; one u (.o(x)); assign o = x; endmodule \
        module one (o); output o; assign o = 1'b1; endmodule",
        " o=1 x=1 u/o=1",
    ),
    // an empty name is one where it is not empty as a whole
    (
        "module top; m u (); endmodule module m; wire \\ ; endmodule",
        " u/",
    ),
    ("module top; wire [1:0] \\ ; endmodule", " [1] [0]"),
];

#[test]
fn nets_in_order(rt: HostRuntime) -> Result<(), Fail> {
    for (netlist, wanted) in NETS.iter() {
        shows(&rt, rt.alloc(), Part::Nets, ROW_LIBRARY, netlist, wanted)?;
    }
    Ok(())
}
