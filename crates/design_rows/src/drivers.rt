//! What drives the pins of a design.

use crate::shown::{Part, ROW_LIBRARY, shows};
use std::test::Fail;

/// Netlists over the row library, with their pins and what drives them.
static DRIVERS: [(&str, &str); 14] = [
    // a constant at an input
    (
        "module top; BUF a (.A(1'b0)); BUF b (.A(1'b1)); BUF c (.A(1'bx)); BUF d (.A(1'bz)); endmodule",
        " a/A=0 a/Z b/A=1 b/Z c/A c/Z d/A d/Z",
    ),
    // a constant at an output is no source of anything
    (
        "module top; wire n; BUF a (.Z(1'b1)); BUF b (.A(n)); endmodule",
        " a/A a/Z b/A b/Z",
    ),
    // nor at an output port
    (
        "module top; m u (.o(1'b1)); endmodule module m (o); output o; BUF b (.Z(o)); endmodule",
        " u/b/A u/b/Z",
    ),
    // a net without a source
    ("module top (o); output o; endmodule", " o"),
    // from net to net
    (
        "module top (i); input i; wire a, b, c; assign a = b; assign b = c; assign c = i; BUF u (.A(a)); endmodule",
        " i u/A=i u/Z",
    ),
    // a digit x or z is no source
    (
        "module top; wire a; assign a = 1'bx; assign a = 1'b1; BUF u (.A(a)); endmodule",
        " u/A=1 u/Z",
    ),
    (
        "module top; wire [2:0] a; assign a = 3'b0z1; AND2 u (.A(a[2]), .B(a[1])); BUF v (.A(a[0])); endmodule",
        " u/A=0 u/B u/Z v/A=1 v/Z",
    ),
    // into a module and out of it
    (
        "module top (i, o); input i; output o; thru u (.a(i), .z(o)); endmodule \
        module thru (a, z); input a; output z; assign z = a; endmodule",
        " i o=i",
    ),
    (
        "module top (i, o); input i; output o; thru u (.a(i), .z(o)); endmodule \
        module thru (a, z); input a; output z; INV n (.A(a), .Z(z)); endmodule",
        " i o=u/n/Z u/n/A=i u/n/Z",
    ),
    // bit by bit, from the leftmost
    (
        "module top (v); input [1:0] v; two u (.p({v[0], v[1]})); endmodule \
        module two (p); input [3:2] p; BUF a (.A(p[3])); BUF b (.A(p[2])); endmodule",
        " v[1] v[0] u/a/A=v[0] u/a/Z u/b/A=v[1] u/b/Z",
    ),
    // a part select, and an open port
    (
        "module top (v); input [3:0] v; two u (.p(v[2:1])); two w (.p()); endmodule \
        module two (p); input [1:0] p; BUF a (.A(p[1])); BUF b (.A(p[0])); endmodule",
        " v[3] v[2] v[1] v[0] u/a/A=v[2] u/a/Z u/b/A=v[1] u/b/Z w/a/A w/a/Z w/b/A w/b/Z",
    ),
    // a supply net
    (
        "module top (o); output o; supply1 p; assign o = p; BUF u (.A(p)); endmodule",
        " o=1 u/A=1 u/Z",
    ),
    // an output port that is read inside
    (
        "module top (i, o); input i; output o; assign o = i; BUF u (.A(o)); endmodule",
        " i o=i u/A=i u/Z",
    ),
    // a loop through cells is no cycle of nets
    (
        "module top; wire a; INV u (.A(a), .Z(a)); endmodule",
        " u/A=u/Z u/Z",
    ),
];

#[test]
fn drivers(rt: HostRuntime) -> Result<(), Fail> {
    for (netlist, wanted) in DRIVERS.iter() {
        shows(&rt, rt.alloc(), Part::Pins, ROW_LIBRARY, netlist, wanted)?;
    }
    Ok(())
}

/// A library with a pin of another direction, a cell that is refused, and a pin whose name begins with a dash.
const OTHER_LIBRARY: &str =
    "library (others) { cell (PAD) { pin (P) { direction : inout; } pin (A) { direction : input; } }
cell (WIDE) { bus (D) { } } cell (DASH) { pin (-A) { direction : input; } } }";

/// Netlists over it, with their pins.
static OTHER_PINS: [(&str, &str); 2] = [
    // such a pin is neither a source nor a load
    (
        "module top; wire n; assign n = 1'b1; PAD u (.P(n), .A(n)); PAD v (.P(m), .A(m)); endmodule",
        " u/P u/A=1 v/P v/A",
    ),
    // a name is good where it is as a whole
    (
        "module top (i); input i; DASH u (.\\-A (i)); endmodule",
        " i u/-A=i",
    ),
];

#[test]
fn other_pins(rt: HostRuntime) -> Result<(), Fail> {
    for (netlist, wanted) in OTHER_PINS.iter() {
        shows(&rt, rt.alloc(), Part::Pins, OTHER_LIBRARY, netlist, wanted)?;
    }
    // all cells of the library are kinds, refused ones too
    let pad = "module top; DASH u (); endmodule";
    let wanted = " top 1000000 1 1 0 3";
    shows(&rt, rt.alloc(), Part::Counts, OTHER_LIBRARY, pad, wanted)?;
    Ok(())
}
