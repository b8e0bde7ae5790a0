//! Netlists that are no design for their nets, each with the line of its first fault and the fault.

use crate::shown::{Part, ROW_LIBRARY, shows};
use std::test::Fail;

/// Faults of nets.
static NETS: [(&str, &str); 32] = [
    (
        "module top; wire n; BUF a (.Z(n)); BUF b (.Z(n)); endmodule",
        "1: TwoDrivers",
    ),
    (
        "module top; wire a, b; assign a = b; assign b = a; endmodule",
        "1: AssignCycle",
    ),
    ("module top; wire \\a*b ; endmodule", "1: BadName"),
    // the line is that of the module's name
    ("module\ntop;\nwire \\a*b ; endmodule", "2: BadName"),
    ("module top; wire \\-a ; endmodule", "1: BadName"),
    ("module top; wire \\ ; endmodule", "1: BadName"),
    // the other signs that escaped names can have
    ("module top; wire \\a?b ; endmodule", "1: BadName"),
    ("module top; wire \\a{b ; endmodule", "1: BadName"),
    ("module top; wire \\a}b ; endmodule", "1: BadName"),
    ("module top; wire \\a\"b ; endmodule", "1: BadName"),
    ("module top; wire \\a\\b ; endmodule", "1: BadName"),
    // one source twice
    (
        "module top; wire a, b; assign a = b; assign a = b; endmodule",
        "1: TwoDrivers",
    ),
    // a port of the top that is driven inside
    (
        "module top (a); input a; assign a = 1'b0; endmodule",
        "1: TwoDrivers",
    ),
    // an input of an inner module that is driven from both sides
    (
        "module top; wire w; m u (w); endmodule\nmodule m (i); input i; assign i = 1'b1; endmodule",
        "2: TwoDrivers",
    ),
    // a supply net that is driven
    (
        "module top; supply0 g; assign g = 1'b0; endmodule",
        "1: TwoDrivers",
    ),
    // a net that is driven by itself
    (
        "module top; wire a; assign a = a; endmodule",
        "1: AssignCycle",
    ),
    // with several sources each is followed
    (
        "module top; wire a, b, c; assign a = b; assign b = a; assign b = c; endmodule",
        "1: AssignCycle",
    ),
    (
        "module top; wire a, b, c; assign a = b; assign b = c; assign b = a; endmodule",
        "1: AssignCycle",
    ),
    // of one net two sources stand before a cycle
    (
        "module top; wire a, b; assign a = b; assign a = b; assign b = a; endmodule",
        "1: TwoDrivers",
    ),
    // of two nets the first counts
    (
        "module top; wire a, b, c; assign a = c; assign a = c; assign b = b; endmodule",
        "1: TwoDrivers",
    ),
    (
        "module top; wire b, a, c; assign a = c; assign a = c; assign b = b; endmodule",
        "1: AssignCycle",
    ),
    // a net that only leads into a cycle has no fault
    (
        "module top; wire x; m u (.o(x)); endmodule\nmodule m (o); output o; wire b, c; \
        assign o = b; assign b = c; assign c = b; endmodule",
        "2: AssignCycle",
    ),
    // nor have the bits of a vector that lead to its last one, which drives itself
    (
        "module top; wire [9:0] a; assign a[9:1] = a[8:0]; assign a[0] = a[0]; endmodule",
        "1: AssignCycle",
    ),
    // a cycle through the ports of an inner module
    (
        "module thru (a, z); input a; output z; assign z = a; endmodule\n\
        module top; wire x; thru u (.a(x), .z(x)); endmodule",
        "2: AssignCycle",
    ),
    // two bits of an output port that are connected to one net
    (
        "module top; wire x; m u (.o({x, x})); endmodule\nmodule m (o); output [1:0] o; endmodule",
        "1: TwoDrivers",
    ),
    // net by net, and of one net by kind
    (
        "module top; wire a; wire \\b*c ; assign a = 1'b1; assign a = 1'b0; endmodule",
        "1: TwoDrivers",
    ),
    (
        "module top; wire \\b*c ; wire a; assign a = 1'b1; assign a = 1'b0; endmodule",
        "1: BadName",
    ),
    (
        "module top; wire \\b*c ; assign \\b*c = 1'b1; assign \\b*c = 1'b0; endmodule",
        "1: BadName",
    ),
    // names of bits
    (
        "module top; wire [1:0] v; wire \\v[0] ; endmodule",
        "1: DoubleName",
    ),
    // names of inner nets: the second one stands in the inner module
    (
        "module top; m u (); wire \\u/y ; endmodule\nmodule m; wire y; endmodule",
        "2: DoubleName",
    ),
    // nets before cells
    (
        "module top; wire \\a*b ;\nBUF \\c*d (); endmodule",
        "1: BadName",
    ),
    (
        "module top; wire a; assign a = a;\nBUF \\c*d (); endmodule",
        "1: AssignCycle",
    ),
];

#[test]
fn nets(rt: HostRuntime) -> Result<(), Fail> {
    for (netlist, wanted) in NETS.iter() {
        shows(&rt, rt.alloc(), Part::Counts, ROW_LIBRARY, netlist, wanted)?;
    }
    Ok(())
}
