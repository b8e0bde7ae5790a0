//! Texts of netlists that are refused for what they name, each with its line and its fault as a reader of the rules
//! counts them, and texts beside them that are taken.

use crate::refused::all_refused;
use source_types::VerilogKind;

/// Names and their declarations.
static NAMES: [(&str, u32, VerilogKind); 36] = [
    // each on one line
    (
        "module top (p); inout p; endmodule",
        1,
        VerilogKind::InoutPort,
    ),
    (
        "module top; wire a; wire a; endmodule",
        1,
        VerilogKind::DoubleName,
    ),
    (
        "module top; wire [1:0] a; wire b; assign b = a; endmodule",
        1,
        VerilogKind::WidthMismatch,
    ),
    (
        "module top; wire [1:0] a; wire b; assign b = a[2]; endmodule",
        1,
        VerilogKind::UnknownNet,
    ),
    // ports of both directions
    (
        "module top (p);\ninout\np; endmodule",
        2,
        VerilogKind::InoutPort,
    ),
    (
        "module top (\ninout p); endmodule",
        2,
        VerilogKind::InoutPort,
    ),
    (
        "module top (input p,\ninout q); endmodule",
        2,
        VerilogKind::InoutPort,
    ),
    (
        "module top (p);\n\ninout wire [1:0] p; endmodule",
        3,
        VerilogKind::InoutPort,
    ),
    // names of modules and of listed ports
    (
        "module a; endmodule\nmodule b; endmodule\nmodule a; endmodule",
        3,
        VerilogKind::DoubleName,
    ),
    (
        "module a; endmodule\nmodule\na; endmodule",
        3,
        VerilogKind::DoubleName,
    ),
    (
        "module a; endmodule\nmodule \\a ; endmodule",
        2,
        VerilogKind::DoubleName,
    ),
    (
        "module top (a,\na); input a; endmodule",
        2,
        VerilogKind::DoubleName,
    ),
    (
        "module top (input a,\na); endmodule",
        2,
        VerilogKind::DoubleName,
    ),
    (
        "module top (a,\nb); input a; endmodule",
        2,
        VerilogKind::UnknownNet,
    ),
    (
        "module top (\na); wire a; endmodule",
        2,
        VerilogKind::UnknownNet,
    ),
    (
        "module top (\na); supply0 a; endmodule",
        2,
        VerilogKind::UnknownNet,
    ),
    // names that are declared twice
    (
        "module top (a); input a; wire a;\nwire a; endmodule",
        2,
        VerilogKind::DoubleName,
    ),
    (
        "module top (a); wire a; input a; endmodule",
        0,
        VerilogKind::DoubleName,
    ),
    (
        "module top (a); input a; tri a; endmodule",
        0,
        VerilogKind::DoubleName,
    ),
    (
        "module top (input a); wire a; endmodule",
        0,
        VerilogKind::DoubleName,
    ),
    (
        "module top (input a); wire a;\ntri a; endmodule",
        2,
        VerilogKind::DoubleName,
    ),
    (
        "module top (a); output wire a; wire a; endmodule",
        0,
        VerilogKind::DoubleName,
    ),
    (
        "module top (a); output wire a; wire a;\nwire a; endmodule",
        2,
        VerilogKind::DoubleName,
    ),
    (
        "module top (a); input a;\ninput a; endmodule",
        2,
        VerilogKind::DoubleName,
    ),
    (
        "module top (a); input a;\noutput a; endmodule",
        2,
        VerilogKind::DoubleName,
    ),
    (
        "module top (a); input a;\nwire [1:0] a; endmodule",
        2,
        VerilogKind::DoubleName,
    ),
    (
        "module top (a); input [0:0] a; wire a; endmodule",
        0,
        VerilogKind::DoubleName,
    ),
    (
        "module top (a); input [3:2] a; wire [0:1] a; endmodule",
        0,
        VerilogKind::DoubleName,
    ),
    (
        "module top (a); input a;\nsupply0 a; endmodule",
        2,
        VerilogKind::DoubleName,
    ),
    (
        "module top (a); supply1 a;\ninput a; endmodule",
        2,
        VerilogKind::DoubleName,
    ),
    (
        "module top; wire a,\na; endmodule",
        2,
        VerilogKind::DoubleName,
    ),
    (
        "module top; wire a;\ntri a; endmodule",
        2,
        VerilogKind::DoubleName,
    ),
    (
        "module top; wire a;\nsupply1 a; endmodule",
        2,
        VerilogKind::DoubleName,
    ),
    (
        "module top; wire abc;\nwire \\abc ; endmodule",
        2,
        VerilogKind::DoubleName,
    ),
    (
        "module top; wire u; INV u (a), u (a), v (b), v (u); endmodule",
        0,
        VerilogKind::DoubleName,
    ),
    (
        "module a (a); input a; endmodule module b (a); input a; endmodule",
        0,
        VerilogKind::DoubleName,
    ),
];

#[test]
fn faults_of_names(rt: HostRuntime) {
    all_refused(&rt, rt.alloc(), &NAMES);
}
