//! Texts of netlists that are refused for what they use, each with its line and its fault as a reader of the rules
//! counts them, and texts beside them that are taken.

use crate::refused::{all_refused, refused};
use source_types::VerilogKind;

/// What is used of nets, and the order of faults.
static USES: [(&str, u32, VerilogKind); 45] = [
    // selects
    (
        "module top; wire [3:0] a;\nINV u (a[4]); endmodule",
        2,
        VerilogKind::UnknownNet,
    ),
    (
        "module top; wire [3:0] a; INV u (a[3], a[0]); endmodule",
        0,
        VerilogKind::UnknownNet,
    ),
    (
        "module top; wire [3:1] a;\nINV u (a[0]); endmodule",
        2,
        VerilogKind::UnknownNet,
    ),
    (
        "module top; wire [0:3] a; INV u (a[3], a[0:2], a[2:0]); endmodule",
        0,
        VerilogKind::UnknownNet,
    ),
    (
        "module top; wire [3:0] a;\nINV u (a[4:0]); endmodule",
        2,
        VerilogKind::UnknownNet,
    ),
    (
        "module top; wire [3:0] a;\nINV u (a[0:4]); endmodule",
        2,
        VerilogKind::UnknownNet,
    ),
    (
        "module top; wire a;\nINV u (a[0]); endmodule",
        2,
        VerilogKind::UnknownNet,
    ),
    (
        "module top;\nINV u (b[0]); endmodule",
        2,
        VerilogKind::UnknownNet,
    ),
    (
        "module top; INV u (b),\nv (b[0]); endmodule",
        2,
        VerilogKind::UnknownNet,
    ),
    (
        "module top (a); input [1:0] a; wire [3:2] a; INV u (a[1:0]); endmodule",
        0,
        VerilogKind::UnknownNet,
    ),
    (
        "module top (a); wire [3:2] a; input [1:0] a;\nINV u (a[2]); endmodule",
        2,
        VerilogKind::UnknownNet,
    ),
    (
        "module top; INV u (a, a[3]); wire [3:0] a; endmodule",
        0,
        VerilogKind::UnknownNet,
    ),
    (
        "module top; wire [08:0_0] a; INV u (a[0_7], a[007]); endmodule",
        0,
        VerilogKind::UnknownNet,
    ),
    (
        "module top; wire [3:0] a;\nINV u (.A({b, a[5]})); endmodule",
        2,
        VerilogKind::UnknownNet,
    ),
    (
        "module top; wire [3:0] a;\nassign a[4] = b; endmodule",
        2,
        VerilogKind::UnknownNet,
    ),
    // numbers of selects past every range
    (
        "module top; wire [999999:0] a;\nINV u (a[1000000]); endmodule",
        2,
        VerilogKind::UnknownNet,
    ),
    (
        "module top; wire [3:0] a;\nINV u (a[4294967296]); endmodule",
        2,
        VerilogKind::UnknownNet,
    ),
    (
        "module top; wire [3:0] a;\nINV u (a[99999999999]); endmodule",
        2,
        VerilogKind::UnknownNet,
    ),
    (
        "module top; wire [3:0] a;\nINV u (a[3:99999999999999999999]); endmodule",
        2,
        VerilogKind::UnknownNet,
    ),
    (
        "module top; wire [3:0] a;\nINV u (a[18446744073709551616:0]); endmodule",
        2,
        VerilogKind::UnknownNet,
    ),
    (
        "module top; wire [3:0] a;\nassign a[4294967297] = b; endmodule",
        2,
        VerilogKind::UnknownNet,
    ),
    (
        "module top; wire [3:0] a;\nassign a = {a[3:1], a[4294967296]}; endmodule",
        2,
        VerilogKind::UnknownNet,
    ),
    (
        "module top; wire a;\nINV u (a[4294967296]); endmodule",
        2,
        VerilogKind::UnknownNet,
    ),
    (
        "module top;\nINV u (.A(b[99999999999])); endmodule",
        2,
        VerilogKind::UnknownNet,
    ),
    // widths
    (
        "module top; wire [3:0] a; assign a = {2'b01, a[1:0]}; endmodule",
        0,
        VerilogKind::WidthMismatch,
    ),
    (
        "module top; wire [3:0] a; assign a = {2'b01,\na[1:0], b}; endmodule",
        1,
        VerilogKind::WidthMismatch,
    ),
    (
        "module top; wire [3:0] a; assign {a, b} = 5'b0; endmodule",
        0,
        VerilogKind::WidthMismatch,
    ),
    (
        "module top; wire [1:0] a;\nassign\na = b; endmodule",
        2,
        VerilogKind::WidthMismatch,
    ),
    (
        "module top;\nassign a = 2'b0; endmodule",
        2,
        VerilogKind::WidthMismatch,
    ),
    (
        "module top; wire [1:0] a;\nassign b =\na; endmodule",
        2,
        VerilogKind::WidthMismatch,
    ),
    (
        "module top; wire [1:0] a;\nassign b = c,\na = b; endmodule",
        2,
        VerilogKind::WidthMismatch,
    ),
    (
        "module top; wire [7:4] a; wire [0:3] b; assign a = b, a[6:4] = b[2:0]; endmodule",
        0,
        VerilogKind::WidthMismatch,
    ),
    // an unknown net and a width in one assignment
    (
        "module top; wire [1:0] a;\nassign a =\na[2]; endmodule",
        3,
        VerilogKind::UnknownNet,
    ),
    (
        "module top; wire [1:0] a;\nassign {b, a[2]}\n= a[0]; endmodule",
        2,
        VerilogKind::UnknownNet,
    ),
    (
        "module top; wire [1:0] a;\nassign a = b,\nb = a[2]; endmodule",
        2,
        VerilogKind::WidthMismatch,
    ),
    (
        "module top; wire [1:0] a;\nassign b = a[0],\na = a[2]; endmodule",
        3,
        VerilogKind::UnknownNet,
    ),
    // which comes first
    (
        "module top; wire [1:0] a;\nassign b = a;\nassign b = a[2]; endmodule",
        2,
        VerilogKind::WidthMismatch,
    ),
    (
        "module top (a, b); inout a; endmodule",
        1,
        VerilogKind::UnknownNet,
    ),
    (
        "module top (a); inout a; wire b; wire b; endmodule",
        1,
        VerilogKind::InoutPort,
    ),
    (
        "module top (a); wire b; wire b; inout a; endmodule",
        1,
        VerilogKind::DoubleName,
    ),
    (
        "module top; assign a = b[0]; wire b, b; endmodule",
        1,
        VerilogKind::UnknownNet,
    ),
    (
        "module top; assign a = 2'b0; INV u (b[0]); endmodule",
        1,
        VerilogKind::WidthMismatch,
    ),
    (
        "module top (p); inout p; endmodule\nmodule top; endmodule",
        1,
        VerilogKind::InoutPort,
    ),
    (
        "module top (p); inout p; endmodule\n)",
        2,
        VerilogKind::VerilogForm,
    ),
    (
        "module top; wire a; wire a;\n/*",
        2,
        VerilogKind::VerilogForm,
    ),
];

#[test]
fn faults_of_uses(rt: HostRuntime) {
    all_refused(&rt, rt.alloc(), &USES);
}

static NO_TEXTS: [(&[u8], u32); 5] = [
    (b"\xff", 1),
    (b"module a; endmodule\n\n\xc3", 3),
    (b"\n\xc3(", 2),
    (b"endmodule\n\xff\n", 2),
    (b"module top; wire a; wire a;\n// \x80", 2),
];

#[test]
fn bytes_that_are_no_text(rt: HostRuntime) {
    for (bytes, line) in NO_TEXTS.iter() {
        refused(&rt, rt.alloc(), bytes, *line, VerilogKind::NotText);
    }
}

static TWO_REGISTERS: &str =
    "module top (clk, d, q); input clk, d; output q; wire n1; DFF r1 (.D(d), .CK(clk), .Q(n1)); DFF r2 (.D(n1), .CK(clk), .Q(q)); endmodule";

#[test]
fn fronts_of_a_netlist(rt: HostRuntime) {
    let bytes = TWO_REGISTERS.as_bytes();
    refused(&rt, rt.alloc(), b"", 0, VerilogKind::VerilogForm);
    for len in 1..bytes.len() {
        let (front, _) = bytes.split_at(len);
        refused(&rt, rt.alloc(), front, 1, VerilogKind::VerilogForm);
    }
    refused(&rt, rt.alloc(), bytes, 0, VerilogKind::VerilogForm);
}
