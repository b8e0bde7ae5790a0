//! Texts of netlists with syntax errors, each with the line of its first one, and texts beside them that do not.

use crate::refused::broken;

/// Modules, their ports and their instances.
static MODULES: [(&str, u32); 64] = [
    // whole texts
    ("", 0),
    ("\n// nothing\n", 0),
    ("/* nothing */ (* nothing *) `nothing", 0),
    ("module top; endmodule", 0),
    ("module top; endmodule module top2; endmodule\n", 0),
    ("module top;\n", 1),
    ("module top (clk);\ninput clk;\nDFF \\r1", 3),
    ("module top; endmodule\n;", 2),
    ("endmodule\n", 1),
    // keywords, which are no names
    ("module\nalways; endmodule", 2),
    ("module top;\nreg a; endmodule", 2),
    ("module top;\nand g (a, b, c); endmodule", 2),
    ("module top;\nbuf b (a, c); endmodule", 2),
    ("module top; wire\nxor; endmodule", 2),
    ("module top; BUF b (a, c); endmodule", 0),
    (
        "module \\and ; wire \\reg ; \\buf \\buf (.\\or (\\xor )); endmodule",
        0,
    ),
    // ports
    ("module top (); endmodule", 0),
    ("module top (a, b); input a; output b; endmodule", 0),
    ("module top (input a, b, output wire [3:0] c); endmodule", 0),
    (
        "module top (a, b); input wire a; output tri [1:0] b; endmodule",
        0,
    ),
    (
        "module top (input wire a, output tri [1:0] b); endmodule",
        0,
    ),
    ("module top (a,\n); input a; endmodule", 2),
    ("module top (a);\ninput\nsigned a; endmodule", 3),
    ("module top (a);\noutput\nreg a; endmodule", 3),
    ("module top (input\nsigned a); endmodule", 2),
    ("module top (output\nreg a); endmodule", 2),
    ("module top (a,\ninput b); endmodule", 2),
    ("module top (\nwire a); endmodule", 2),
    ("module top (\n.a(b)); endmodule", 2),
    ("module top (\n{a, b}); endmodule", 2),
    ("module top (a\n[0]); endmodule", 2),
    ("module top\n#(parameter p = 1) (a); endmodule", 2),
    // port declarations of names that are not listed
    ("module top (a); input a,\nb; endmodule", 2),
    ("module top (a); input\nb; endmodule", 2),
    ("module top (a); inout\nb; endmodule", 2),
    ("module top (a); input wire [1:0]\nb; endmodule", 2),
    ("module top (a); input a; wire b; endmodule", 0),
    ("module top;\ninput\na; endmodule", 2),
    ("module top;\noutput\na; endmodule", 2),
    ("module top;\ninout\na; endmodule", 2),
    ("module top (input a);\ninput\na; endmodule", 2),
    ("module top (input a);\ninout\nb; endmodule", 2),
    // ranges
    ("module top (a); input [3:0] a; wire [3:0] a; endmodule", 0),
    ("module top (a); input [1000000\n:0] a; endmodule", 1),
    ("module top; wire [0:\n1000000] a; endmodule", 2),
    ("module top (a); input [999999:0] a; endmodule", 0),
    ("module top; wire [0_999_999:0000] a; endmodule", 0),
    ("module top; wire [3\n] a; endmodule", 2),
    ("module top; wire [a\n:0] b; endmodule", 1),
    ("module top; wire [1:0] a\n[1:0]; endmodule", 2),
    // instances
    ("module top; INV u (a, b); endmodule", 0),
    ("module top; INV u (.A(a), .Y(b)), v (a, , b); endmodule", 0),
    ("module top; INV u (); endmodule", 0),
    ("module top; INV u (,), v (.A()); endmodule", 0),
    ("module top; INV u (.A(a),\nb); endmodule", 2),
    ("module top; INV u (a,\n.Y(b)); endmodule", 2),
    ("module top; INV u\n; endmodule", 2),
    ("module top; INV\n(a); endmodule", 2),
    ("module top; INV u\n[1:0] (a); endmodule", 2),
    ("module top; INV\n#(1) u (a); endmodule", 2),
    ("module top; INV u (.A\n); endmodule", 2),
    ("module top; INV u (.\n*); endmodule", 2),
    ("module top; INV u (.A(a)\n.Y(b)); endmodule", 2),
    ("module top; INV u (a), \nINV v (a); endmodule", 2),
];

#[test]
fn errors_of_modules(rt: HostRuntime) {
    broken(&rt, rt.alloc(), &MODULES);
}
