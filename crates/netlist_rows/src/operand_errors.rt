//! Texts of netlists with syntax errors within statements, each with the line of its first one, and texts beside
//! them
//! that do not.

use crate::refused::broken;

/// What is connected and assigned.
static OPERANDS: [(&str, u32); 43] = [
    // selects and concatenations
    (
        "module top; wire [3:0] a; INV u (a[2], a[3:1], {a, 2'b01}); endmodule",
        0,
    ),
    ("module top; INV u ({\n}); endmodule", 2),
    ("module top; assign a = {\n}; endmodule", 2),
    ("module top; assign {\n} = a; endmodule", 2),
    ("module top; assign a = {2\n{b}}; endmodule", 2),
    ("module top; wire [3:0] a; INV u (a[\nb]); endmodule", 2),
    ("module top; wire [3:0] a; INV u (a[1:\n]); endmodule", 2),
    ("module top; wire [3:0] a; INV u (a[1]\n[0]); endmodule", 2),
    ("module top; INV u ({a,\n}); endmodule", 2),
    ("module top; INV u (a\n+ b); endmodule", 2),
    (
        "module top; assign a = {{{{{{{{{{{{{{{{{{{{{{{{{{{{{{{{{{{{{{{{{{{{{{{{{{{{{{{{{{{{{{{{{{{{{{{{{{{{{{{{{{{{{{{{{{{{{{{{{{{{b}}}}}}}}}}}}}}}}}}}}}}}}}}}}}}}}}}}}}}}}}}}}}}}}}}}}}}}}}}}}}}}}}}}}}}}}}}}}}}}}}}}}}}}}}}}}}}}}}}}}; endmodule",
        0,
    ),
    (
        "module top; assign a = {{{{{{{{{{{{{{{{{{{{{{{{{{{{{{{{{{{{{{{{{{{{{{{{{{{{{{{{{{{{{{{{{{{{{{{{{{{{{{{{{{{{{{{{{{{{{{{{{{{{\n{b}}}}}}}}}}}}}}}}}}}}}}}}}}}}}}}}}}}}}}}}}}}}}}}}}}}}}}}}}}}}}}}}}}}}}}}}}}}}}}}}}}}}}}}}}}}}}}}}}}}}}; endmodule",
        2,
    ),
    // constants
    ("module top; INV u (65\n'b0); endmodule", 1),
    ("module top; INV u (64'b0); endmodule", 0),
    ("module top; INV u (0\n'b0); endmodule", 1),
    ("module top; INV u (04\n'b0); endmodule", 1),
    ("module top; INV u (4 'b 0\n, 4\n'h\t0); endmodule", 0),
    ("module top; INV u (4'b2\n); endmodule", 1),
    ("module top; INV u (4'b\n); endmodule", 2),
    ("module top; INV u (4'hxZ?_f); endmodule", 0),
    ("module top; INV u (4'h\ng); endmodule", 2),
    ("module top; INV u (8'd2_5_5); endmodule", 0),
    ("module top; INV u (8'd1x\n); endmodule", 1),
    ("module top; INV u (8'dx1\n); endmodule", 1),
    ("module top; INV u (8'd\na); endmodule", 2),
    ("module top; INV u (4'b\n_1); endmodule", 2),
    ("module top; INV u (4'h\n_1); endmodule", 2),
    ("module top; INV u (4'd\n_1); endmodule", 2),
    ("module top; INV u (\n'b0); endmodule", 2),
    ("module top; INV u (5\n); endmodule", 2),
    ("module top; INV u (4\n'o7); endmodule", 2),
    ("module top; INV u (4\n'sb1); endmodule", 2),
    ("module top; INV u (4'\nb1); endmodule", 1),
    // assignments
    ("module top; assign a = b; endmodule", 0),
    ("module top; assign {a, b} = 2'b01, c = d; endmodule", 0),
    ("module top; assign 1\n= a; endmodule", 1),
    ("module top; assign\n1'b1 = a; endmodule", 2),
    ("module top; assign {a,\n1'b0} = b; endmodule", 2),
    ("module top; assign {a, {b,\n1'bx}} = c; endmodule", 2),
    ("module top; wire a\n= b; endmodule", 2),
    ("module top; assign a\n; endmodule", 2),
    ("module top; assign a = b,\n; endmodule", 2),
    ("module top; assign a =\n~b; endmodule", 2),
];

#[test]
fn errors_of_operands(rt: HostRuntime) {
    broken(&rt, rt.alloc(), &OPERANDS);
}

/// What is passed over, and names.
static BYTES: [(&str, u32); 25] = [
    // what is passed over
    (
        "`timescale 1ns/1ps\nmodule top; (* keep *) wire a; /* x\n*/ endmodule",
        0,
    ),
    ("module top; endmodule\n/* x\n", 2),
    ("module top; endmodule\n(* x\n\n", 3),
    ("module top; endmodule /*/\n", 1),
    ("module top; endmodule (*)\n", 1),
    (
        "module (* a *) top (* b *) ; INV (* c *) u (* d *) ( (* e *) a (* f *) ) (* g *) ; endmodule",
        0,
    ),
    ("(* a = \"*)\nmodule top; endmodule", 0),
    ("(* a = \"*)\" *)\nmodule top; endmodule", 1),
    ("(* a /* *) module top; /* (* */ endmodule // */ (*", 0),
    ("module top; wire `x ; ; ;\na; endmodule", 0),
    ("// `x\nmodule top; /* ` */ endmodule", 0),
    ("`define X \\\nmodule top; endmodule", 0),
    ("`define X \\\n; endmodule", 2),
    ("`define X /*\nmodule top; endmodule", 0),
    ("module top;\n\u{c}endmodule", 2),
    ("module\ttop\r\n;endmodule", 0),
    // names
    ("module \\a+b ; wire \\c[0] ; endmodule", 0),
    ("module top; wire a$b_1; endmodule", 0),
    ("module top; wire\n$a; endmodule", 2),
    ("module top; wire\n1a; endmodule", 2),
    ("module top; wire \u{e9}; endmodule", 1),
    ("module top; wire \\\u{e9} ; endmodule", 0),
    ("module top; wire \\ , \\;\t, \\//\r, \\,\n; endmodule", 0),
    ("module top; wire \\a;\n endmodule", 2),
    (
        "module top; supply0 g; supply1 [1:0] p; tri t; endmodule",
        0,
    ),
];

#[test]
fn errors_of_bytes(rt: HostRuntime) {
    broken(&rt, rt.alloc(), &BYTES);
}
