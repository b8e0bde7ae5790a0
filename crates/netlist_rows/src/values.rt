//! Netlists with what they mean, as a reader of the rules counts it by hand.

use crate::shown::show_text;
use sdc_base::NoMemory;
use source_types::{Bit, Module};
use std::alloc::Global;
use std::process::Abort;
use std::test::Fail;
use verilog_net::read_verilog;

/// The value of a constant bit as a letter, and `n` for a bit of a net.
fn letter(bit: &Bit) -> char {
    match bit {
        Bit::Net { .. } => 'n',
        Bit::Constant(Some(true)) => '1',
        Bit::Constant(Some(false)) => '0',
        Bit::Constant(None) => 'x',
    }
}

/// Whether the right side of the first assignment of a module has these bits.
fn has_bits(module: &Module, bits: &str) -> bool {
    match module.assigns.as_slice() {
        [assign, ..] => assign.right.iter().map(letter).eq(bits.chars()),
        [] => false,
    }
}

/// Sees that a constant has these bits, where it is assigned to as many.
fn assigned(rt: &impl Abort, alloc: Global, constant: &str, bits: &str) -> Result<(), NoMemory> {
    let text = format!(in alloc;
        "module m; wire [{}:1] a; assign a = {constant}; endmodule",
        bits.len()
    )?;
    let holds = match read_verilog(alloc, text.as_bytes()) {
        Ok(modules) => modules.iter().all(|module| has_bits(module, bits)),
        Err(_) => false,
    };
    assert!(rt; holds, "{text}");
    Ok(())
}

static CONSTANTS: [(&str, &str); 39] = [
    // base two
    ("4'b0101", "0101"),
    ("4'B1", "0001"),
    ("4'b1_1_0_1_1", "1011"),
    ("2'b10_01", "01"),
    ("4'b1_", "0001"),
    ("1'b0", "0"),
    ("4'bx1", "xxx1"),
    ("4'bZ1", "xxx1"),
    ("4'b?1", "xxx1"),
    ("4'b1z", "001x"),
    ("4'b1x?Z", "1xxx"),
    ("6'b0x", "00000x"),
    ("1'bx", "x"),
    // base sixteen
    ("8'hA?", "1010xxxx"),
    ("8'hx", "xxxxxxxx"),
    ("12'hZ5", "xxxxxxxx0101"),
    ("6'hx1", "xx0001"),
    ("3'hf", "111"),
    ("8'H5", "00000101"),
    ("16'hBe_eF", "1011111011101111"),
    ("5'h1F", "11111"),
    (
        "64'hFEDCBA9876543210",
        "1111111011011100101110101001100001110110010101000011001000010000",
    ),
    (
        "64'hF",
        "0000000000000000000000000000000000000000000000000000000000001111",
    ),
    // base ten
    ("8'd200", "11001000"),
    ("4'd17", "0001"),
    ("5'D0_9", "01001"),
    ("8'd2_5_5", "11111111"),
    ("1'd2", "0"),
    ("10'd1000", "1111101000"),
    ("4'dz", "xxxx"),
    ("3'dX", "xxx"),
    ("3'd?", "xxx"),
    ("4'dx_", "xxxx"),
    ("4'd18446744073709551617", "0001"),
    (
        "64'd18446744073709551615",
        "1111111111111111111111111111111111111111111111111111111111111111",
    ),
    (
        "64'd18446744073709551616",
        "0000000000000000000000000000000000000000000000000000000000000000",
    ),
    // blanks between the parts
    ("4 'b 01", "0001"),
    ("4\n'h\ta", "1010"),
    ("4\r'd  7", "0111"),
];

#[test]
fn bits_of_constants(rt: HostRuntime) -> Result<(), Fail> {
    for (constant, bits) in CONSTANTS.iter() {
        assigned(&rt, rt.alloc(), constant, bits)?;
    }
    Ok(())
}

/// Sees that a text means this.
fn means(rt: &impl Abort, alloc: Global, text: &str, wanted: &str) -> Result<(), NoMemory> {
    let shown = show_text(alloc, text)?;
    assert!(rt; shown.as_str() == wanted, "{text}: {shown}");
    Ok(())
}

static MODULES: [(&str, &str); 29] = [
    // modules
    ("", ""),
    ("module m; endmodule", "[m 1]"),
    ("`define X /*\nmodule m; endmodule", "[m 2]"),
    (
        "module\nm;\nX\nu (a); endmodule",
        "[m 2] net a cell X u 4 ( a)",
    ),
    (
        "module a; endmodule\nmodule b (p); output p; a u (); endmodule",
        "[a 1][b 2] port p:Output net p cell a u 2",
    ),
    // ports
    (
        "module m (input wire a, b, output [1:0] c); wire [2:1] c; wire d; endmodule",
        "[m 1] port a:Input port b:Input port c:Output[1:0] net a net b net c[1:0] net d",
    ),
    (
        "module m (a); wire [3:2] a; input [1:0] a; endmodule",
        "[m 1] port a:Input[1:0] net a[1:0]",
    ),
    (
        "module m (a); input [1:0] a; tri [3:2] a; endmodule",
        "[m 1] port a:Input[1:0] net a[1:0]",
    ),
    (
        "module m (a, b); X u (c, b); input a; output b; endmodule",
        "[m 1] port a:Input port b:Output net a net b net c cell X u 1 ( c) ( b)",
    ),
    // nets
    (
        "module m (b, a); output a; input [0:3] b; tri t; supply0 g; supply1 [1:0] p; endmodule",
        "[m 1] port b:Input[0:3] port a:Output net b[0:3] net a net t net g=0 net p[1:0]=1",
    ),
    (
        "module m; X u (b, a); supply1 a; endmodule",
        "[m 1] net b net a=1 cell X u 1 ( b) ( a)",
    ),
    (
        "module m; X u (a, b); wire a; endmodule",
        "[m 1] net b net a cell X u 1 ( a) ( b)",
    ),
    (
        "module m; X u (a, b), v (b, c); assign d = a; endmodule",
        "[m 1] net a net b net c net d cell X u 1 ( a) ( b) cell X v 1 ( b) ( c) assign d = a",
    ),
    (
        "module m; X u (\\a+b ); endmodule",
        "[m 1] net a+b cell X u 1 ( a+b)",
    ),
    (
        "module m; wire \\a+b , \\c[0]\t, \\d ; X u (d, \\c[0] ); endmodule",
        "[m 1] net a+b net c[0] net d cell X u 1 ( d) ( c[0])",
    ),
    ("module m; wire \\ ; endmodule", "[m 1] net "),
    // connections
    (
        "module m; X u (a, ), v (,), w (); endmodule",
        "[m 1] net a cell X u 1 ( a) () cell X v 1 () () cell X w 1",
    ),
    (
        "module m; X x (.A(), .B({a, 2'b1x})); endmodule",
        "[m 1] net a cell X x 1 .A() .B( a 1 x)",
    ),
    (
        "module m; X u (.\\a+ (b), .B(1'b1)); endmodule",
        "[m 1] net b cell X u 1 .a+( b) .B( 1)",
    ),
    (
        "module m; wire u; X u (u),\nu (u); endmodule",
        "[m 1] net u cell X u 1 ( u) cell X u 2 ( u)",
    ),
    (
        "module m; supply0 g; AND u (a, g, 1'b1); endmodule",
        "[m 1] net g=0 net a cell AND u 1 ( a) ( g) ( 1)",
    ),
    // assignments
    (
        "module m; assign a = b, c = d; endmodule",
        "[m 1] net a net b net c net d assign a = b assign c = d",
    ),
    (
        "module m; wire [3:0] a; assign a[3:2] = {a[0], a[1]}; endmodule",
        "[m 1] net a[3:0] assign a[3] a[2] = a[0] a[1]",
    ),
    (
        "module m; wire [3:0] a; assign a[0:1] = a[3:2]; endmodule",
        "[m 1] net a[3:0] assign a[0] a[1] = a[3] a[2]",
    ),
    (
        "module m; wire [0:2] a; wire [2:0] b; assign a = b; endmodule",
        "[m 1] net a[0:2] net b[2:0] assign a[0] a[1] a[2] = b[2] b[1] b[0]",
    ),
    (
        "module m; wire [5:5] a; assign b = a; endmodule",
        "[m 1] net a[5:5] net b assign b = a[5]",
    ),
    (
        "module m; wire [1:0] a; assign {a, b} = {{c}, {{2'b01}}}; endmodule",
        "[m 1] net a[1:0] net b net c assign a[1] a[0] b = c 0 1",
    ),
    (
        "module m; wire [1:0] a; wire b; assign {a, b} = {1'b1, {b, 1'b0}}; endmodule",
        "[m 1] net a[1:0] net b assign a[1] a[0] b = 1 b 0",
    ),
    // a whole netlist
    (
        "module top (clk, d, q); input clk, d; output q; wire n1; DFF r1 (.D(d), .CK(clk), .Q(n1)); DFF r2 (.D(n1), .CK(clk), .Q(q)); endmodule",
        "[top 1] port clk:Input port d:Input port q:Output net clk net d net q net n1 cell DFF r1 1 .D( d) .CK( clk) .Q( n1) cell DFF r2 1 .D( n1) .CK( clk) .Q( q)",
    ),
];

#[test]
fn modules_of_netlists(rt: HostRuntime) -> Result<(), Fail> {
    for (text, wanted) in MODULES.iter() {
        means(&rt, rt.alloc(), text, wanted)?;
    }
    Ok(())
}
