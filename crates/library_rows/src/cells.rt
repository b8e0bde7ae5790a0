//! Cells as they stand in libraries, with what a reader of the rules counts by hand.

use crate::shown::show_text;
use sdc_base::NoMemory;
use std::alloc::Global;
use std::process::Abort;
use std::test::Fail;

/// Sees that a library's text means this.
pub fn means(rt: &impl Abort, alloc: Global, text: &str, wanted: &str) -> Result<(), NoMemory> {
    let shown = show_text(alloc, text)?;
    assert!(rt; shown.as_str() == wanted, "{text}: {shown}");
    Ok(())
}

const FIVE_CELLS: &str = "library (rows) { time_unit : \"1ns\";
cell (DFF) { ff (IQ, IQN) { clocked_on : \"CK\"; next_state : \"D\"; }
 pin (D) { direction : input;
  timing () { related_pin : \"CK\"; timing_type : setup_rising; }
  timing () { related_pin : \"CK\"; timing_type : hold_rising; } }
 pin (CK) { direction : input; }
 pin (Q) { direction : output; function : \"IQ\";
  timing () { related_pin : \"CK\"; timing_type : rising_edge; } } }
cell (BUF) { pin (A) { direction : input; }
 pin (Z) { direction : output; function : \"A\"; timing () { related_pin : \"A\"; timing_sense : positive_unate; } } }
cell (INV) { pin (A) { direction : input; }
 pin (Z) { direction : output; function : \"A'\"; timing () { related_pin : \"A\"; timing_sense : negative_unate; } } }
cell (AND2) { pin (A) { direction : input; } pin (B) { direction : input; }
 pin (Z) { direction : output; function : \"A B\"; timing () { related_pin : \"A B\"; timing_sense : positive_unate; } } }
cell (MUX2) { pin (A) { direction : input; } pin (B) { direction : input; } pin (S) { direction : input; }
 pin (Z) { direction : output; function : \"(A S') + (B S)\";
  timing () { related_pin : \"A B\"; timing_sense : positive_unate; }
  timing () { related_pin : \"S\"; timing_sense : non_unate; } } }
}
";

#[test]
fn five_cells(rt: HostRuntime) -> Result<(), Fail> {
    let wanted =
        "1000000 [DFF] D:Input CK:Input Q:Output 1>2 launch rr rf Setup 0 at 1 Rise Hold 0 at 1 Rise \
        [BUF] A:Input Z:Output = 0 0>1 rr ff \
        [INV] A:Input Z:Output = not 0 0>1 rf fr \
        [AND2] A:Input B:Input Z:Output = and 0 1 0>2 rr ff 1>2 rr ff \
        [MUX2] A:Input B:Input S:Input Z:Output = or and 0 not 2 and 1 2 \
        0>3 rr ff 1>3 rr ff 2>3 rr rf fr ff";
    means(&rt, rt.alloc(), FIVE_CELLS, wanted)?;
    Ok(())
}

/// What stands in a library, and its unit and cells.
static LIBRARIES: [(&str, &str); 54] = [
    // units
    ("", "1000000"),
    ("time_unit : 1ps;", "1000"),
    ("time_unit : \"10ps\";", "10000"),
    ("time_unit : \"100ps\"", "100000"),
    ("time_unit : 1ns", "1000000"),
    ("time_unit (1ps);", "1000000"),
    ("time_unit : 10ps; time_unit : \"100ps\";", "100000"),
    ("x () { time_unit : 1ps; }", "1000000"),
    (
        "time_unit : 1ps; } library (b) { time_unit : 1ps; cell (X) { }",
        "1000 [X]",
    ),
    // names of cells and pins
    ("cell () { }", "1000000 []"),
    ("cell (X, Y) { }", "1000000 [X]"),
    ("cell (\"X Y\") { }", "1000000 [X Y]"),
    ("cell (X);", "1000000"),
    ("x () { cell (X) { } }", "1000000"),
    (
        "cell (X) { } } library (b) { cell (Y) { }",
        "1000000 [X] [Y]",
    ),
    (
        "cell (X) { pin (A B, C) { } pin () { } }",
        "1000000 [X] A:Other B:Other C:Other",
    ),
    ("cell (X) { pin (\"A B\") { } }", "1000000 [X] A B:Other"),
    ("cell (X) { pin (D[1:0]) { } }", "1000000 [X] D[1:0]:Other"),
    ("cell (X) { test_cell () { pin (A) { } } }", "1000000 [X]"),
    // directions
    (
        "cell (X) { pin (A) { direction : inout; } }",
        "1000000 [X] A:Other",
    ),
    (
        "cell (X) { pin (A) { direction : \" input\"; } }",
        "1000000 [X] A:Other",
    ),
    (
        "cell (X) { pin (A) { direction (input); } }",
        "1000000 [X] A:Other",
    ),
    (
        "cell (X) { pin (A) { direction : output; direction : input } }",
        "1000000 [X] A:Input",
    ),
    // functions: what reads as one, a continued line and a comment in it, the last one, a state variable
    (
        "cell (X) { pin (A B) { direction : input; function : A B; } }",
        "1000000 [X] A:Input = and 0 1 B:Input = and 0 1",
    ),
    (
        "cell (X) { pin (A) { direction : input; } pin (Z) { function : A/**/0; } }",
        "1000000 [X] A:Input Z:Other = and 0 zero",
    ),
    (
        "cell (X) { pin (A) { direction : input; function : 0; function : \"A +\\\n1\"; } }",
        "1000000 [X] A:Input = or 0 one",
    ),
    (
        "cell (X) { pin (Y Z) { function : Y; } pin (A) { direction : input; function : !A; } }",
        "1000000 [X] Y:Other Z:Other A:Input = not 2",
    ),
    (
        "cell (X) { ff_bank (P, Q, 4) { } pin (A) { function : \"P Q\"; } }",
        "1000000 [X] A:Other",
    ),
    (
        "cell (X) { latch_bank (P, Q, 2) { } pin (A) { function : Q; } }",
        "1000000 [X] A:Other",
    ),
    (
        "cell (X) { pin (A) { direction : input; function (A); } }",
        "1000000 [X] A:Input",
    ),
    (
        "cell (X) { latch (P) { } pin (P) { direction : input; function : P; } }",
        "1000000 [X] P:Input",
    ),
    // arcs: united ones, one of each launch, pins without arcs, one into an input, a state variable, the first of two
    // pins of one name, the last related pins
    (
        "cell (X) { pin (A) { direction : input; } pin (Z) { direction : output; timing () { related_pin : A; timing_sense : positive_unate; } timing () { related_pin : A; timing_type : combinational_rise; timing_sense : negative_unate; } } }",
        "1000000 [X] A:Input Z:Output 0>1 rr fr ff",
    ),
    (
        "cell (X) { pin (A) { direction : input; } pin (Z) { direction : output; timing () { related_pin : A; timing_type : rising_edge; } timing () { related_pin : A; } timing () { related_pin : A; timing_type : falling_edge; } } }",
        "1000000 [X] A:Input Z:Output 0>1 launch rr rf fr ff 0>1 rr rf fr ff",
    ),
    (
        "cell (X) { pin (A) { direction : input; timing () { related_pin : Z; } } pin (Z) { timing () { related_pin : A; } timing () { related_pin : A; timing_type : setup_rising; } } }",
        "1000000 [X] A:Input Z:Other Setup 1 at 0 Rise",
    ),
    (
        "cell (X) { pin (A) { direction : input; timing () { related_pin : B; timing_sense : positive_unate; } } pin (B) { direction : input; } }",
        "1000000 [X] A:Input B:Input 1>0 rr ff",
    ),
    (
        "cell (X) { ff (P, Q) { } pin (Z) { direction : output; timing () { related_pin : \"P\tQ\"; } } }",
        "1000000 [X] Z:Output",
    ),
    (
        "cell (X) { pin (A) { direction : input; } pin (A) { direction : output; timing () { related_pin : A; } } }",
        "1000000 [X] A:Input A:Output 0>1 rr rf fr ff",
    ),
    (
        "cell (X) { pin (A B) { direction : input; } pin (Z) { direction : output; timing () { related_pin : A; related_pin : B; } } }",
        "1000000 [X] A:Input B:Input Z:Output 1>2 rr rf fr ff",
    ),
    (
        "cell (X) { pin (A B) { direction : input; } pin (Z) { direction : output; timing () { related_pin : \"A\nB\r\"; timing_type : combinational_rise; timing_sense : positive_unate; } } }",
        "1000000 [X] A:Input B:Input Z:Output 0>2 rr 1>2 rr",
    ),
    (
        "cell (X) { pin (Z) { direction : output; timing () { related_pin : \"B A\"; } timing () { } } pin (A B) { direction : input; } }",
        "1000000 [X] Z:Output A:Input B:Input 2>0 rr rf fr ff 1>0 rr rf fr ff",
    ),
    (
        "cell (X) { pin (A) { direction : input; } timing () { related_pin : A; } pin (Z) { direction : output; x () { timing () { related_pin : A; } } } }",
        "1000000 [X] A:Input Z:Output",
    ),
    // checks: equal ones once, one against a pin without arcs
    (
        "cell (X) { pin (C D) { direction : input; timing () { related_pin : C; timing_type : setup_rising; } timing () { related_pin : C; timing_type : recovery_rising; } } }",
        "1000000 [X] C:Input D:Input Setup 0 at 0 Rise Setup 1 at 0 Rise",
    ),
    (
        "cell (X) { pin (C) { } pin (D) { direction : input; timing () { related_pin : C; timing_type : hold_rising; } } }",
        "1000000 [X] C:Other D:Input Hold 1 at 0 Rise",
    ),
    // cells that are refused
    (
        "cell (X) { bus (D) { } pin (A) { } }",
        "1000000 [X refused]",
    ),
    ("cell (X) { bundle () { } }", "1000000 [X refused]"),
    ("cell (X) { bus (D); }", "1000000 [X]"),
    ("cell (X) { x () { bus (D) { } } }", "1000000 [X]"),
    (
        "cell (X) { pin (A B) { direction : input; } pin (Z) { direction : output; timing () { related_pin : \"A B\"; timing_type : rising_edge; } } }",
        "1000000 [X refused]",
    ),
    (
        "cell (X) { pin (A B C) { direction : input; timing () { related_pin : \"A B\"; timing_type : rising_edge; } } }",
        "1000000 [X] A:Input B:Input C:Input 0>0 launch rr rf 1>0 launch rr rf 0>1 launch rr rf 1>1 launch rr rf 0>2 launch rr rf 1>2 launch rr rf",
    ),
    (
        "cell (X) { pin (A B C D E F G H I J K) { direction : input; function : A B C D E F G H I J K; } }",
        "1000000 [X refused]",
    ),
    (
        "cell (X) { pin (A B C D E F G H I J K) { direction : input; } pin () { function : A B C D E F G H I J K; } }",
        "1000000 [X refused]",
    ),
    (
        "cell (X) { ff (P) { } pin (A B C D E F G H I J K) { direction : input; function : A B C D E F G H I J K P; } }",
        "1000000 [X refused]",
    ),
    (
        "cell (X) { pin (A B C D E F G H I J K) { direction : input; } pin (Y) { function : A B C D E F G H I J K; function : A; } }",
        "1000000 [X] A:Input B:Input C:Input D:Input E:Input F:Input G:Input H:Input I:Input J:Input K:Input Y:Other = 0",
    ),
    (
        "cell (X) { pin (A B C D E F G H I J) { direction : input; } pin (Y) { function : A^B^C^D^E^F^G^H^I^J; } }",
        "1000000 [X] A:Input B:Input C:Input D:Input E:Input F:Input G:Input H:Input I:Input J:Input Y:Other = xor xor xor xor xor xor xor xor xor 0 1 2 3 4 5 6 7 8 9",
    ),
];

#[test]
fn cells_of_libraries(rt: HostRuntime) -> Result<(), Fail> {
    for (inside, wanted) in LIBRARIES.iter() {
        let text = format!(in rt.alloc(); "library (a) {{ {inside} }}")?;
        means(&rt, rt.alloc(), text.as_str(), wanted)?;
    }
    Ok(())
}
