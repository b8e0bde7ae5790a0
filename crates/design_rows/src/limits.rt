//! Designs at the limits of their size, and such with one more pin, net or level, or with too many instances, which are
//! refused without being made.

use crate::shown::{Part, ROW_LIBRARY, shows};
use sdc_base::NoMemory;
use std::alloc::Global;
use std::test::Fail;

/// The text of a module with two instances of another one.
fn doubled(alloc: Global, name: &str, level: u32) -> Result<String, NoMemory> {
    let text = format!(in alloc; "module {name}; m{level} a (); m{level} b (); endmodule ")?;
    Ok(text)
}

/// A top and modules m1 up to a last one, each with two instances of the next, and with what stands in the last.
fn doubling(alloc: Global, top: &str, last: u32, inside: &str) -> Result<String, NoMemory> {
    let mut text = String::from_str(alloc, top)?;
    for level in 1..last {
        let name = format!(in alloc; "m{level}")?;
        let module = doubled(alloc, name.as_str(), level + 1)?;
        text.push_str(module.as_str())?;
    }
    let module = format!(in alloc; "module m{last}; {inside} endmodule")?;
    text.push_str(module.as_str())?;
    Ok(text)
}

/// Tops over such modules, the last one's number, what stands in it, and what comes of them.
static DOUBLINGS: [(&str, u32, &str, &str); 6] = [
    (
        "module top; m1 a (); m1 b (); endmodule ",
        18,
        "BUF u ();",
        " top 1000000 524288 262144 0 5",
    ),
    (
        "module top; m1 a (); m1 b (); endmodule ",
        19,
        "BUF u ();",
        "0: TooMany",
    ),
    // instances of modules count: 2,097,150 of them and 4,194,302
    (
        "module top; m1 a (); m1 b (); endmodule ",
        20,
        "",
        " top 1000000 0 0 0 5",
    ),
    (
        "module top; m1 a (); m1 b (); endmodule ",
        21,
        "",
        "0: TooMany",
    ),
    // a fault of an instance stands before, one of a net after
    (
        "module top; m1 a (); m1 b ();\nNAND9 c (); endmodule ",
        19,
        "BUF u ();",
        "2: UnknownModule",
    ),
    (
        "module top; wire \\a*b ; m1 a (); m1 b (); endmodule ",
        19,
        "BUF u ();",
        "0: TooMany",
    ),
];

#[test]
fn instances_doubled(rt: HostRuntime) -> Result<(), Fail> {
    for (top, last, inside, wanted) in DOUBLINGS.iter() {
        let netlist = doubling(rt.alloc(), top, *last, inside)?;
        shows(
            &rt,
            rt.alloc(),
            Part::Counts,
            ROW_LIBRARY,
            netlist.as_str(),
            wanted,
        )?;
    }
    Ok(())
}

/// A top and modules c1 up to a last one, each with one instance of the next, and with what stands in the last, on the
/// level after the last one's number.
fn chain(alloc: Global, last: u32, inside: &str) -> Result<String, NoMemory> {
    let mut text = String::from_str(alloc, "module top; c1 u (); endmodule ")?;
    for level in 1..last {
        let module = format!(in alloc; "module c{level}; c{} u (); endmodule ", level + 1)?;
        text.push_str(module.as_str())?;
    }
    let module = format!(in alloc; "module c{last}; {inside} endmodule")?;
    text.push_str(module.as_str())?;
    Ok(text)
}

/// The last one's number, what stands in it, and what comes of such modules.
static CHAINS: [(u32, &str, &str); 4] = [
    (99, "BUF u ();", " top 1000000 2 1 0 5"),
    (100, "BUF u ();", "0: TooMany"),
    // levels of modules without a cell count as well
    (100, "", " top 1000000 0 0 0 5"),
    (101, "", "0: TooMany"),
];

#[test]
fn levels(rt: HostRuntime) -> Result<(), Fail> {
    for (last, inside, wanted) in CHAINS.iter() {
        let netlist = chain(rt.alloc(), *last, inside)?;
        shows(
            &rt,
            rt.alloc(),
            Part::Counts,
            ROW_LIBRARY,
            netlist.as_str(),
            wanted,
        )?;
    }
    Ok(())
}

/// Netlists with as many pins or nets as may be, or with one more, and what comes of them.
static SIZES: [(&str, &str); 5] = [
    (
        "module top (a); input [999999:0] a; endmodule",
        " top 1000000 1000000 0 1000000 5",
    ),
    (
        "module top (a, b); input [999999:0] a; input b; endmodule",
        "0: TooMany",
    ),
    // pins of ports and of cells count together
    (
        "module top (a); input [999998:0] a; BUF b (); endmodule",
        "0: TooMany",
    ),
    (
        "module top; wire [999999:0] a, b, c, d; endmodule",
        " top 1000000 0 0 4000000 5",
    ),
    (
        "module top; wire [999999:0] a, b, c, d; wire e; endmodule",
        "0: TooMany",
    ),
];

#[test]
fn pins_and_nets(rt: HostRuntime) -> Result<(), Fail> {
    for (netlist, wanted) in SIZES.iter() {
        shows(&rt, rt.alloc(), Part::Counts, ROW_LIBRARY, netlist, wanted)?;
    }
    Ok(())
}
