//! Flat designs as short texts, for tests.

use flat_design::flatten;
use lib_cells::read_lib;
use library_laws::read_libraries_can_be_used;
use netlist_laws::read_netlists_can_be_flattened;
use sdc_base::{NoMemory, Stop, Text};
use std::alloc::Global;
use std::process::Abort;
use timing_types::{Design, Source};
use verilog_net::read_verilog;

/// The library of the rows: a register, a buffer, an inverter, an and, and a multiplexer.
pub const ROW_LIBRARY: &str = "library (rows) { time_unit : \"1ns\";
cell (DFF) { ff (IQ, IQN) { clocked_on : \"CK\"; next_state : \"D\"; }
 pin (D) { direction : input;
  timing () { related_pin : \"CK\"; timing_type : setup_rising; }
  timing () { related_pin : \"CK\"; timing_type : hold_rising; } }
 pin (CK) { direction : input; }
 pin (Q) { direction : output; function : \"IQ\";
  timing () { related_pin : \"CK\"; timing_type : rising_edge; } } }
cell (BUF) { pin (A) { direction : input; }
 pin (Z) { direction : output; function : \"A\"; timing () { related_pin : \"A\"; timing_sense : positive_unate; } } }
cell (INV) { pin (A) { direction : input; }
 pin (Z) { direction : output; function : \"A'\"; timing () { related_pin : \"A\"; timing_sense : negative_unate; } } }
cell (AND2) { pin (A) { direction : input; } pin (B) { direction : input; }
 pin (Z) { direction : output; function : \"A B\"; timing () { related_pin : \"A B\"; timing_sense : positive_unate; } } }
cell (MUX2) { pin (A) { direction : input; } pin (B) { direction : input; } pin (S) { direction : input; }
 pin (Z) { direction : output; function : \"(A S') + (B S)\";
  timing () { related_pin : \"A B\"; timing_sense : positive_unate; }
  timing () { related_pin : \"S\"; timing_sense : non_unate; } } }
}
";

/// What of a design is shown: its pins with their drivers, its cells with their kinds and pins, its nets with their
/// sources, or how many of each there are.
#[derive(Clone, Copy)]
pub enum Part {
    Pins,
    Cells,
    Nets,
    Counts,
}

/// The name of the pin at a place.
fn pin_name(design: &Design, place: u32) -> &str {
    match design.pins.get(place as usize) {
        Some(pin) => pin.name.as_str(),
        None => "nowhere",
    }
}

/// A name with what drives it.
fn show_driven(
    shown: &mut String,
    design: &Design,
    name: &str,
    driver: Source,
) -> Result<(), NoMemory> {
    shown.push_str(" ")?;
    shown.push_str(name)?;
    match driver {
        Source::Nothing => {}
        Source::Zero => shown.push_str("=0")?,
        Source::One => shown.push_str("=1")?,
        Source::Pin(pin) => {
            shown.push_str("=")?;
            shown.push_str(pin_name(design, pin.0))?;
        }
    }
    Ok(())
}

/// The pins in order, each with what drives it.
fn show_pins(alloc: Global, design: &Design) -> Result<String, NoMemory> {
    let mut shown = String::new(alloc);
    for pin in design.pins.as_slice() {
        show_driven(&mut shown, design, pin.name.as_str(), pin.driver)?;
    }
    Ok(shown)
}

/// The nets in order, each with its source.
fn show_nets(alloc: Global, design: &Design) -> Result<String, NoMemory> {
    let mut shown = String::new(alloc);
    for net in design.nets.as_slice() {
        show_driven(&mut shown, design, net.name.as_str(), net.source)?;
    }
    Ok(shown)
}

/// The name of the library cell at a place.
fn kind_name(design: &Design, place: u32) -> &str {
    match design.kinds.get(place as usize) {
        Some(kind) => kind.name.as_str(),
        None => "nothing",
    }
}

/// The cells in order, each with its library cell, the place of its first pin and the number of its pins.
fn show_cells(alloc: Global, design: &Design) -> Result<String, NoMemory> {
    let mut shown = String::new(alloc);
    for cell in design.cells.as_slice() {
        let kind = kind_name(design, cell.kind);
        let text = format!(in alloc;
            " {}:{kind} {}+{}",
            cell.name.as_str(),
            cell.first.0,
            cell.count
        )?;
        shown.push_str(text.as_str())?;
    }
    Ok(shown)
}

/// The numbers of pins, cells, nets and library cells, with the unit and the name of the top.
fn show_counts(alloc: Global, design: &Design) -> Result<String, NoMemory> {
    let shown = format!(in alloc;
        " {} {} {} {} {} {}",
        design.top.as_str(),
        design.unit,
        design.pins.len(),
        design.cells.len(),
        design.nets.len(),
        design.kinds.len()
    )?;
    Ok(shown)
}

/// A part of a design.
fn show_part(alloc: Global, part: Part, design: &Design) -> Result<String, NoMemory> {
    match part {
        Part::Pins => show_pins(alloc, design),
        Part::Cells => show_cells(alloc, design),
        Part::Nets => show_nets(alloc, design),
        Part::Counts => show_counts(alloc, design),
    }
}

/// A text of its own. The one error is want of memory.
fn text_of(alloc: Global, text: &str) -> Result<String, NoMemory> {
    let text = String::from_str(alloc, text)?;
    Ok(text)
}

/// A part of the design with the top module `top` that a netlist is over a library, or its first fault with its line.
pub fn show_design(
    alloc: Global,
    part: Part,
    library: &str,
    netlist: &str,
) -> Result<String, NoMemory> {
    read_libraries_can_be_used();
    read_netlists_can_be_flattened();
    let Ok(library) = read_lib(alloc, library.as_bytes()) else {
        return text_of(alloc, "no library");
    };
    let Ok(modules) = read_verilog(alloc, netlist.as_bytes()) else {
        return text_of(alloc, "no netlist");
    };
    let top = Text::from_str(alloc, "top")?;
    match flatten(alloc, &modules, &library, &top) {
        Ok(design) => show_part(alloc, part, &design),
        Err(Stop::Refused(fault)) => {
            let shown = format!(in alloc; "{}: {:?}", fault.line, fault.kind)?;
            Ok(shown)
        }
        Err(Stop::NoMemory) => Err(NoMemory),
    }
}

/// Sees that a part of a netlist's design over a library is this.
pub fn shows(
    rt: &impl Abort,
    alloc: Global,
    part: Part,
    library: &str,
    netlist: &str,
    wanted: &str,
) -> Result<(), NoMemory> {
    let shown = show_design(alloc, part, library, netlist)?;
    assert!(rt; shown.as_str() == wanted, "{netlist}: {shown}");
    Ok(())
}
