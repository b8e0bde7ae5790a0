//! Libraries as short texts, for tests: a cell's name, its pins, its arcs and its checks, pins by their places.

use lib_cells::read_lib;
use pin_types::{Expr, LibArc, LibCell, LibCheck, LibPin};
use sdc_base::{NoMemory, Stop};
use source_types::Library;
use std::alloc::Global;

/// A word where something holds.
fn word_if(holds: bool, word: &str) -> &str {
    if holds { word } else { "" }
}

/// An expression with each operator before its parts, and each pin by its place.
fn show_expr(alloc: Global, shown: &mut String, expr: &Expr) -> Result<(), NoMemory> {
    match expr {
        Expr::Zero => shown.push_str(" zero")?,
        Expr::One => shown.push_str(" one")?,
        Expr::Pin(pin) => {
            let pin = format!(in alloc; " {pin}")?;
            shown.push_str(pin.as_str())?;
        }
        Expr::Not(inner) => {
            shown.push_str(" not")?;
            show_expr(alloc, shown, inner.get())?;
        }
        Expr::And(left, right) => {
            shown.push_str(" and")?;
            show_expr(alloc, shown, left.get())?;
            show_expr(alloc, shown, right.get())?;
        }
        Expr::Or(left, right) => {
            shown.push_str(" or")?;
            show_expr(alloc, shown, left.get())?;
            show_expr(alloc, shown, right.get())?;
        }
        Expr::Xor(left, right) => {
            shown.push_str(" xor")?;
            show_expr(alloc, shown, left.get())?;
            show_expr(alloc, shown, right.get())?;
        }
    }
    Ok(())
}

/// A pin: its name, its direction, and its function where it has one.
fn show_pin(alloc: Global, shown: &mut String, pin: &LibPin) -> Result<(), NoMemory> {
    let text = format!(in alloc; " {}:{:?}", pin.name.as_str(), pin.direction)?;
    shown.push_str(text.as_str())?;
    let Some(function) = &pin.function else {
        return Ok(());
    };
    shown.push_str(" =")?;
    show_expr(alloc, shown, function)?;
    Ok(())
}

/// An arc: its pins, whether it launches, and the pairs of transitions that it has.
fn show_arc(alloc: Global, shown: &mut String, arc: &LibArc) -> Result<(), NoMemory> {
    let text = format!(in alloc;
        " {}>{}{}",
        arc.from,
        arc.to,
        word_if(arc.launch, " launch")
    )?;
    shown.push_str(text.as_str())?;
    shown.push_str(word_if(arc.rise_rise, " rr"))?;
    shown.push_str(word_if(arc.rise_fall, " rf"))?;
    shown.push_str(word_if(arc.fall_rise, " fr"))?;
    shown.push_str(word_if(arc.fall_fall, " ff"))?;
    Ok(())
}

/// A check: its side, its pin, and the clock pin with its edge.
fn show_check(alloc: Global, shown: &mut String, check: &LibCheck) -> Result<(), NoMemory> {
    let text = format!(in alloc;
        " {:?} {} at {} {:?}",
        check.side, check.pin, check.clock, check.clock_edge
    )?;
    shown.push_str(text.as_str())?;
    Ok(())
}

/// The pins of a cell.
fn show_pins(alloc: Global, shown: &mut String, cell: &LibCell) -> Result<(), NoMemory> {
    for pin in cell.pins.as_slice() {
        show_pin(alloc, shown, pin)?;
    }
    Ok(())
}

/// The arcs of a cell.
fn show_arcs(alloc: Global, shown: &mut String, cell: &LibCell) -> Result<(), NoMemory> {
    for arc in cell.arcs.as_slice() {
        show_arc(alloc, shown, arc)?;
    }
    Ok(())
}

/// The checks of a cell.
fn show_checks(alloc: Global, shown: &mut String, cell: &LibCell) -> Result<(), NoMemory> {
    for check in cell.checks.as_slice() {
        show_check(alloc, shown, check)?;
    }
    Ok(())
}

/// A cell with its name in brackets.
fn show_cell(alloc: Global, shown: &mut String, cell: &LibCell) -> Result<(), NoMemory> {
    shown.push_str(" [")?;
    shown.push_str(cell.name.as_str())?;
    shown.push_str(word_if(cell.refused, " refused"))?;
    shown.push_str("]")?;
    show_pins(alloc, shown, cell)?;
    show_arcs(alloc, shown, cell)?;
    show_checks(alloc, shown, cell)?;
    Ok(())
}

/// A library: its unit, and its cells.
fn show_library(alloc: Global, library: &Library) -> Result<String, NoMemory> {
    let mut shown = format!(in alloc; "{}", library.unit)?;
    for cell in library.cells.as_slice() {
        show_cell(alloc, &mut shown, cell)?;
    }
    Ok(shown)
}

/// What the text of a library means, or its first fault.
pub fn show_text(alloc: Global, text: &str) -> Result<String, NoMemory> {
    match read_lib(alloc, text.as_bytes()) {
        Ok(library) => show_library(alloc, &library),
        Err(Stop::Refused(fault)) => {
            let shown = format!(in alloc; "{}: {:?}", fault.line, fault.kind)?;
            Ok(shown)
        }
        Err(Stop::NoMemory) => Err(NoMemory),
    }
}
