//! Functions of a cell, read from their texts.

ghost use Rattle.std.specs.Prelude.{◌≡◌, ◌++◌, ◌≤◌, [], filter, nat_lt, length, IfOk, OnOk};
ghost use Rattle.std.specs.List.{list_any};
ghost use Rattle.sdc_base.specs.Gives.{Gives};
ghost use Rattle.function_model.specs.FunctionMeaning as spec;

use crate::names::Names;
use crate::reading::expression;
use pin_types::Expr;
use sdc_base::{Duplicate, List, NoMemory, Stop, Text};
use source_types::LibKind;
use std::alloc::Global;

/// The most bytes of a function's text.
const MOST_BYTES: usize = 1024;

/// The most inputs of a function.
const MOST_INPUTS: usize = 10;

/// Adds the pins of an expression, from left to right. The one error is want of memory.
fn add_pins(expr: &Expr, pins: &mut List<u16>) -> Result<(), NoMemory>
    ensures { OnOk result (pins.new ≡ pins.old ++ spec.pins_of expr.now) }
{
    match expr {
        Expr::Zero | Expr::One => Ok(()),
        Expr::Pin(pin) => pins.push(*pin),
        Expr::Not(inner) => add_pins(inner.get(), pins),
        Expr::And(left, right) | Expr::Or(left, right) | Expr::Xor(left, right) => {
            add_pins(left.get(), pins)?;
            add_pins(right.get(), pins)
        }
    }
}

/// Adds a pin, if it is an input and not there yet. The one error is want of memory.
fn add_input(seen: &mut List<u16>, inputs: usize, pin: u16) -> Result<(), NoMemory>
    ensures { OnOk result (seen.new ≡ spec.with_input inputs seen.old pin) }
{
    if usize::from(pin) < inputs && !seen.as_slice().contains(&pin) {
        return seen.push(pin);
    }
    Ok(())
}

/// The different inputs among pins. The one error is want of memory.
fn inputs_among(alloc: Global, names: &Names, pins: &[u16]) -> Result<List<u16>, NoMemory>
    ensures { IfOk result (λ seen. seen ≡ spec.inputs_among names.now pins.now) }
{
    let inputs = names.inputs();
    let mut seen = List::new(alloc);
    for pin in pins {
        add_input(&mut seen, inputs, *pin)?;
    }
    Ok(seen)
}

/// Reads the text of a cell's function (Liberty, `function`). `names` has the cell's inputs in order, then an empty
/// text, then the state variables and the other pins; without an empty text all are inputs. `Pin(i)` is the i-th
/// input, from 0. `None` where a state variable or a pin that is no input stands in the text.
///
/// Refused as `FunctionForm` where the text is no function or has more than 1,024 bytes, else as `UnknownPin` where
/// a name in it is none of the cell's, else as `FunctionWide` where more than 10 different inputs stand in it. The
/// limits and this order are this project's own.
pub fn parse(alloc: Global, text: &str, names: &List<Text>) -> Result<Option<Expr>, Stop<LibKind>>
    requires { length names.now ≤ 60001 }
    ensures { Gives result (spec.meaning names.now text.now) }
{
    let names = Names::new(alloc, names.copy(alloc)?)?;
    parse_prepared(alloc, text, &names)
}

/// Reads the text of a function as `parse` does, among names that are prepared once for all functions of a cell.
pub fn parse_prepared(
    alloc: Global,
    text: &str,
    names: &Names,
) -> Result<Option<Expr>, Stop<LibKind>>
    requires { length names.now ≤ 60001 }
    ensures { Gives result (spec.meaning names.now text.now) }
{
    if text.len() > MOST_BYTES {
        return Err(Stop::Refused(LibKind::FunctionForm));
    }
    match expression(alloc, names, text.as_bytes())? {
        None => Err(Stop::Refused(LibKind::FunctionForm)),
        Some(expr) => meaning_of(alloc, names, expr),
    }
}

/// What an expression means among a cell's names, refused as `UnknownPin` or `FunctionWide` as `parse` says.
fn meaning_of(alloc: Global, names: &Names, expr: Expr) -> Result<Option<Expr>, Stop<LibKind>>
    ensures { Gives result (spec.meaning_of names.now (spec.pins_of expr) expr) }
{
    let mut pins = List::new(alloc);
    add_pins(&expr, &mut pins)?;
    if any_unknown(names, pins.as_slice()) {
        return Err(Stop::Refused(LibKind::UnknownPin));
    }
    let inputs = inputs_among(alloc, names, pins.as_slice())?;
    if inputs.len() > MOST_INPUTS {
        return Err(Stop::Refused(LibKind::FunctionWide));
    }
    if any_other(names, pins.as_slice()) {
        return Ok(None);
    }
    Ok(Some(expr))
}

/// Whether one of some places is after all names.
fn any_unknown(names: &Names, pins: &[u16]) -> bool
    ensures { result ≡ list_any (spec.is_unknown names.now) pins.now }
{
    pins.iter().any(|pin| names.is_unknown(*pin))
}

/// Whether one of some places has the name of a state variable or of a pin that is no input.
fn any_other(names: &Names, pins: &[u16]) -> bool
    ensures { result ≡ list_any (spec.is_other names.now) pins.now }
{
    pins.iter().any(|pin| names.is_other(*pin))
}
