//! The functions of a cell's pins (Liberty, `function`): the names that they are read with, and their inputs as places
//! of pins.

ghost use Rattle.std.specs.Prelude.{◌≡◌, ◌≤◌, ◌++◌, ◌∷◌, [], filter, get_or, length, map, IfOk, OnOk, Err};
ghost use Rattle.sdc_base.specs.Gives.{Gives};
ghost use Rattle.function_model.specs.FunctionMeaning as function;
ghost use Rattle.library_model.specs.LibertyCells as liberty;
ghost use Rattle.lib_cells.specs.FunctionNames.{function_value, is_wide_text, names_of, placed_if};

use crate::cell::pins::Pin;
use bool_lanes::{Names, parse_prepared};
use pin_types::{Direction, Expr};
use sdc_base::{Duplicate, List, NoMemory, Stop, Text};
use source_types::LibKind;
use sqlite_items::Boxed;
use std::alloc::Global;

/// Whether a direction is that of an input.
fn is_input(direction: Direction) -> bool
    ensures { result ≡ liberty.is_input direction }
{
    match direction {
        Direction::Input => true,
        Direction::Output | Direction::Other => false,
    }
}

/// Whether a pin is an input that a function can name.
fn is_named_input(pin: &Pin<'_>) -> bool
    ensures { result ≡ liberty.is_named_input pin.now }
{
    is_input(pin.direction()) && pin.name().len() > 0
}

/// Adds the names of the inputs that a function can name. The one error is want of memory.
fn add_inputs(alloc: Global, pins: &[Pin<'_>], names: &mut List<Text>) -> Result<(), NoMemory>
    ensures { OnOk result (names.new ≡ names.old ++ map (λ (pin : liberty.NamedPin). pin.name) (filter liberty.is_named_input pins.now)) }
{
    for pin in pins {
        if is_named_input(pin) {
            let name = pin.name().copy(alloc)?;
            names.push(name)?;
        }
    }
    Ok(())
}

/// Adds a name, if a function can hold it. The one error is want of memory.
fn add_named(alloc: Global, name: &Text, names: &mut List<Text>) -> Result<(), NoMemory>
    ensures { OnOk result (names.new ≡ names.old ++ filter liberty.is_named (name.now ∷ [])) }
{
    if name.len() > 0 {
        let name = name.copy(alloc)?;
        names.push(name)?;
    }
    Ok(())
}

/// Adds the state variables that a function can name. The one error is want of memory.
fn add_states(alloc: Global, states: &[Text], names: &mut List<Text>) -> Result<(), NoMemory>
    ensures { OnOk result (names.new ≡ names.old ++ filter liberty.is_named states.now) }
{
    for name in states {
        add_named(alloc, name, names)?;
    }
    Ok(())
}

/// Adds the names of the pins that are no inputs. The one error is want of memory.
fn add_others(alloc: Global, pins: &[Pin<'_>], names: &mut List<Text>) -> Result<(), NoMemory>
    ensures { OnOk result (names.new ≡ names.old ++ filter liberty.is_named (liberty.other_names pins.now)) }
{
    for pin in pins {
        if !is_input(pin.direction()) {
            add_named(alloc, pin.name(), names)?;
        }
    }
    Ok(())
}

/// The names that the functions of a cell are read with: its inputs, an empty name, its state variables and its other
/// pins; names that no function can hold are left out. The one error is want of memory.
pub fn function_names(alloc: Global, pins: &[Pin<'_>], states: &[Text]) -> Result<Names, NoMemory>
    ensures { IfOk result (λ names. names ≡ names_of pins.now states.now) }
{
    let mut names = List::new(alloc);
    add_inputs(alloc, pins, &mut names)?;
    names.push(Text::new(alloc))?;
    add_states(alloc, states, &mut names)?;
    add_others(alloc, pins, &mut names)?;
    Names::new(alloc, names)
}

/// The places of the inputs that a function can name. The one error is want of memory.
pub fn input_places(alloc: Global, pins: &[Pin<'_>]) -> Result<Vec<u16>, NoMemory>
    requires { length pins.now ≤ 60000 }
    ensures { IfOk result (λ places. places.items ≡ liberty.input_places 0 pins.now) }
{
    let mut places = Vec::new(alloc);
    for (place, pin) in pins.iter().enumerate() {
        if is_named_input(pin) {
            places.push(place as u16)?;
        }
    }
    Ok(places)
}

/// The place of an input.
fn place_of(places: &[u16], input: u16) -> u16
    ensures { result ≡ get_or places.now input 0 }
{
    match places.get(usize::from(input)) {
        Some(place) => *place,
        None => 0,
    }
}

/// An expression over inputs, over the places of pins. The one error is want of memory.
fn placed(alloc: Global, places: &[u16], expr: &Expr) -> Result<Expr, NoMemory>
    ensures { IfOk result (λ e. e ≡ liberty.placed places.now expr.now) }
{
    match expr {
        Expr::Zero => Ok(Expr::Zero),
        Expr::One => Ok(Expr::One),
        Expr::Pin(input) => Ok(Expr::Pin(place_of(places, *input))),
        Expr::Not(inner) => {
            let inner = placed(alloc, places, inner.get())?;
            let inner = Boxed::new(alloc, inner)?;
            Ok(Expr::Not(inner))
        }
        Expr::And(left, right) => {
            let left = placed(alloc, places, left.get())?;
            let left = Boxed::new(alloc, left)?;
            let right = placed(alloc, places, right.get())?;
            let right = Boxed::new(alloc, right)?;
            Ok(Expr::And(left, right))
        }
        Expr::Or(left, right) => {
            let left = placed(alloc, places, left.get())?;
            let left = Boxed::new(alloc, left)?;
            let right = placed(alloc, places, right.get())?;
            let right = Boxed::new(alloc, right)?;
            Ok(Expr::Or(left, right))
        }
        Expr::Xor(left, right) => {
            let left = placed(alloc, places, left.get())?;
            let left = Boxed::new(alloc, left)?;
            let right = placed(alloc, places, right.get())?;
            let right = Boxed::new(alloc, right)?;
            Ok(Expr::Xor(left, right))
        }
    }
}

/// The expression of a function's text over the places of pins, and none where the text is refused. The one error is
/// want of memory.
fn placed_function(
    alloc: Global,
    names: &Names,
    places: &[u16],
    text: &str,
) -> Result<Option<Expr>, NoMemory>
    requires { length names.now ≤ 60001 }
    ensures { IfOk result (λ e. e ≡ placed_if places.now (function.meaning names.now text.now)) }
{
    match parse_prepared(alloc, text, names) {
        Ok(None) => Ok(None),
        Ok(Some(expr)) => {
            let expr = placed(alloc, places, &expr)?;
            Ok(Some(expr))
        }
        Err(Stop::Refused(_)) => Ok(None),
        Err(Stop::NoMemory) => Err(NoMemory),
    }
}

/// The function of a pin, given its text, if there is one. The one error is want of memory.
pub fn function_of(
    alloc: Global,
    names: &Names,
    places: &[u16],
    text: &Option<Text>,
) -> Result<Option<Expr>, NoMemory>
    requires { length names.now ≤ 60001 }
    ensures { IfOk result (λ e. e ≡ function_value names.now places.now text.now) }
{
    match text {
        None => Ok(None),
        Some(text) => placed_function(alloc, names, places, text.as_str()),
    }
}

/// Whether a text is a function of too many inputs. The one error is want of memory.
pub fn is_wide(alloc: Global, names: &Names, text: &Option<Text>) -> Result<bool, NoMemory>
    requires { length names.now ≤ 60001 }
    ensures { IfOk result (λ wide. wide ≡ is_wide_text names.now text.now) }
{
    let Some(text) = text else {
        return Ok(false);
    };
    match parse_prepared(alloc, text.as_str(), names) {
        Ok(_) => Ok(false),
        Err(Stop::Refused(kind)) => Ok(is_too_wide(kind)),
        Err(Stop::NoMemory) => Err(NoMemory),
    }
}

/// Whether a function is refused for its inputs.
fn is_too_wide(kind: LibKind) -> bool
    ensures { result ≡ liberty.is_too_wide (Err kind) }
{
    match kind {
        LibKind::FunctionWide => true,
        LibKind::NotText
        | LibKind::LibForm
        | LibKind::UnknownPin
        | LibKind::FunctionForm
        | LibKind::DoubleCell => false,
    }
}
