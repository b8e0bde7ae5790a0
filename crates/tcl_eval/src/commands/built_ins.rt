//! The built-in commands that run no script and no expression.

ghost use Rattle.std.specs.Prelude.{◌≡◌, Ok, IfOk};
ghost use Rattle.sdc_base.specs.Gives.{Gives, Meets};
ghost use Rattle.tcl_model.specs.BuiltIns as spec;
ghost use Rattle.tcl_model.specs.HostCalls.{text_in};
ghost use Rattle.tcl_model.specs.NamedCommands.{Sets};
ghost use Rattle.tcl_model.specs.Variables as variables;
ghost use Rattle.tcl_eval.specs.Worlds.{Does, world};

use crate::commands::faults::{refuse, tcl_answer};
use crate::commands::list_values::{all_items, item_values, joined_objects};
use crate::commands::texts::{no_text, text_value, text_values};
use crate::expressions::values::expected;
use crate::hosts::Commands;
use crate::running::progress::Progress;
use sdc_base::{Duplicate, Fixed, List, NoMemory, Stop, Text};
use source_types::{Kind, TclKind};
use std::alloc::Global;
use tcl_words::list_text;
use timing_types::Value;

/// The number 1 in units of 10^-9.
const ONE: u128 = 1_000_000_000;

/// What a variable has. Refused as `UnknownVariable` where it is not set.
pub fn variable_value(alloc: Global, run: &Progress, name: &str) -> Result<Value, Stop<TclKind>>
    ensures { Gives result (variables.variable_value run.now.variables name.now) }
{
    let Some(value) = run.variables.get(name) else {
        return Err(Stop::Refused(TclKind::UnknownVariable));
    };
    let value = value.copy(alloc)?;
    Ok(value)
}

/// `set name ?value?`: sets the variable and gives its value.
pub fn set<H: Commands>(
    alloc: Global,
    host: &H,
    run: &mut Progress,
    arguments: &[Value],
) -> Result<Value, Stop<Kind>>
    ensures { Does (Sets H.host arguments.now) (world run.old (H.state host.now)) result (world run.new (H.state host.now)) }
{
    match arguments {
        [name] => {
            let name = text_value(alloc, host, name)?;
            tcl_answer(variable_value(alloc, run, name.as_str()))
        }
        [name, value] => {
            let name = text_value(alloc, host, name)?;
            run.set(alloc, name.as_str(), value)?;
            let value = value.copy(alloc)?;
            Ok(value)
        }
        _ => Err(refuse(TclKind::WrongArgs)),
    }
}

/// `list a..`: one or more lists of objects alone are joined; else the list of the texts. The one error is want of
/// memory.
pub fn list<H: Commands>(alloc: Global, host: &H, arguments: &[Value]) -> Result<Value, Stop<Kind>>
    ensures { Gives result (Ok (spec.list_made (text_in H.host (H.state host.now)) arguments.now)) }
{
    if let Some(objects) = joined_objects(alloc, arguments)? {
        return Ok(Value::Objects(objects));
    }
    let texts = text_values(alloc, host, arguments)?;
    let made = list_text(alloc, &texts)?;
    Ok(Value::Text(made))
}

/// `concat a..`: one or more lists of objects alone are joined; else the items of all texts.
pub fn concat<H: Commands>(
    alloc: Global,
    host: &H,
    arguments: &[Value],
) -> Result<Value, Stop<TclKind>>
    ensures { Meets result (spec.Concats (text_in H.host (H.state host.now)) arguments.now) }
{
    if let Some(objects) = joined_objects(alloc, arguments)? {
        return Ok(Value::Objects(objects));
    }
    let texts = text_values(alloc, host, arguments)?;
    let items = all_items(alloc, texts.as_slice())?;
    let made = list_text(alloc, &items)?;
    Ok(Value::Text(made))
}

/// Whether a text has what a whole number has not: a point or an exponent.
fn is_unwhole(text: &[u8]) -> bool
    ensures { result ≡ spec.is_unwhole text.now }
{
    text.iter().any(|byte| matches!(*byte, b'.' | b'e' | b'E'))
}

/// The whole number that is an index. Refused as `BadExpr` where the text is none, as `Number` where it is out of
/// range.
fn index_of(text: &Text) -> Result<Fixed, TclKind>
    ensures { result ≡ spec.index_of text.now }
{
    if is_unwhole(text.as_bytes()) {
        return Err(TclKind::BadExpr);
    }
    expected(Fixed::read(text.as_str()))
}

/// The item at an index, or the empty text past either end. The one error is want of memory.
fn item_at(alloc: Global, items: &List<Value>, index: Fixed) -> Result<Value, NoMemory>
    ensures { IfOk result (λ item. item ≡ spec.item_at items.now index) }
{
    if index.scaled < 0 {
        return Ok(no_text(alloc));
    }
    let Ok(place) = usize::try_from(index.scaled.unsigned_abs() / ONE) else {
        return Ok(no_text(alloc));
    };
    let Some(item) = items.get(place) else {
        return Ok(no_text(alloc));
    };
    item.copy(alloc)
}

/// `lindex list i`: the item, counted from 0. A fault of the list stands before one of the index.
pub fn lindex<H: Commands>(
    alloc: Global,
    host: &H,
    arguments: &[Value],
) -> Result<Value, Stop<TclKind>>
    ensures { Meets result (spec.Indexes (text_in H.host (H.state host.now)) arguments.now) }
{
    let [list, index] = arguments else {
        return Err(Stop::Refused(TclKind::WrongArgs));
    };
    let items = item_values(alloc, list)?;
    let index = text_value(alloc, host, index)?;
    let index = match index_of(&index) {
        Ok(index) => index,
        Err(kind) => return Err(Stop::Refused(kind)),
    };
    let item = item_at(alloc, &items, index)?;
    Ok(item)
}

/// `llength list`: the number of items.
pub fn llength(alloc: Global, arguments: &[Value]) -> Result<Value, Stop<TclKind>>
    ensures { Meets result (spec.Counts arguments.now) }
{
    let [list] = arguments else {
        return Err(Stop::Refused(TclKind::WrongArgs));
    };
    let items = item_values(alloc, list)?;
    let count = items.len().to_string(alloc)?;
    Ok(Value::Text(Text::from(count)))
}
