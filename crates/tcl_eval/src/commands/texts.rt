//! Values as texts.

ghost use Rattle.std.specs.Prelude.{◌≡◌, ◌++◌, map, IfOk, OnOk};
ghost use Rattle.tcl_model.specs.BuiltIns as spec;
ghost use Rattle.tcl_model.specs.HostCalls.{text_in};
ghost use Rattle.tcl_model.specs.NamedCommands as commands;

use crate::hosts::Commands;
use sdc_base::{Duplicate, List, NoMemory, Text};
use std::alloc::Global;
use timing_types::Value;

/// The empty text.
pub fn no_text(alloc: Global) -> Value
    ensures { result ≡ spec.no_text }
{
    Value::Text(Text::new(alloc))
}

/// A value as a text: a list of objects counts as the list of their names. The one error is want of memory.
pub fn into_text<H: Commands>(host: &H, value: Value) -> Result<Text, NoMemory>
    ensures { IfOk result (λ text. text ≡ text_in H.host (H.state host.now) value) }
{
    match value {
        Value::Text(text) => Ok(text),
        Value::Objects(objects) => host.names(&objects),
    }
}

/// The same of a value that stays.
pub fn text_value<H: Commands>(alloc: Global, host: &H, value: &Value) -> Result<Text, NoMemory>
    ensures { IfOk result (λ text. text ≡ text_in H.host (H.state host.now) value.now) }
{
    match value {
        Value::Text(text) => text.copy(alloc),
        Value::Objects(objects) => host.names(objects),
    }
}

/// Values as texts. The one error is want of memory.
pub fn text_values<H: Commands>(
    alloc: Global,
    host: &H,
    values: &[Value],
) -> Result<List<Text>, NoMemory>
    ensures { IfOk result (λ texts. texts ≡ map (text_in H.host (H.state host.now)) values.now) }
{
    let mut texts = List::new(alloc);
    for value in values {
        let text = text_value(alloc, host, value)?;
        texts.push(text)?;
    }
    Ok(texts)
}

/// Adds the text of a value to others. The one error is want of memory.
pub fn add_text<H: Commands>(host: &H, joined: &mut Text, value: Value) -> Result<(), NoMemory>
    ensures { OnOk result (joined.new ≡ joined.old ++ text_in H.host (H.state host.now) value) }
{
    let text = into_text(host, value)?;
    joined.push_str(text.as_str())?;
    Ok(())
}

/// Texts, joined by blanks. The one error is want of memory.
pub fn spaced(alloc: Global, texts: &[Text]) -> Result<Text, NoMemory>
    ensures { IfOk result (λ joined. joined ≡ commands.spaced texts.now) }
{
    let mut joined = Text::new(alloc);
    let Some((first, others)) = texts.split_first() else {
        return Ok(joined);
    };
    joined.push_str(first.as_str())?;
    for text in others {
        joined.push_str(" ")?;
        joined.push_str(text.as_str())?;
    }
    Ok(joined)
}
