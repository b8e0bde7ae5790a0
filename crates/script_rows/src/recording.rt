//! A host for tests that shows its calls.

ghost use Rattle.std.specs.Prelude.{List, ℕ, codes};
ghost use Rattle.std.specs.String.{string_bytes};

use sdc_base::{At, List, NoMemory, Stop, Text};
use source_types::{Kind, SdcKind};
use std::alloc::Global;
use tcl_eval::{Commands, eval};
use timing_types::{Object, Value};

/// A host that writes down each call as `LINE:NAME(VALUES)`, a list of objects as `@` and its length. `clocks` gives
/// two clocks with the names `p` and `q`, `none` no object, `refuse` is refused, `number` gives 0, and every other name
/// gives its values in angle brackets.
#[derive(Drop)]
pub struct Recording {
    alloc: Global,
    shown: String,
}

impl Commands for Recording {
    ghost State = { List ℕ };

    ghost state = { λ it. string_bytes it.shown };

    ghost host = { record {
      Answers = λ line name words before given after. Unit {0};
      names = λ state objects. codes "p q";
    } };

    fn call(&mut self, line: u32, name: &Text, words: &List<Value>) -> Result<Value, Stop<Kind>> {
        if name.as_str() == "refuse" {
            return Err(Stop::Refused(Kind::Sdc(SdcKind::OutOfProfile)));
        }
        let values = show_values(self.alloc, words)?;
        write_call(self.alloc, &mut self.shown, line, name, &values)?;
        let value = answer(self.alloc, name, &values)?;
        Ok(value)
    }

    fn names(&self, _objects: &List<Object>) -> Result<Text, NoMemory> {
        Text::from_str(self.alloc, "p q")
    }
}

/// The values of a call, parted by commas.
fn show_values(alloc: Global, words: &List<Value>) -> Result<String, NoMemory> {
    let mut shown = String::new(alloc);
    for (place, word) in words.iter().enumerate() {
        if place > 0 {
            shown.push_str(", ")?;
        }
        match word {
            Value::Text(text) => shown.push_str(text.as_str())?,
            Value::Objects(objects) => {
                let count = format!(in alloc; "@{}", objects.len())?;
                shown.push_str(count.as_str())?;
            }
        }
    }
    Ok(shown)
}

/// Adds a call to those shown.
fn write_call(
    alloc: Global,
    shown: &mut String,
    line: u32,
    name: &Text,
    values: &String,
) -> Result<(), NoMemory> {
    if shown.len() > 0 {
        shown.push_str(" ")?;
    }
    let call = format!(in alloc; "{line}:{}({})", name.as_str(), values.as_str())?;
    shown.push_str(call.as_str())?;
    Ok(())
}

/// What the host answers to a name.
fn answer(alloc: Global, name: &Text, values: &String) -> Result<Value, NoMemory> {
    if name.as_str() == "clocks" {
        let mut objects = List::new(alloc);
        objects.push(Object::Clock(0))?;
        objects.push(Object::Clock(1))?;
        return Ok(Value::Objects(objects));
    }
    if name.as_str() == "none" {
        return Ok(Value::Objects(List::new(alloc)));
    }
    if name.as_str() == "number" {
        let text = Text::from_str(alloc, "0")?;
        return Ok(Value::Text(text));
    }
    let text = format!(in alloc; "<{}>", values.as_str())?;
    Ok(Value::Text(Text::from(text)))
}

/// The calls of a script, and the line and the kind of its fault after them.
pub fn show_run(alloc: Global, script: &str) -> Result<String, NoMemory> {
    let mut host = Recording {
        alloc,
        shown: String::new(alloc),
    };
    let outcome = eval(alloc, script, &mut host);
    let Recording { mut shown, .. } = host;
    match outcome {
        Ok(()) => Ok(shown),
        Err(Stop::Refused(At { line, kind })) => {
            if shown.len() > 0 {
                shown.push_str(" ")?;
            }
            let fault = format!(in alloc; "{line} {kind:?}")?;
            shown.push_str(fault.as_str())?;
            Ok(shown)
        }
        Err(Stop::NoMemory) => Err(NoMemory),
    }
}
