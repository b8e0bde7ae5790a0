//! Values of a script as texts: a list of objects counts as the list (Tcl) of their names.

ghost use Rattle.std.specs.Prelude.{◌≡◌, map, IfOk, OnOk, ◌++◌, ◌∷◌, []};
ghost use Rattle.mode_model.specs.ClockCommands.{object_name, object_names, value_text};

use sdc_base::{Duplicate, List, NoMemory, Text};
use std::alloc::Global;
use tcl_words::list_text;
use timing_types::{Clock, Object, Value};

/// The name of an object, which is that of a clock; an object of another kind has none.
fn object_name<'a>(clocks: &'a [Clock], object: &Object) -> &'a str
    ensures { result.now ≡ object_name clocks.now object.now }
{
    let Object::Clock(place) = object else {
        return "";
    };
    match clocks.get(*place as usize) {
        Some(clock) => clock.name.as_str(),
        None => "",
    }
}

/// Adds the name of an object to names. The one error is want of memory.
fn push_name(
    alloc: Global,
    names: &mut List<Text>,
    clocks: &[Clock],
    object: &Object,
) -> Result<(), NoMemory>
    ensures { OnOk result (names.new ≡ names.old ++ object_name clocks.now object.now ∷ []) }
{
    let name = Text::from_str(alloc, object_name(clocks, object))?;
    names.push(name)?;
    Ok(())
}

/// The names of objects in order. The one error is want of memory.
fn names_of(alloc: Global, clocks: &[Clock], objects: &[Object]) -> Result<List<Text>, NoMemory>
    ensures { IfOk result (λ names. names ≡ map (object_name clocks.now) objects.now) }
{
    let mut names = List::new(alloc);
    for object in objects {
        push_name(alloc, &mut names, clocks, object)?;
    }
    Ok(names)
}

/// The list (Tcl) of the names of objects, as text. The one error is want of memory.
pub fn object_names(alloc: Global, clocks: &[Clock], objects: &[Object]) -> Result<Text, NoMemory>
    ensures { IfOk result (λ names. names ≡ object_names clocks.now objects.now) }
{
    let names = names_of(alloc, clocks, objects)?;
    list_text(alloc, &names)
}

/// A value as a text. The one error is want of memory.
pub fn value_text(alloc: Global, clocks: &[Clock], value: &Value) -> Result<Text, NoMemory>
    ensures { IfOk result (λ text. text ≡ value_text clocks.now value.now) }
{
    match value {
        Value::Text(text) => text.copy(alloc),
        Value::Objects(objects) => object_names(alloc, clocks, objects.as_slice()),
    }
}
